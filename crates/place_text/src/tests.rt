//! The text of each place.

use crate::place::place_text;
use fdt_blob::FdtPlace;
use ho_base::numbers::{Kind, Pfn};
use record_frames::ImagePlace;
use std::alloc::AllocError;

#[test]
fn each_place_has_its_text(rt: HostRuntime) -> Result<(), AllocError> {
    let cases = [
        (ImagePlace::Entry, "entry"),
        (ImagePlace::Tree(FdtPlace::Header), "tree header"),
        (
            ImagePlace::Tree(FdtPlace::Reservations),
            "tree reservations",
        ),
        (ImagePlace::Tree(FdtPlace::Structure), "tree structure"),
        (ImagePlace::Root, "root"),
        (ImagePlace::Luo, "luo"),
        (ImagePlace::Chain(0), "chain 0"),
        (ImagePlace::Chain(u64::MAX), "chain 18446744073709551615"),
        (ImagePlace::Record(64), "record 64"),
        (ImagePlace::Bound(Kind::Dev0), "bound dev0"),
        (ImagePlace::Bound(Kind::Dev1), "bound dev1"),
        (ImagePlace::Bound(Kind::Dev2), "bound dev2"),
        (ImagePlace::Bound(Kind::Dev3), "bound dev3"),
        (ImagePlace::Owner(Pfn(16_383)), "owner 16383"),
    ];
    for (place, text) in cases {
        assert_eq!(rt; place_text(rt.alloc(), place)?.as_str(), text);
    }
    Ok(())
}
