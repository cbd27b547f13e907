//! Changes to the frames after the first path, with the place that each of them breaks.

use crate::first_path::{CHUNKS, ENTRY, FILES, LIST, Part, SESSIONS, first_path, put_all};
use fdt_blob::FdtPlace;
use ho_base::numbers::{Kind, Pfn};
use kho_records::{ImagePlace, SurveyError, survey};
use std::alloc::Global;
use std::process::Abort;

/// The place that breaks with these changes; none where the frames carry a state.
fn broken(rt: &impl Abort, alloc: Global, entry: u64, changes: &[Part]) -> Option<ImagePlace> {
    let mut frames = first_path(alloc).expect(rt, "memory");
    put_all(&mut frames, changes);
    let result = survey(alloc, &frames, entry);
    frames.end();
    match result {
        Ok(_) => None,
        Err(SurveyError::BadImage(place)) => Some(place),
        Err(SurveyError::Memory) => {
            assert!(rt; false);
            None
        }
    }
}

/// The entry frame, its tree, the root and its child.
#[test]
fn entries_are_refused_at_their_place(rt: HostRuntime) {
    let alloc = rt.alloc();
    assert_eq!(rt; broken(&rt, alloc, 10, &[]), None);
    assert_eq!(rt; broken(&rt, alloc, 0, &[]), Some(ImagePlace::Entry));
    assert_eq!(rt; broken(&rt, alloc, 64, &[]), Some(ImagePlace::Entry));
    let table: [(usize, &[u8], ImagePlace); 10] = [
        (0, b"\0", ImagePlace::Tree(FdtPlace::Header)),
        (40, b"\x01", ImagePlace::Tree(FdtPlace::Reservations)),
        (203, b"\x09", ImagePlace::Tree(FdtPlace::Structure)),
        (81, b"2", ImagePlace::Root),
        (131, b"\x40", ImagePlace::Root),
        (123, b"\0", ImagePlace::Root),
        (157, b"2", ImagePlace::Luo),
        (179, b"\0", ImagePlace::Luo),
        (103, b"\0", ImagePlace::Chain(0)),
        (199, b"\0", ImagePlace::Record(0)),
    ];
    for (at, bytes, place) in table {
        assert_eq!(rt;
            broken(&rt, alloc, 10, &[(ENTRY, at, bytes)]),
            Some(place),
            "at {at}"
        );
    }
}

/// The chunk frames.
#[test]
fn chains_are_refused_at_their_place(rt: HostRuntime) {
    let [first, second] = CHUNKS;
    let table: [(u32, usize, &[u8], u64); 9] = [
        (first, 8, b"\x08", 14),
        (first, 8, b"\0", 14),
        (first, 16, b"\x01", 14),
        (first, 56, b"\x01", 14),
        (first, 40, b"\x01", 14),
        (second, 0, b"\x40", 64),
        (second, 0, b"\x0e", 14),
        (second, 40, b"\x06", 15),
        (second, 40, b"\x0a", 15),
    ];
    for (frame, at, bytes, number) in table {
        let place = broken(&rt, rt.alloc(), 10, &[(frame, at, bytes)]);
        assert_eq!(rt; place, Some(ImagePlace::Chain(number)), "at {frame}, {at}");
    }
}

/// Session, file and list frames.
#[test]
fn records_are_refused_at_their_place(rt: HostRuntime) {
    let table: [(u32, usize, &[u8], u64); 18] = [
        (SESSIONS, 0, b"\x0c", 11),
        (SESSIONS, 8, b"\x11", 11),
        (SESSIONS, 16, b"\x01", 11),
        (SESSIONS, 128, b"/", 11),
        (SESSIONS, 192, b"\x20", 11),
        (SESSIONS, 200, b"\0", 11),
        (SESSIONS, 200, b"\x40", 64),
        (FILES, 0, b"\x0d", 12),
        (FILES, 8, b"\x02", 12),
        (FILES, 136, b"\x05", 12),
        (FILES, 144, b"\x0a", 12),
        (FILES, 152, b"\x01\x10", 12),
        (FILES, 160, b"\x06", 12),
        (FILES, 168, b"\x01", 12),
        (FILES, 176, b"\0", 12),
        (FILES, 176, b"\x0c", 12),
        (LIST, 8, b"\x02", 13),
        (LIST, 16, b"\x40", 13),
    ];
    for (frame, at, bytes, number) in table {
        let place = broken(&rt, rt.alloc(), 10, &[(frame, at, bytes)]);
        assert_eq!(rt; place, Some(ImagePlace::Record(number)), "at {frame}, {at}");
    }
    // Two sessions of one name, without files: names rise.
    let twice: [Part; 2] = [(SESSIONS, 8, b"\x02"), (SESSIONS, 256, b"s")];
    assert_eq!(rt;
        broken(&rt, rt.alloc(), 10, &twice),
        Some(ImagePlace::Record(11))
    );
    let rising: [Part; 2] = [(SESSIONS, 8, b"\x02"), (SESSIONS, 256, b"t")];
    assert_eq!(rt; broken(&rt, rt.alloc(), 10, &rising), None);
}

/// Bound records, and the owners' rule.
#[test]
fn bounds_and_owners_are_refused_at_their_place(rt: HostRuntime) {
    let [first, _] = CHUNKS;
    let device: [Part; 1] = [(FILES, 136, b"\x01")];
    assert_eq!(rt;
        broken(&rt, rt.alloc(), 10, &device),
        Some(ImagePlace::Bound(Kind::Dev0))
    );
    let table: [(u32, usize, &[u8], u32); 8] = [
        (first, 48, b"\x01", 0),
        (first, 48, b"\x08", 3),
        (first, 576, b"\x10", 8),
        (first, 49, b"\x3c", 9),
        (first, 49, b"\x3a", 10),
        (first, 49, b"\x36", 11),
        (first, 49, b"\x7e", 14),
        (LIST, 16, b"\x0a", 9),
    ];
    for (frame, at, bytes, number) in table {
        let place = broken(&rt, rt.alloc(), 10, &[(frame, at, bytes)]);
        assert_eq!(rt;
            place,
            Some(ImagePlace::Owner(Pfn(number))),
            "at {frame}, {at}"
        );
    }
    // The file's run is the entry frame: two users, although it is marked.
    let both: [Part; 2] = [(LIST, 16, b"\x0a"), (first, 49, b"\x3c")];
    assert_eq!(rt;
        broken(&rt, rt.alloc(), 10, &both),
        Some(ImagePlace::Owner(Pfn(10)))
    );
}
