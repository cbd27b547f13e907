//! Blobs byte for byte, and what is refused as one.

use fdt_blob::{FdtPlace, Node, OpenError, Prop, Reader, WriteError, valid, write};
use std::alloc::{AllocError, Global};
use std::test::*;

/// The blob of a root with no property and no child.
const SMALLEST: [u8; 72] = [
    0xd0, 0x0d, 0xfe, 0xed, 0, 0, 0, 0x48, 0, 0, 0, 0x38, 0, 0, 0, 0x48, 0, 0, 0, 0x28, 0, 0, 0,
    0x11, 0, 0, 0, 0x10, 0, 0, 0, 0, 0, 0, 0, 0, 0, 0, 0, 0x10, 0, 0, 0, 0, 0, 0, 0, 0, 0, 0, 0, 0,
    0, 0, 0, 0, 0, 0, 0, 1, 0, 0, 0, 0, 0, 0, 0, 2, 0, 0, 0, 9,
];

/// The header of the blob of a handover tree with one session and one file.
const HANDOVER_HEADER: [u8; 40] = [
    0xd0, 0x0d, 0xfe, 0xed, 0, 0, 1, 0x1d, 0, 0, 0, 0x38, 0, 0, 0, 0xd4, 0, 0, 0, 0x28, 0, 0, 0,
    0x11, 0, 0, 0, 0x10, 0, 0, 0, 0, 0, 0, 0, 0x49, 0, 0, 0, 0x9c,
];

const HANDOVER_STRINGS: &[u8; 73] =
    b"compatible\0preserved-memory-map\0scratch\0liveupdate-number\0session-header\0";

fn node(alloc: Global, name: &[u8]) -> Result<Node, AllocError> {
    Ok(Node {
        name: Vec::from_slice(alloc, name)?,
        props: Vec::new(alloc),
        children: Vec::new(alloc),
    })
}

fn hold(alloc: Global, node: &mut Node, name: &[u8], value: &[u8]) -> Result<(), AllocError> {
    let prop = Prop {
        name: Vec::from_slice(alloc, name)?,
        value: Vec::from_slice(alloc, value)?,
    };
    node.props.push(prop)?;
    Ok(())
}

fn handover(alloc: Global) -> Result<Node, AllocError> {
    let mut luo = node(alloc, b"luo")?;
    hold(alloc, &mut luo, b"compatible", b"luo-v1\0")?;
    hold(
        alloc,
        &mut luo,
        b"liveupdate-number",
        &[0, 0, 0, 0, 0, 0, 0, 1],
    )?;
    hold(
        alloc,
        &mut luo,
        b"session-header",
        &[0, 0, 0, 0, 0, 0, 0, 11],
    )?;
    let mut root = node(alloc, b"")?;
    hold(alloc, &mut root, b"compatible", b"kho-v1\0")?;
    hold(
        alloc,
        &mut root,
        b"preserved-memory-map",
        &[0, 0, 0, 0, 0, 0, 0, 10],
    )?;
    let areas = [0, 0, 0, 0, 0, 0, 0, 1, 0, 0, 0, 0, 0, 0, 0, 8];
    hold(alloc, &mut root, b"scratch", &areas)?;
    root.children.push(luo)?;
    Ok(root)
}

#[test]
fn the_smallest_blob(rt: HostRuntime) -> Result<(), Fail> {
    let root = node(rt.alloc(), b"")?;
    assert!(rt; valid(&root));
    let blob = write(rt.alloc(), &root)?;
    assert_eq!(rt; blob.as_slice(), SMALLEST.as_slice());
    let reader = Reader::open(rt.alloc(), &SMALLEST)?;
    assert_eq!(rt; reader.counts(reader.root()), (0, 0));
    assert_eq!(rt;
        refused(rt.alloc(), &SMALLEST[..71])?,
        Some(FdtPlace::Header)
    );
    Ok(())
}

#[test]
fn the_blob_of_a_handover(rt: HostRuntime) -> Result<(), Fail> {
    let root = handover(rt.alloc())?;
    assert!(rt; valid(&root));
    let blob = write(rt.alloc(), &root)?;
    assert_eq!(rt; blob.len(), 285);
    assert_eq!(rt; &blob[..40], HANDOVER_HEADER.as_slice());
    assert_eq!(rt; &blob[212..], HANDOVER_STRINGS.as_slice());
    for (place, name) in [(72, 0), (92, 11), (112, 32), (148, 0), (168, 40), (188, 58)] {
        assert_eq!(rt;
            &blob[place..place + 4],
            [0, 0, 0, name].as_slice(),
            "at {place}"
        );
    }
    Ok(())
}

/// A blob of a root with the property `p` of one byte and the children `a` and `b`, and four bytes behind it.
const SMALL: [u8; 120] = [
    0xd0, 0x0d, 0xfe, 0xed, 0, 0, 0, 116, 0, 0, 0, 56, 0, 0, 0, 112, 0, 0, 0, 40, 0, 0, 0, 17, 0,
    0, 0, 16, 0, 0, 0, 0, 0, 0, 0, 4, 0, 0, 0, 56, 0, 0, 0, 0, 0, 0, 0, 0, 0, 0, 0, 0, 0, 0, 0, 0,
    0, 0, 0, 1, 0, 0, 0, 0, 0, 0, 0, 3, 0, 0, 0, 1, 0, 0, 0, 0, 7, 0, 0, 0, 0, 0, 0, 1, b'a', 0, 0,
    0, 0, 0, 0, 2, 0, 0, 0, 1, b'b', 0, 0, 0, 0, 0, 0, 2, 0, 0, 0, 2, 0, 0, 0, 9, b'p', 0, b'q', 0,
    1, 1, 1, 1,
];

/// The place that a blob is refused at; none where it is opened.
fn refused(alloc: Global, bytes: &[u8]) -> Result<Option<FdtPlace>, AllocError> {
    match Reader::open(alloc, bytes) {
        Ok(_) => Ok(None),
        Err(OpenError::BadFdt(place)) => Ok(Some(place)),
        Err(OpenError::Memory) => Err(AllocError),
    }
}

/// The same of the small blob with these bytes in these places.
fn refused_with(alloc: Global, edits: &[(usize, u8)]) -> Result<Option<FdtPlace>, AllocError> {
    let mut bytes = SMALL;
    for (place, byte) in edits {
        if *place < bytes.len() {
            bytes[*place] = *byte;
        }
    }
    refused(alloc, &bytes)
}

#[test]
fn what_stays_a_blob(rt: HostRuntime) -> Result<(), Fail> {
    let table = [
        ("as it is", [].as_slice()),
        ("another boot processor", [(28, 9)].as_slice()),
        (
            "NOPs for a child",
            [(83, 4), (84, 0), (87, 4), (91, 4)].as_slice(),
        ),
        (
            "another property for a child",
            [(83, 3), (84, 0)].as_slice(),
        ),
        (
            "names that share bytes",
            [(83, 3), (84, 0), (91, 1), (113, b'q'), (114, 0)].as_slice(),
        ),
    ];
    for (what, edits) in table {
        assert_eq!(rt; refused_with(rt.alloc(), edits)?, None, "{what}");
    }
    Ok(())
}

#[test]
fn blobs_with_a_broken_header(rt: HostRuntime) -> Result<(), Fail> {
    let table = [
        ("the magic number", [(0, 0xd1)].as_slice()),
        ("the version", [(23, 16)].as_slice()),
        ("the last compatible version", [(27, 17)].as_slice()),
        ("a total past the bytes", [(7, 121)].as_slice()),
        (
            "a total near 2^32",
            [(4, 0xff), (5, 0xff), (6, 0xff), (7, 0xff)].as_slice(),
        ),
        ("a total below 40", [(7, 39)].as_slice()),
        ("reservations at 44", [(19, 44)].as_slice()),
        ("reservations past the total", [(19, 104)].as_slice()),
        ("structure at 58", [(11, 58), (39, 54)].as_slice()),
        ("structure past the total", [(11, 64), (35, 0)].as_slice()),
        (
            "structure near 2^32",
            [(8, 0xff), (9, 0xff), (10, 0xff), (11, 0xfc)].as_slice(),
        ),
        ("strings past the total", [(35, 5)].as_slice()),
        ("strings over the structure", [(15, 108)].as_slice()),
        ("strings over the header", [(15, 36)].as_slice()),
        ("strings over the reservations", [(15, 40)].as_slice()),
    ];
    for (what, edits) in table {
        assert_eq!(rt;
            refused_with(rt.alloc(), edits)?,
            Some(FdtPlace::Header),
            "{what}"
        );
    }
    assert_eq!(rt;
        refused(rt.alloc(), &SMALL[..39])?,
        Some(FdtPlace::Header),
        "39 bytes"
    );
    Ok(())
}

#[test]
fn blobs_with_broken_reservations(rt: HostRuntime) -> Result<(), Fail> {
    let table = [
        ("no ending pair", [(40, 1)].as_slice()),
        (
            "over the structure",
            [(40, 1), (59, 0), (67, 0), (71, 0)].as_slice(),
        ),
    ];
    for (what, edits) in table {
        assert_eq!(rt;
            refused_with(rt.alloc(), edits)?,
            Some(FdtPlace::Reservations),
            "{what}"
        );
    }
    Ok(())
}

#[test]
fn blobs_with_broken_tokens(rt: HostRuntime) -> Result<(), Fail> {
    let table = [
        ("no node at the front", [(59, 2)].as_slice()),
        ("an unknown token", [(67, 5)].as_slice()),
        ("padding behind a name", [(62, 1)].as_slice()),
        ("padding behind a value", [(77, 1)].as_slice()),
        ("a value past the block", [(71, 200)].as_slice()),
        (
            "a value near 2^32",
            [(68, 0xff), (69, 0xff), (70, 0xff), (71, 0xff)].as_slice(),
        ),
        ("a property behind a child", [(95, 3), (96, 0)].as_slice()),
        ("a node that isn't ended", [(107, 4)].as_slice()),
        ("END within a node", [(107, 9)].as_slice()),
        ("no END", [(111, 4)].as_slice()),
        ("END cut off", [(39, 52)].as_slice()),
        (
            "a token behind END",
            [(95, 4), (96, 0), (99, 4), (107, 9)].as_slice(),
        ),
    ];
    for (what, edits) in table {
        assert_eq!(rt;
            refused_with(rt.alloc(), edits)?,
            Some(FdtPlace::Structure),
            "{what}"
        );
    }
    Ok(())
}

#[test]
fn blobs_with_broken_names(rt: HostRuntime) -> Result<(), Fail> {
    let table = [
        ("a root with a name", [(60, b'r')].as_slice()),
        ("a child without a name", [(84, 0)].as_slice()),
        ("a child's byte", [(84, b'@')].as_slice()),
        ("a child twice", [(96, b'a')].as_slice()),
        ("a property past the strings", [(75, 4)].as_slice()),
        (
            "a property near 2^32",
            [(72, 0xff), (73, 0xff), (74, 0xff), (75, 0xff)].as_slice(),
        ),
        ("a property without a name", [(75, 1)].as_slice()),
        (
            "a property's name without an end",
            [(75, 2), (115, b'z')].as_slice(),
        ),
        ("a property's byte", [(112, b'/')].as_slice()),
        ("a property twice", [(83, 3), (84, 0), (91, 0)].as_slice()),
    ];
    for (what, edits) in table {
        assert_eq!(rt;
            refused_with(rt.alloc(), edits)?,
            Some(FdtPlace::Structure),
            "{what}"
        );
    }
    Ok(())
}

/// A blob of 4096 bytes is written, and one of 4097 isn't.
#[test]
fn the_largest_blob(rt: HostRuntime) -> Result<(), Fail> {
    for (name, fits) in [(b"abc".as_slice(), true), (b"abcd".as_slice(), false)] {
        let mut root = node(rt.alloc(), b"")?;
        hold(rt.alloc(), &mut root, name, [0x5a; 4008].as_slice())?;
        assert!(rt; valid(&root));
        match write(rt.alloc(), &root) {
            Ok(blob) => {
                assert!(rt; fits);
                assert_eq!(rt; blob.len(), 4096);
            }
            Err(error) => {
                assert!(rt; !fits);
                assert_eq!(rt; error, WriteError::TooBig);
            }
        }
    }
    Ok(())
}
