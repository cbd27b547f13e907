//! Base values: names, bound records, orders, numbers, shapes and lists.

use ho_base::bound::Bound;
use ho_base::bytes::{get_u64, put_u64};
use ho_base::items::Items;
use ho_base::name::Name;
use ho_base::numbers::{BadShape, FileNo, Kind, ObjectNo, Order, Pfn, SlotNo};
use ho_base::shape::{Area, Shape};
use std::alloc::{AllocError, Global};
use std::test::Fail;

#[test]
fn names_have_1_to_63_bytes_of_the_set(rt: HostRuntime) -> Result<(), Fail> {
    let name = Name::checked(b"a.B_9-".as_slice()).ok_or("refused")?;
    assert_eq!(rt; name.as_bytes(), b"a.B_9-".as_slice());
    let again = Name::checked(b"a.B_9-".as_slice()).ok_or("refused")?;
    assert!(rt; name == again);
    assert!(rt; Name::checked([b'x'; 63].as_slice()).is_some());
    assert!(rt; Name::checked([b'x'; 64].as_slice()).is_none());
    assert!(rt; Name::checked(b"".as_slice()).is_none());
    assert!(rt; Name::checked(b"a b".as_slice()).is_none());
    Ok(())
}

#[test]
fn bound_records_have_at_most_64_bytes(rt: HostRuntime) -> Result<(), Fail> {
    let bound = Bound::checked([7; 64].as_slice()).ok_or("refused")?;
    assert_eq!(rt; bound.as_bytes(), [7; 64].as_slice());
    assert!(rt; bound != Bound::checked(b"".as_slice()).ok_or("refused")?);
    assert!(rt; Bound::checked([7; 65].as_slice()).is_none());
    Ok(())
}

#[test]
fn orders_are_at_most_9(rt: HostRuntime) {
    assert_eq!(rt; Order::checked(9), Some(Order(9)));
    assert_eq!(rt; Order::checked(10), None);
}

#[test]
fn numbers_go_low_byte_first(rt: HostRuntime) {
    let mut bytes = [255; 10];
    put_u64(&mut bytes, 1, 0x0102_0304_0506_0708);
    assert_eq!(rt; bytes, [255, 8, 7, 6, 5, 4, 3, 2, 1, 255]);
    assert_eq!(rt; get_u64(&bytes, 1), 0x0102_0304_0506_0708);
}

#[test]
fn objects_have_numbers(rt: HostRuntime) {
    assert_eq!(rt; ObjectNo::POOL, ObjectNo(0));
    assert_eq!(rt; ObjectNo::REGISTRY, ObjectNo(1));
    assert_eq!(rt; ObjectNo::of_handler(Kind::Memfd), None);
    assert_eq!(rt; ObjectNo::of_handler(Kind::Dev0), Some(ObjectNo(2)));
    assert_eq!(rt; ObjectNo::of_handler(Kind::Dev3), Some(ObjectNo(5)));
    assert_eq!(rt; ObjectNo::of_session(SlotNo(0)), ObjectNo(6));
    assert_eq!(rt; ObjectNo::of_session(SlotNo(31)), ObjectNo(37));
    assert_eq!(rt; ObjectNo::of_file(FileNo(0)), ObjectNo(38));
    assert_eq!(rt; ObjectNo::of_file(FileNo(255)), ObjectNo(293));
}

fn area(first: u32, count: u32) -> Area {
    Area {
        first: Pfn(first),
        count,
    }
}

/// Whether these areas of so many frames are no shape.
fn is_bad(alloc: Global, frames: u32, areas: &[Area]) -> Result<bool, AllocError> {
    let scratch = Vec::from_slice(alloc, areas)?;
    Ok(Shape::checked(frames, scratch).is_err())
}

/// The same of two areas.
fn are_bad(alloc: Global, frames: u32, one: Area, other: Area) -> Result<bool, AllocError> {
    is_bad(alloc, frames, [one, other].as_slice())
}

/// The shape of 64 frames with these areas; none where it is refused.
fn shape_of(alloc: Global, areas: &[Area]) -> Result<Option<Shape>, AllocError> {
    let scratch = Vec::from_slice(alloc, areas)?;
    Ok(Shape::checked(64, scratch).ok())
}

/// Whether a frame of a shape is in a scratch area; false where there is no shape.
fn is_scratch(shape: Option<&Shape>, frame: u32) -> bool {
    match shape {
        Some(shape) => shape.is_scratch(Pfn(frame)),
        None => false,
    }
}

/// Whether a shape has exactly these areas; false where there is no shape.
fn has_areas(shape: Option<&Shape>, areas: &[Area]) -> bool {
    match shape {
        Some(shape) => shape.scratch() == areas,
        None => false,
    }
}

#[test]
fn shapes_have_scratch_areas(rt: HostRuntime) -> Result<(), Fail> {
    let areas = [area(1, 8), area(20, 1)];
    let shape = shape_of(rt.alloc(), areas.as_slice())?;
    assert_eq!(rt; shape.as_ref().map(|shape| shape.frames()), Some(64));
    assert!(rt; has_areas(shape.as_ref(), areas.as_slice()));
    for (frame, within) in [
        (0, false),
        (1, true),
        (8, true),
        (9, false),
        (20, true),
        (21, false),
    ] {
        assert_eq!(rt; is_scratch(shape.as_ref(), frame), within, "at {frame}");
    }
    Ok(())
}

#[test]
fn shapes_have_one_to_four_areas(rt: HostRuntime) -> Result<(), Fail> {
    let alloc = rt.alloc();
    assert!(rt; !is_bad(alloc, 64, [area(1, 8)].as_slice())?);
    assert!(rt; !is_bad(alloc, 16_384, [area(1, 4)].as_slice())?);
    let five = [area(1, 1), area(3, 1), area(5, 1), area(7, 1), area(9, 1)];
    assert!(rt; is_bad(alloc, 64, five.as_slice())?);
    assert!(rt; is_bad(alloc, 64, [].as_slice())?);
    Ok(())
}

#[test]
fn shapes_keep_their_rules(rt: HostRuntime) -> Result<(), Fail> {
    let end = u32::MAX;
    for (what, frames, one, other) in [
        ("31 frames", 31, area(1, 8), area(20, 1)),
        ("16,385 frames", 16_385, area(1, 8), area(20, 1)),
        ("frame 0", 64, area(0, 8), area(20, 1)),
        ("areas in one another", 64, area(1, 8), area(8, 2)),
        ("past the last frame", 64, area(1, 8), area(60, 5)),
        ("an area of no frames", 64, area(1, 8), area(20, 0)),
        ("past the last number", 64, area(1, 8), area(end, end)),
        ("too small an area 0", 16_384, area(1, 3), area(20, 1)),
    ] {
        assert!(rt; are_bad(rt.alloc(), frames, one, other)?, "{what}");
    }
    Ok(())
}

#[test]
fn items_are_a_list(rt: HostRuntime) -> Result<(), Fail> {
    let alloc = rt.alloc();
    let none: Items<Pfn> = Items::new(alloc);
    assert_eq!(rt; none.len(), 0);
    let items = Items::from_vec(Vec::from_slice(alloc, [Pfn(3), Pfn(5)].as_slice())?);
    let copy = items.clone()?;
    assert_eq!(rt; copy.as_slice(), [Pfn(3), Pfn(5)].as_slice());
    assert_eq!(rt; items.into_vec().as_slice(), copy.as_slice());
    assert_eq!(rt; BadShape, BadShape);
    Ok(())
}
