//! The early allocator, a program that is loaded, and what is handed on, at worked values.

ghost use Rattle.std.specs.Prelude.{◌≡◌, IfOk};
ghost use Rattle.phys_frames.specs.Memory.{AllHome};

use ho_base::numbers::{Blob, Pfn};
use ho_base::shape::{Area, Shape};
use phys_frames::Frames;
use scratch_area::{EarlyAlloc, Handoff, load_blob, scratch_need};
use std::alloc::Global;
use std::test::Fail;

/// The shape of 64 frames with the scratch areas 1 to 8 and 20.
fn two_areas(alloc: Global) -> Result<Shape, Fail>
    ensures { IfOk result (λ shape. shape.frames ≡ 64) }
{
    let areas = [
        Area {
            first: Pfn(1),
            count: 8,
        },
        Area {
            first: Pfn(20),
            count: 1,
        },
    ];
    let areas = Vec::from_slice(alloc, areas.as_slice())?;
    match Shape::checked(64, areas) {
        Ok(shape) => Ok(shape),
        Err(_) => Err("refused".into()),
    }
}

/// A byte of a frame; none where there is no such frame or byte.
fn byte_at(frames: &Frames, frame: u32, at: usize) -> Option<u8>
    requires { AllHome frames.now }
{
    if frame < frames.count() {
        frames.page(Pfn(frame)).get(at).copied()
    } else {
        None
    }
}

/// What is handed from one kernel to the next.
fn hand_on(handoff: Handoff) -> Handoff
    ensures { result ≡ handoff }
{
    handoff
}

#[test]
fn frames_come_in_rising_order(rt: HostRuntime) -> Result<(), Fail> {
    let mut early = EarlyAlloc::new(&two_areas(rt.alloc())?);
    for (frames, first) in [
        (3, Some(Pfn(1))),
        (0, Some(Pfn(4))),
        (6, None),
        (4, Some(Pfn(4))),
        (1, Some(Pfn(8))),
        (1, None),
        (u32::MAX, None),
        (0, Some(Pfn(9))),
    ] {
        assert_eq!(rt; early.take(frames), first, "at {frames}");
    }
    Ok(())
}

#[test]
fn a_program_is_loaded(rt: HostRuntime) -> Result<(), Fail> {
    let shape = two_areas(rt.alloc())?;
    let blob = Blob {
        version: 0x0102_0304_0506_0708,
        frames: 3,
    };
    assert_eq!(rt; scratch_need(&shape, blob), 3);
    let mut frames = Frames::zeroed(rt.alloc(), 64).expect(&rt, "memory");
    load_blob(&mut frames, Pfn(1), blob);
    assert!(rt; frames.all_home());
    for (frame, at, byte) in [
        (0, 0, 0),
        (1, 0, 8),
        (1, 7, 1),
        (1, 8, 0),
        (3, 0, 8),
        (3, 8, 2),
        (3, 9, 0),
        (3, 4095, 0),
        (4, 0, 0),
    ] {
        assert_eq!(rt; byte_at(&frames, frame, at), Some(byte), "at {frame}, {at}");
    }
    let handoff = Handoff {
        frames,
        shape,
        entry: Pfn(9),
    };
    let Handoff {
        frames,
        shape,
        entry,
    } = hand_on(handoff);
    assert_eq!(rt; shape.frames(), frames.count());
    assert_eq!(rt; entry, Pfn(9));
    frames.end();
    Ok(())
}
