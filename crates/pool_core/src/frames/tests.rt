ghost use Rattle.std.specs.Prelude.{◌≡◌, ◌≤◌};
ghost use Rattle.ho_base.specs.declared.limits.TheConstants.{MAX_ORDER};

use crate::PoolFrames;
use ho_base::numbers::{Order, Pfn};
use ho_base::shape::{Area, Shape};
use phys_frames::Frames;
use std::alloc::Global;
use std::process::Abort;
use std::test::Fail;

/// The frames of a cold pool of 64 frames, of which 1 to 8 are scratch.
fn cold(rt: &impl Abort, alloc: Global) -> PoolFrames {
    let mut areas = Vec::new(alloc);
    let area = Area {
        first: Pfn(1),
        count: 8,
    };
    areas.push(area).expect(rt, "memory");
    let shape = Shape::checked(64, areas).expect(rt, "a shape");
    assert_eq!(rt; shape.frames(), 64);
    let frames = Frames::zeroed(alloc, 64).expect(rt, "memory");
    assert!(rt; frames.all_home());
    match PoolFrames::new(alloc, frames, shape) {
        Ok(pool) => pool,
        Err(frames) => {
            assert!(rt; frames.all_home());
            frames.end();
            panic!(rt; "memory")
        }
    }
}

/// Pins owned runs and lets them go.
fn pin_and_let_go(rt: &impl Abort, pool: &mut PoolFrames, order: Order, runs: &[Pfn])
    ensures { pool.new.home ≡ pool.old.home }
{
    assert!(rt; pool.can_mark(order, runs));
    pool.mark(order, runs);
    assert!(rt; !pool.can_mark(order, runs));
    assert!(rt; pool.can_unmark(order, runs));
    pool.unmark(order, runs);
}

/// Takes two runs of an order, which begin at these frames, and gives them back.
#[tactic(auto, using(crate::proofs::PoolLends::zeroed_at_home, crate::proofs::PoolLends::zeroed_of_order))]
fn take_and_give(
    rt: &impl Abort,
    alloc: Global,
    pool: &mut PoolFrames,
    order: Order,
    frames: [Pfn; 2],
)
    requires { order.0 ≤ MAX_ORDER }
{
    let mut runs = Vec::with_capacity(alloc, 2).expect(rt, "memory");
    let mut out = Vec::with_capacity(alloc, 2).expect(rt, "memory");
    assert!(rt; pool.take(order, 2, &mut runs, &mut out));
    assert!(rt; runs.as_slice() == frames.as_slice());
    pin_and_let_go(rt, pool, order, runs.as_slice());
    assert!(rt; pool.can_give(order, out.as_slice()));
    pool.give(order, &mut out);
    out.destroy_empty();
}

/// Whether a run is owned, and whether a frame is.
fn are_owned(pool: &PoolFrames, first: Pfn, order: Order, other: Pfn) -> bool {
    pool.owned(first, order) || pool.is_owned(other)
}

/// Whether a run is pinned and marked.
fn is_marked(pool: &PoolFrames, first: Pfn) -> bool {
    pool.pinned(first, Order(0)) || pool.tracker().has(first, Order(0))
}

#[test]
fn runs_go_around_twice(rt: HostRuntime) -> Result<(), Fail> {
    let alloc = rt.alloc();
    let mut pool = cold(&rt, alloc);
    for _ in 0..2 {
        take_and_give(&rt, alloc, &mut pool, Order(0), [Pfn(9), Pfn(10)]);
        take_and_give(&rt, alloc, &mut pool, Order(3), [Pfn(16), Pfn(24)]);
    }
    assert!(rt; !are_owned(&pool, Pfn(16), Order(3), Pfn(9)));
    assert!(rt; !is_marked(&pool, Pfn(16)));
    assert_eq!(rt; pool.shape().frames(), 64);
    let _home = pool.home();
    let frames = pool.into_frames();
    assert!(rt; frames.all_home());
    frames.end();
    Ok(())
}
