ghost use Rattle.std.specs.Prelude.{◌≡◌};

use ho_base::numbers::{AgentNo, Order, Pfn};
use ho_base::shape::{Area, Shape};
use ho_events::chronicle::Recorded;
use ho_events::slip::{At, Listed, Slip};
use phys_frames::Frames;
use pool_core::Pool;
use std::alloc::Global;
use std::process::Abort;
use std::test::Fail;

fn slip(rt: &impl Abort, alloc: Global) -> Slip
    ensures at { result.at.last ≡ 0 }
    ensures room { result.room ≡ record { event_numbers = 2; event_bytes = 0; reply_numbers = 2; reply_bytes = 0 } }
{
    let at = At {
        kernel: 0,
        agent: AgentNo(0),
        command: 1,
        last: 0,
    };
    let listed = Listed {
        event_numbers: 2,
        event_bytes: 0,
        reply_numbers: 2,
        reply_bytes: 0,
    };
    Slip::make(alloc, at, listed).expect(rt, "memory")
}

fn cold_pool(rt: &impl Abort, alloc: Global) -> Pool {
    let mut areas = Vec::new(alloc);
    let area = Area {
        first: Pfn(2),
        count: 2,
    };
    areas.push(area).expect(rt, "memory");
    let shape = Shape::checked(32, areas).expect(rt, "a shape");
    assert_eq!(rt; shape.frames(), 32);
    let frames = Frames::zeroed(alloc, 32).expect(rt, "memory");
    assert!(rt; frames.all_home());
    match Pool::new(alloc, frames, shape) {
        Ok(pool) => pool,
        Err(frames) => {
            assert!(rt; frames.all_home());
            frames.end();
            panic!(rt; "memory")
        }
    }
}

/// Of 32 frames, frame 0 and the scratch frames 2 and 3 are never taken.
#[test]
#[tactic(auto, using(pool_core::proofs::PoolRuns::zeroed_at_home, pool_core::proofs::PoolRuns::zeroed_of_order))]
fn the_lowest_frames_are_taken_and_come_back(rt: HostRuntime) -> Result<(), Fail> {
    let alloc = rt.alloc();
    let mut pool = cold_pool(&rt, alloc);
    pool.reserve(2).expect(&rt, "memory");
    assert!(rt; pool.entries().is_empty());
    assert_eq!(rt; pool.last_stamp(), 0);
    let mut out = Vec::with_capacity(alloc, 2).expect(&rt, "memory");
    let taken = pool.take(slip(&rt, alloc), Order(0), 2, &mut out);
    assert!(rt; taken.value);
    assert_eq!(rt; out.len(), 2);
    assert_eq!(rt; out[0].first(), Pfn(1));
    assert_eq!(rt; out[1].first(), Pfn(4));
    assert_eq!(rt; out[1].bytes()[4095], 0);
    assert_eq!(rt; pool.last_stamp(), 1);
    assert!(rt; pool.can_give(Order(0), &out));
    let _ = pool.give(slip(&rt, alloc), Order(0), &mut out);
    out.destroy_empty();
    assert_eq!(rt; pool.entries().len(), 2);
    let _home = pool.home();
    let frames = pool.dismantle();
    assert!(rt; frames.all_home());
    frames.end();
    Ok(())
}

#[test]
#[tactic(auto, using(pool_core::proofs::PoolRuns::zeroed_at_home, pool_core::proofs::PoolRuns::zeroed_of_order))]
fn a_pinned_frame_is_not_given_back(rt: HostRuntime) -> Result<(), Fail> {
    let alloc = rt.alloc();
    let mut pool = cold_pool(&rt, alloc);
    pool.reserve(4).expect(&rt, "memory");
    assert_eq!(rt; pool.last_stamp(), 0);
    let mut out = Vec::with_capacity(alloc, 1).expect(&rt, "memory");
    let taken = pool.take(slip(&rt, alloc), Order(0), 1, &mut out);
    assert!(rt; taken.value);
    assert_eq!(rt; out.len(), 1);
    let runs = [Pfn(1)];
    assert_eq!(rt; pool.last_stamp(), 1);
    assert!(rt; pool.can_mark(Order(0), &runs));
    let _ = pool.mark(slip(&rt, alloc), Order(0), &runs);
    assert!(rt; !pool.can_give(Order(0), &out));
    assert_eq!(rt; pool.last_stamp(), 2);
    assert!(rt; pool.can_unmark(Order(0), &runs));
    let _ = pool.unmark(slip(&rt, alloc), Order(0), &runs);
    assert_eq!(rt; pool.last_stamp(), 3);
    assert!(rt; pool.can_give(Order(0), &out));
    let _ = pool.give(slip(&rt, alloc), Order(0), &mut out);
    out.destroy_empty();
    let frames = pool.dismantle();
    assert!(rt; frames.all_home());
    frames.end();
    Ok(())
}
