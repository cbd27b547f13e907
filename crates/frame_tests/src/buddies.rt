//! The allocator at worked values, beside a plain list that says of each frame whether it is free.

ghost use Rattle.std.specs.Prelude.{◌≡◌, ◌+◌, ◌<◌, ◌≤◌, All, IfOk, IsTrue, length, vec_capacity, vec_len, []};
ghost use Rattle.ho_base.specs.declared.limits.TheConstants.{MAX_ORDER};
ghost use Rattle.buddy_pages.specs.FreeFrames.{all_but_first, is_free_run, without_runs};

use buddy_pages::Buddy;
use ho_base::numbers::{Order, Pfn};
use std::alloc::{AllocError, Global};
use std::test::Fail;

/// A new allocator's list.
fn first_free(alloc: Global, frames: u32) -> Result<Vec<bool>, AllocError>
    requires { 0 < frames }
    ensures { IfOk result (λ free. free.items ≡ all_but_first frames) }
{
    let mut free = vec![in alloc; true; frames as usize]?;
    free[0] = false;
    Ok(free)
}

/// Reserves a frame; false where it isn't free.
fn reserve_frame(buddy: &mut Buddy, free: &mut Vec<bool>, frame: u32) -> bool
    requires { free.old.items ≡ buddy.old }
    ensures { free.new.items ≡ buddy.new }
{
    if frame as usize >= free.len() || !free[frame as usize] {
        return false;
    }
    buddy.reserve(Pfn(frame), Order(0));
    free[frame as usize] = false;
    true
}

/// Gives a frame back; false where it is free.
fn give_frame(buddy: &mut Buddy, free: &mut Vec<bool>, frame: u32) -> bool
    requires { free.old.items ≡ buddy.old }
    ensures { free.new.items ≡ buddy.new }
{
    if frame == 0 || frame as usize >= free.len() || free[frame as usize] {
        return false;
    }
    buddy.give(Pfn(frame), Order(0));
    free[frame as usize] = true;
    true
}

/// Takes these frames out of the list.
fn mark_taken(free: &mut Vec<bool>, taken: &[Pfn])
    requires { All (λ p. p.0 < length free.old.items) taken.now }
    ensures { free.new.items ≡ without_runs 0 free.old.items taken.now }
{
    for frame in taken {
        free[frame.0 as usize] = false;
    }
}

/// Takes single frames; false where there are too few.
fn take_frames(buddy: &mut Buddy, free: &mut Vec<bool>, count: u32, out: &mut Vec<Pfn>) -> bool
    requires same { free.old.items ≡ buddy.old }
    requires empty { out.old.items ≡ [] }
    requires room { vec_len out.old + count ≤ vec_capacity out.old }
    ensures { free.new.items ≡ buddy.new }
{
    if !buddy.take(Order(0), count, out) {
        return false;
    }
    mark_taken(free, out.as_slice());
    true
}

/// The numbers of the runs' first frames.
fn numbers(alloc: Global, runs: &[Pfn]) -> Result<Vec<u32>, AllocError> {
    runs.iter().map(|run| run.0).collect(alloc)
}

/// The numbers of the first frames of so many runs of an order, which are taken; none where there are too few.
fn take_runs(
    alloc: Global,
    buddy: &mut Buddy,
    order: Order,
    count: u32,
) -> Result<Option<Vec<u32>>, AllocError>
    requires { order.0 ≤ MAX_ORDER }
{
    let mut runs = Vec::with_capacity(alloc, count as usize)?;
    if !buddy.take(order, count, &mut runs) {
        return Ok(None);
    }
    let first = numbers(alloc, runs.as_slice())?;
    Ok(Some(first))
}

#[test]
fn a_reserved_frame_halves_the_greatest_runs(rt: HostRuntime) -> Result<(), Fail> {
    let alloc = rt.alloc();
    let mut buddy = Buddy::new(alloc, 1024)?;
    let mut free = first_free(alloc, 1024)?;
    assert!(rt; reserve_frame(&mut buddy, &mut free, 512));
    assert!(rt; take_runs(alloc, &mut buddy, Order(9), 1)?.is_none());
    assert!(rt; take_runs(alloc, &mut buddy, Order(8), 3)?.is_none());
    let two = take_runs(alloc, &mut buddy, Order(8), 2)?.ok_or("too few runs")?;
    assert_eq!(rt; two.as_slice(), [256, 768].as_slice());
    Ok(())
}

#[test]
fn a_refused_take_changes_nothing(rt: HostRuntime) -> Result<(), Fail> {
    let alloc = rt.alloc();
    let mut buddy = Buddy::new(alloc, 32)?;
    let mut free = first_free(alloc, 32)?;
    for frame in 1..9 {
        assert!(rt; reserve_frame(&mut buddy, &mut free, frame));
    }
    let before = format!(in alloc; "{buddy:?}")?;
    let mut out = Vec::with_capacity(alloc, 24)?;
    assert!(rt; !buddy.take(Order(0), 24, &mut out));
    assert!(rt; out.is_empty());
    assert_eq!(rt; format!(in alloc; "{buddy:?}")?, before);
    let mut taken = Vec::with_capacity(alloc, 23)?;
    assert!(rt; buddy.take(Order(0), 23, &mut taken));
    let expected: Vec<u32> = (9..32).collect(alloc)?;
    assert_eq!(rt;
        numbers(alloc, taken.as_slice())?.as_slice(),
        expected.as_slice()
    );
    Ok(())
}

#[test]
fn frames_merge_back_in_any_order(rt: HostRuntime) -> Result<(), Fail> {
    let alloc = rt.alloc();
    for (start, step) in [(0u32, 1u32), (63, 63), (5, 27), (32, 33)] {
        let mut buddy = Buddy::new(alloc, 64)?;
        let mut free = first_free(alloc, 64)?;
        // A frame that came back is where the next search begins, also where it is the first one.
        let mut first = Vec::with_capacity(alloc, 1)?;
        assert!(rt; take_frames(&mut buddy, &mut free, 1, &mut first));
        assert!(rt; give_frame(&mut buddy, &mut free, 1));
        let before = format!(in alloc; "{buddy:?}")?;
        let mut taken = Vec::with_capacity(alloc, 63)?;
        assert!(rt; take_frames(&mut buddy, &mut free, 63, &mut taken));
        let mut more = Vec::with_capacity(alloc, 1)?;
        assert!(rt; !buddy.take(Order(0), 1, &mut more));
        let mut frame = start % 64;
        for _ in 0..64 {
            let given = give_frame(&mut buddy, &mut free, frame);
            assert_eq!(rt; given, frame != 0, "at {frame}");
            frame = (frame + step % 64) % 64;
        }
        assert_eq!(rt;
            format!(in alloc; "{buddy:?}")?,
            before,
            "from {start} by {step}"
        );
    }
    Ok(())
}

#[test]
fn the_last_run_of_the_largest_machine(rt: HostRuntime) -> Result<(), Fail> {
    let alloc = rt.alloc();
    let mut buddy = Buddy::new(alloc, 16_384)?;
    buddy.reserve(Pfn(15_872), Order(9));
    let mut out = Vec::with_capacity(alloc, 31)?;
    assert!(rt; !buddy.take(Order(9), 31, &mut out));
    buddy.give(Pfn(15_872), Order(9));
    let mut all = Vec::with_capacity(alloc, 31)?;
    assert!(rt; buddy.take(Order(9), 31, &mut all));
    let expected: Vec<u32> = (1..32).map(|run| run * 512).collect(alloc)?;
    assert_eq!(rt;
        numbers(alloc, all.as_slice())?.as_slice(),
        expected.as_slice()
    );
    Ok(())
}
