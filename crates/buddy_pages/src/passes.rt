//! Passes over a whole map: to fill a new one, and to take many runs.

ghost use Rattle.std.specs.Prelude.{◌≡◌, ◌+◌, ◌%◌, ◌^◌, ◌<◌, ◌≤◌, ◌++◌, All, AllPairs, IfOk, IsTrue, length, vec_capacity, vec_len};
ghost use Rattle.buddy_pages.specs.Blocks.{AreBlocks, free_frames};
ghost use Rattle.buddy_pages.specs.FreeFrames.{AreApart, NoRunBelow, all_but_first, appended, free_runs, is_free_run, without_runs};

use crate::blocks::{give_run, next_run, run_len, take_run};
use crate::page_map::PageMap;
use ho_base::limits::MAX_ORDER;
use ho_base::numbers::Pfn;
use std::alloc::{AllocError, Global};

/// A map of so many frames, all free but frame 0.
pub(crate) fn all_but_first_free(alloc: Global, frames: u32) -> Result<PageMap, AllocError>
    ensures blocks { IfOk result (λ map. AreBlocks map) }
    ensures set { IfOk result (λ map. free_frames map ≡ all_but_first frames) }
{
    let mut map = PageMap::new(alloc, frames)?;
    for frame in 1..frames {
        give_run(&mut map, frame as usize, 0);
    }
    Ok(map)
}

/// Takes the first `count` wholly free runs of an order in one pass over the map. None may begin below
/// `from`, and after it none begins below the frame that it returns. It costs the frames between the two,
/// divided by a run's frames, and the orders for each run.
pub(crate) fn take_runs(
    map: &mut PageMap,
    from: usize,
    order: u8,
    count: u32,
    out: &mut Vec<Pfn>,
) -> usize
    requires blocks { AreBlocks map.old }
    requires order { order ≤ MAX_ORDER }
    requires aligned { from % 2 ^ order ≡ 0 }
    requires none { NoRunBelow (free_frames map.old) order from }
    requires enough { count ≤ free_runs (free_frames map.old) order }
    requires room { vec_len out.old + count ≤ vec_capacity out.old }
    ensures blocks { AreBlocks map.new }
    ensures none { NoRunBelow (free_frames map.new) order result }
    ensures kept { out.new.items ≡ out.old.items ++ appended out.old.items out.new.items }
    ensures count { length (appended out.old.items out.new.items) ≡ count }
    ensures free { All (λ p. IsTrue (is_free_run (free_frames map.old) order p.0)) (appended out.old.items out.new.items) }
    ensures later { All (λ p. 0 < p.0) (appended out.old.items out.new.items) }
    ensures apart { AllPairs (AreApart order) (appended out.old.items out.new.items) }
    ensures set { free_frames map.new ≡ without_runs order (free_frames map.old) (appended out.old.items out.new.items) }
    ensures capacity { vec_capacity out.old ≤ vec_capacity out.new }
{
    let mut at = from;
    for _ in 0..count {
        let first = next_run(map, at, order);
        take_run(map, first, order);
        out.push(Pfn(first as u32)).unwrap();
        at = first + run_len(order);
    }
    at
}
