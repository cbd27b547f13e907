//! The buddy allocator of a machine's frames.

ghost use Rattle.std.specs.Prelude.{◌≡◌, ◌+◌, ◌%◌, ◌^◌, ◌<◌, ◌≤◌, ◌↔◌, ◌++◌, All, AllPairs, IfOk, IsTrue, length, vec_capacity, vec_len, true, false};
ghost use Rattle.std.specs.Bool.{OnFalse, OnTrue};
ghost use Rattle.buddy_pages.specs.FreeFrames.{AreApart, all_but_first, appended, free_runs, is_free_run, none_free, with_frames, without_runs};

use crate::blocks::{count_runs, give_run, start_of, take_run};
use crate::page_map::PageMap;
use crate::passes::{all_but_first_free, take_runs};
use ho_base::limits::MAX_ORDER;
use ho_base::numbers::{NoMemory, Order, Pfn};
use std::alloc::Global;
use std::marker::Model;

/// The free frames of a machine, handed out in runs of `2^order` frames.
///
/// Contracts see the set of free frames: for each frame whether it is free. Inside, each free frame lies
/// in just one free block of `2^o` frames, which begins at a multiple of `2^o`, and two blocks that make
/// a greater one are merged at once. So a run that is wholly free is always found.
#[derive(Debug, Drop)]
pub struct Buddy {
    map: PageMap,
    /// No frame below this one is free.
    low: usize,
}

impl Model for Buddy {
    ghost use Rattle.std.specs.Prelude.{List, Bool};

    ghost Value = { List Bool };

    ghost use Rattle.buddy_pages.specs.Blocks.{AreBlocks, free_frames};
    ghost use Rattle.buddy_pages.specs.FreeFrames.{NoRunBelow};

    ghost view = { λ b. free_frames b.map };

    ghost invariant = { λ b. AreBlocks b.map × NoRunBelow (free_frames b.map) 0 b.low };
}

impl Buddy {
    /// So many frames, all free but frame 0. It takes a byte of memory per frame.
    pub fn new(alloc: Global, frames: u32) -> Result<Buddy, NoMemory>
        ensures { IfOk result (λ buddy. buddy ≡ all_but_first frames) }
    {
        match all_but_first_free(alloc, frames) {
            Ok(map) => Ok(Buddy { map, low: 0 }),
            Err(_) => Err(NoMemory),
        }
    }

    /// Takes this run out of the free frames. It costs the orders, not the frames.
    pub fn reserve(&mut self, first: Pfn, order: Order)
        requires order { order.0 ≤ MAX_ORDER }
        requires run { IsTrue (is_free_run self.old order.0 first.0) }
        ensures { self.new ≡ with_frames self.old first.0 (2 ^ order.0) false }
    {
        take_run(&mut self.map, first.0 as usize, order.0);
    }

    /// Takes `count` runs out of the free frames and appends the number of each one's first frame to `out`.
    /// False, with nothing changed, exactly where fewer runs of this order are wholly free. It costs the
    /// frames from the least that may be free up to the last that it takes, divided by a run's frames, and
    /// the orders for each run; a refusal costs the orders alone. Takes of single frames move that least
    /// one on: taken one by one, they cost one pass over the frames in all, if none is given back.
    pub fn take(&mut self, order: Order, count: u32, out: &mut Vec<Pfn>) -> bool
        requires order { order.0 ≤ MAX_ORDER }
        requires room { vec_len out.old + count ≤ vec_capacity out.old }
        ensures answer { IsTrue result ↔ (count ≤ free_runs self.old order.0) }

        // What is appended, on true.
        ensures kept { out.new.items ≡ out.old.items ++ appended out.old.items out.new.items }
        ensures count { OnTrue result (length (appended out.old.items out.new.items) ≡ count) }
        ensures free { OnTrue result (All (λ p. IsTrue (is_free_run self.old order.0 p.0)) (appended out.old.items out.new.items)) }
        ensures later { OnTrue result (All (λ p. 0 < p.0) (appended out.old.items out.new.items)) }
        ensures apart { OnTrue result (AllPairs (AreApart order.0) (appended out.old.items out.new.items)) }
        ensures set { OnTrue result (self.new ≡ without_runs order.0 self.old (appended out.old.items out.new.items)) }
        ensures capacity { vec_capacity out.old ≤ vec_capacity out.new }

        ensures refused_set { OnFalse result (self.new ≡ self.old) }
        ensures refused_out { OnFalse result (out.new ≡ out.old) }
    {
        if count_runs(&self.map, order.0) < count as usize {
            return false;
        }
        let from = start_of(self.low, order.0);
        let end = take_runs(&mut self.map, from, order.0, count, out);
        if order.0 == 0 {
            self.low = end;
        }
        true
    }

    /// Gives this run back and merges it with its buddies at once. It costs the orders, not the frames.
    pub fn give(&mut self, first: Pfn, order: Order)
        requires order { order.0 ≤ MAX_ORDER }
        requires aligned { first.0 % 2 ^ order.0 ≡ 0 }
        requires within { first.0 + 2 ^ order.0 ≤ length self.old }
        requires later { 0 < first.0 }
        requires taken { IsTrue (none_free self.old first.0 (2 ^ order.0)) }
        ensures { self.new ≡ with_frames self.old first.0 (2 ^ order.0) true }
    {
        give_run(&mut self.map, first.0 as usize, order.0);
        self.low = self.low.min(first.0 as usize);
    }
}
