//! The frames of a pool, with the allocator of the free ones and the marks of the pinned ones.

ghost use Rattle.std.specs.Prelude.{◌≡◌, ◌+◌, ◌≤◌, ◌++◌, ◌∷◌, [], IfOk, IfErr, IsTrue, length, map, nat_le, true};
ghost use Rattle.std.specs.Bool.{OnFalse, OnTrue};
ghost use Rattle.std.specs.FinSet as finset;
ghost use Rattle.std.specs.List.{All};
ghost use Rattle.std.specs.Vec.{vec_len, vec_capacity};
ghost use Rattle.phys_frames.specs.Memory.{AllHome, first_frames};
ghost use Rattle.ho_events.specs.Lists.{firsts};
ghost use Rattle.ho_events.specs.Pool.{can_give, can_take, can_unmark, cold_pool, free_runs, is_owned_run, is_unpinned_run};
ghost use Rattle.pool_core.specs.PoolFramesValues.{with_disowned, with_owned, with_pinned, with_unpinned};
ghost use Rattle.pool_core.specs.PoolLending.{zeroed_run};

use crate::frames::marking::{mark_all, unmark_all};
use crate::frames::table::Table;
use crate::frames::usable::usable_frames;
use buddy_pages::Buddy;
use folio_bitmaps::Tracker;
use ho_base::limits::MAX_ORDER;
use ho_base::numbers::{Order, Pfn};
use ho_base::shape::Shape;
use phys_frames::{Folio, Frames, Home};
use std::alloc::Global;
use std::marker::Model;

/// The frames of a machine with the runs of them that are owned, of the orders 0 to 9, and the marks of the owned
/// runs that are pinned. Contracts see the state of the pool (its shape, the owned runs and the pinned frames), the
/// home of the frames and the marked runs.
///
/// A free run of an order is found at the cost of the frames before it, divided by its length.
pub struct PoolFrames {
    pub(crate) table: Table,
    pub(crate) buddy: Buddy,
    pub(crate) marks: Tracker,
}

impl Model for PoolFrames {
    ghost use Rattle.std.specs.Coded.{codes};
    ghost use Rattle.std.specs.FinMap as finmap;
    ghost use Rattle.std.specs.FinSet as set;
    ghost use Rattle.folio_bitmaps.specs.Runs.{run_code};
    ghost use Rattle.pool_core.specs.PoolFramesValues.{PoolFramesValue, KeepsPoolFrames, state_of};

    ghost Value = { PoolFramesValue };

    ghost coded = { Prim.hlevel (codes, finmap.code, run_code) };

    ghost view = { λ p. record { state = state_of p.table p.marks.runs; home = p.table.home; marks = p.marks.runs } };

    ghost invariant = { λ p. KeepsPoolFrames p.table p.buddy p.marks };
}

impl PoolFrames {
    /// The frames of a pool that begins cold: no run is owned, and none is pinned. It takes memory for two numbers
    /// and the marks of each frame; where that can't be had the frames come back as they were.
    #[tactic(auto, using(crate::proofs::PoolCold::cold_state))]
    pub fn new(alloc: Global, frames: Frames, shape: Shape) -> Result<PoolFrames, Frames>
        requires home { AllHome frames }
        requires count { shape.frames ≡ length frames.pages }
        ensures value { IfOk result (λ p. p ≡ record { state = cold_pool shape; home = frames.home; marks = finset.empty }) }
        ensures kept { IfErr result (λ f. f ≡ frames) }
    {
        let Ok(buddy) = usable_frames(alloc, &shape) else {
            return Err(frames);
        };
        let Ok(marks) = Tracker::new(alloc, shape.frames()) else {
            return Err(frames);
        };
        match Table::new(alloc, frames, shape) {
            Ok(table) => Ok(PoolFrames {
                table,
                buddy,
                marks,
            }),
            Err(frames) => Err(frames),
        }
    }

    /// The home of the frames, and of every folio that is taken from them.
    pub fn home(&self) -> Home
        ensures { result ≡ self.now.home }
    {
        self.table.frames.home()
    }

    /// The machine's shape, which stays as it is.
    pub fn shape(&self) -> &Shape
        ensures { result.now ≡ self.now.state.shape }
    {
        &self.table.shape
    }

    /// The marks of the pinned runs.
    pub fn tracker(&self) -> &Tracker
        ensures { result.now ≡ record { frames = self.now.state.shape.frames; runs = self.now.marks } }
    {
        &self.marks
    }

    /// Takes as many runs of an order, and puts their folios, of zeros, at the end of the list. The answer is false,
    /// with nothing changed, exactly where fewer runs of the order are wholly free. It costs one pass over the
    /// frames at most, divided by a run's frames, and the bytes of the runs; a refusal costs the orders alone.
    pub fn take(
        &mut self,
        order: Order,
        count: u32,
        runs: &mut Vec<Pfn>,
        out: &mut Vec<Folio>,
    ) -> bool
        requires order { order.0 ≤ MAX_ORDER }
        requires empty { runs.old.items ≡ [] }
        requires room { count ≤ vec_capacity runs.old }
        requires spare { vec_len out.old + count ≤ vec_capacity out.old }
        ensures exact { result ≡ nat_le count (free_runs self.old.state order.0) }
        ensures legal { OnTrue result (IsTrue (can_take self.old.state order.0 count (firsts runs.new.items))) }
        ensures value { OnTrue result (self.new ≡ with_owned order.0 runs.new.items self.old) }
        ensures folios { OnTrue result (out.new.items ≡ out.old.items ++ map (zeroed_run self.old.home order) runs.new.items) }
        ensures refused { OnFalse result (self.new ≡ self.old) }
        ensures refused_runs { OnFalse result (runs.new ≡ runs.old) }
        ensures refused_folios { OnFalse result (out.new ≡ out.old) }
    {
        if !self.buddy.take(order, count, runs) {
            return false;
        }
        self.table.lend_all(order, runs.as_slice(), out);
        true
    }

    /// Brings the folios of owned runs of one order home, none of which is pinned: they are owned no more. The list
    /// is empty afterwards. It costs the orders for each run.
    pub fn give(&mut self, order: Order, folios: &mut Vec<Folio>)
        requires of_home { All (λ f. f.home ≡ self.old.home) folios.old.items }
        requires of_order { All (λ f. f.order ≡ order) folios.old.items }
        requires legal { IsTrue (can_give self.old.state order.0 (firsts (first_frames folios.old.items))) }
        ensures value { self.new ≡ with_disowned (first_frames folios.old.items) self.old }
        ensures folios { folios.new.items ≡ [] }
    {
        let _order = order;
        while let Some(folio) = folios.pop() {
            self.give_one(folio);
        }
    }

    /// Brings the folio of an owned run home that isn't pinned.
    fn give_one(&mut self, folio: Folio)
        requires home { folio.home ≡ self.old.home }
        requires owned { is_owned_run self.old.state folio.order.0 folio.first.0 ≡ true }
        requires unpinned { is_unpinned_run self.old.state folio.order.0 folio.first.0 ≡ true }
        ensures { self.new ≡ with_disowned (folio.first ∷ []) self.old }
    {
        let first = folio.first();
        let order = folio.order();
        self.table.take_back(folio);
        self.buddy.give(first, order);
    }

    /// Pins owned runs of one order. It costs the same for each run, whatever its order.
    pub fn mark(&mut self, order: Order, runs: &[Pfn])
        requires legal { IsTrue (can_give self.old.state order.0 (firsts runs.now)) }
        ensures { self.new ≡ with_pinned order.0 runs.now self.old }
    {
        mark_all(&mut self.marks, order, runs);
    }

    /// Lets pinned runs of one order go. It costs the same for each run, whatever its order.
    pub fn unmark(&mut self, order: Order, runs: &[Pfn])
        requires legal { IsTrue (can_unmark self.old.state order.0 (firsts runs.now)) }
        ensures { self.new ≡ with_unpinned order.0 runs.now self.old }
    {
        unmark_all(&mut self.marks, order, runs);
    }
}
