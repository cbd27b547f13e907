//! The frames of a machine, and a table of the runs of them that are owned.

ghost use Rattle.std.specs.Prelude.{◌≡◌, ◌+◌, ◌*◌, ◌<◌, ◌≤◌, ◌^◌, ◌++◌, ◌∷◌, ◌==◌, [], IfOk, IfErr, ℕ, false, length, map, replicate, slice_index, slice_index_or, None};
ghost use Rattle.std.specs.Option.{IsSome};
ghost use Rattle.std.specs.List.{All};
ghost use Rattle.ho_events.specs.Pool.{run_start};
ghost use Rattle.std.specs.Vec.{vec_len, vec_capacity};
ghost use Rattle.phys_frames.specs.Memory.{AllHome, frames_in, pages_in, run_at};
ghost use Rattle.ho_base.specs.declared.limits.TheConstants.{PAGE_BYTES};
ghost use Rattle.pool_core.specs.PoolTags.{CanLend, EachCanLend, is_held, with_tag, with_tags};
ghost use Rattle.pool_core.specs.PoolLending.{zeroed_run};

use ho_base::limits::MAX_ORDER;
use ho_base::numbers::{Order, Pfn};
use ho_base::shape::Shape;
use phys_frames::laws::{law_of_giving, law_of_taking};
use phys_frames::{Folio, Frames};
use std::alloc::Global;
use std::marker::Model;

/// The frames of a machine, with a number for each: 0, or 1 + o where an owned run of order o begins. A frame that
/// no owned run holds is home.
pub(crate) struct Table {
    pub(crate) frames: Frames,
    pub(crate) shape: Shape,
    pub(crate) tags: Vec<u8>,
}

impl Model for Table {
    ghost use Rattle.pool_core.specs.PoolTags.{TableValue, KeepsHome};

    ghost Value = { TableValue };

    ghost view = { λ t. record { shape = t.shape; home = t.frames.home; tags = t.tags.items } };

    ghost invariant = { λ t. KeepsHome t.shape t.frames t.tags.items };
}

impl Table {
    /// No run is owned. The frames come back exactly where memory is wanted.
    pub(crate) fn new(alloc: Global, frames: Frames, shape: Shape) -> Result<Table, Frames>
        requires home { AllHome frames }
        requires count { shape.frames ≡ length frames.pages }
        ensures value { IfOk result (λ t. t ≡ record { shape = shape; home = frames.home; tags = replicate shape.frames 0 }) }
        ensures kept { IfErr result (λ f. f ≡ frames) }
    {
        let n = frames.count() as usize;
        match vec![in alloc; 0u8; n] {
            Ok(tags) => Ok(Table {
                frames,
                shape,
                tags,
            }),
            Err(_) => Err(frames),
        }
    }

    /// The frames: each that no owned run holds is home.
    pub(crate) fn into_frames(self) -> Frames
        ensures home { result.home ≡ self.home }
        ensures count { length result.pages ≡ self.shape.frames }
        ensures free { (p : ℕ) → p < self.shape.frames → is_held self.tags p ≡ false → IsSome (slice_index_or result.pages p None) }
    {
        let Table {
            frames,
            shape: _,
            tags: _,
        } = self;
        frames
    }

    /// The machine's shape.
    pub(crate) fn shape(&self) -> &Shape
        ensures { result.now ≡ self.now.shape }
    {
        &self.shape
    }

    /// Whether an owned run of this order begins at a frame.
    pub(crate) fn begins(&self, p: Pfn, order: Order) -> bool
        ensures { result ≡ (slice_index self.now.tags p.0 == order.0 + 1) }
    {
        match self.tags.get(p.0 as usize) {
            Some(tag) => 0 < *tag && *tag - 1 == order.0,
            None => false,
        }
    }

    /// Whether an owned run of some order holds a frame.
    #[tactic(auto, using(crate::proofs::PoolAsking::none_holds, crate::proofs::PoolAsking::holds_not))]
    pub(crate) fn holds(&self, p: Pfn) -> bool
        ensures { result ≡ is_held self.now.tags p.0 }
    {
        for o in 0..MAX_ORDER + 1 {
            if self.begins(start_of(p, Order(o)), Order(o)) {
                return true;
            }
        }
        false
    }

    /// Brings folios home. The table stays as it is, and the list is empty afterwards.
    pub(crate) fn bring_all_home(&mut self, folios: &mut Vec<Folio>)
        requires { All (λ f. f.home ≡ self.old.home) folios.old.items }
        ensures value { self.new ≡ self.old }
        ensures empty { folios.new.items ≡ [] }
    {
        while let Some(folio) = folios.pop() {
            self.bring_home(folio);
        }
    }

    /// Brings a folio home. The table stays as it is.
    fn bring_home(&mut self, folio: Folio)
        requires { folio.home ≡ self.old.home }
        ensures { self.new ≡ self.old }
    {
        law_of_giving();
        self.frames.give(folio);
    }

    /// Takes a run that no owned run touches, with its bytes: it is owned from then on.
    fn take_out(&mut self, p: Pfn, order: Order) -> Folio
        requires order { order.0 ≤ MAX_ORDER }
        requires free { CanLend self.old order.0 p.0 }
        ensures value { self.new ≡ with_tag self.old p.0 (order.0 + 1) }
        ensures first { result.first ≡ p }
        ensures order { result.order ≡ order }
        ensures home { result.home ≡ self.old.home }
        ensures len { length result.bytes ≡ frames_in order * PAGE_BYTES }
    {
        law_of_taking();
        let folio = self.frames.take(p, order);
        self.tags[p.0 as usize] = order.0 + 1;
        folio
    }

    /// Takes a run that no owned run touches, with zeros in place of its bytes.
    #[tactic(auto, using(crate::proofs::PoolLends::zeroed_is))]
    fn lend(&mut self, p: Pfn, order: Order) -> Folio
        requires order { order.0 ≤ MAX_ORDER }
        requires free { CanLend self.old order.0 p.0 }
        ensures value { self.new ≡ with_tag self.old p.0 (order.0 + 1) }
        ensures folio { result ≡ zeroed_run self.old.home order p }
    {
        let mut folio = self.take_out(p, order);
        folio.zero();
        folio
    }

    /// Takes runs, each of which can be lent when its turn comes. The list has room for their folios.
    pub(crate) fn lend_all(&mut self, order: Order, runs: &[Pfn], out: &mut Vec<Folio>)
        requires order { order.0 ≤ MAX_ORDER }
        requires free { EachCanLend self.old order.0 runs.now }
        requires spare { vec_len out.old + length runs.now ≤ vec_capacity out.old }
        ensures value { self.new ≡ with_tags (order.0 + 1) runs.now self.old }
        ensures folios { out.new.items ≡ out.old.items ++ map (zeroed_run self.old.home order) runs.now }
    {
        let mut left = runs;
        while let Some((run, rest)) = left.split_first() {
            let folio = self.lend(*run, order);
            put(out, folio);
            left = rest;
        }
    }

    /// Brings a folio of an owned run home: the run is owned no more.
    pub(crate) fn take_back(&mut self, folio: Folio)
        requires home { folio.home ≡ self.old.home }
        requires owned { slice_index self.old.tags folio.first.0 ≡ folio.order.0 + 1 }
        ensures { self.new ≡ with_tag self.old folio.first.0 0 }
    {
        law_of_giving();
        let first = folio.first();
        self.frames.give(folio);
        self.tags[first.0 as usize] = 0;
    }
}

/// How many frames a run of an order has.
pub(crate) fn run_len(order: Order) -> u32
    requires { order.0 ≤ MAX_ORDER }
    ensures value { result ≡ 2 ^ order.0 }
    ensures few { result ≤ 512 }
{
    1u32 << order.0
}

/// The frame at which the run of an order begins that holds a frame.
pub(crate) fn start_of(p: Pfn, order: Order) -> Pfn
    requires { order.0 ≤ MAX_ORDER }
    ensures { result.0 ≡ run_start order.0 p.0 }
{
    Pfn(p.0 - p.0 % run_len(order))
}

/// Puts an item at the end of a list that has room for it.
pub(crate) fn put<T>(list: &mut Vec<T>, item: T)
    requires { vec_len list.old < vec_capacity list.old }
    ensures items { list.new.items ≡ list.old.items ++ item ∷ [] }
    ensures len { vec_len list.new ≡ vec_len list.old + 1 }
    ensures capacity { vec_capacity list.old ≤ vec_capacity list.new }
{
    list.push(item).unwrap();
}
