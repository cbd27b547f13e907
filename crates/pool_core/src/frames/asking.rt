//! What can be asked about the frames of a pool.

ghost use Rattle.std.specs.Prelude.{◌≡◌, ◌+◌, ◌<◌, ◌≤◌, ◌^◌, [], ℕ, false, length};
ghost use Rattle.std.specs.List.{All, list_any};
ghost use Rattle.std.specs.FinSet as finset;
ghost use Rattle.phys_frames.specs.Memory.{IsHome, first_frames};
ghost use Rattle.ho_base.specs.declared.numbers.Pfn.{Pfn};
ghost use Rattle.ho_events.specs.Lists.{firsts};
ghost use Rattle.ho_events.specs.Pool.{can_give, can_unmark, frames_of, is_owned, is_owned_run};
ghost use Rattle.pool_core.specs.PoolFramesValues.{each_is_kept, each_is_loose, is_kept, is_loose};

use crate::frames::marking::marks_hold;
use crate::frames::pool::PoolFrames;
use crate::frames::runs::{are_all_different, are_folios_different};
use crate::frames::table::run_len;
use ho_base::limits::MAX_ORDER;
use ho_base::numbers::{Order, Pfn};
use phys_frames::{Folio, Frames};

impl PoolFrames {
    /// Whether these folios can be given back: their runs are different, each owned at this order and not pinned. It
    /// costs the number of folios where they rise, and else it compares each two of them.
    pub fn can_give(&self, order: Order, folios: &[Folio]) -> bool
        ensures { result ≡ can_give self.now.state order.0 (firsts (first_frames folios.now)) }
    {
        are_folios_different(folios) && self.are_folios_loose(order, folios)
    }

    /// Whether these runs can be pinned: they are different, each owned at this order and not pinned. It costs the
    /// number of runs where they rise, and else it compares each two of them.
    pub fn can_mark(&self, order: Order, runs: &[Pfn]) -> bool
        ensures { result ≡ can_give self.now.state order.0 (firsts runs.now) }
    {
        are_all_different(runs) && self.are_loose(order, runs)
    }

    /// Whether these runs can be let go: they are different, each owned at this order and pinned. It costs the number
    /// of runs where they rise, and else it compares each two of them.
    pub fn can_unmark(&self, order: Order, runs: &[Pfn]) -> bool
        ensures { result ≡ can_unmark self.now.state order.0 (firsts runs.now) }
    {
        are_all_different(runs) && self.are_kept(order, runs)
    }

    /// Whether the run is owned at this order.
    pub fn owned(&self, first: Pfn, order: Order) -> bool
        ensures { result ≡ is_owned_run self.now.state order.0 first.0 }
    {
        self.table.begins(first, order)
    }

    /// Whether an owned run of any order holds the frame. None holds a frame past the last one.
    pub fn is_owned(&self, p: Pfn) -> bool
        ensures { result ≡ is_owned self.now.state p.0 }
    {
        self.table.holds(p)
    }

    /// Whether some frame of the run is pinned. It goes over the run's frames once.
    pub fn pinned(&self, first: Pfn, order: Order) -> bool
        requires { order.0 ≤ MAX_ORDER }
        ensures { result ≡ list_any (finset.contains self.now.state.pinned) (frames_of order.0 first.0) }
    {
        for i in 0..run_len(order) {
            if self.pins(first.0 as usize + i as usize) {
                return true;
            }
        }
        false
    }

    /// Brings folios of this pool home. What is owned and what is pinned stays as it is, also the runs of these
    /// folios. The list is empty afterwards.
    pub fn lodge(&mut self, folios: &mut Vec<Folio>)
        requires { All (λ f. f.home ≡ self.old.home) folios.old.items }
        ensures value { self.new ≡ self.old }
        ensures folios { folios.new.items ≡ [] }
    {
        self.table.bring_all_home(folios);
    }

    /// The frames: each that no owned run holds is home.
    pub fn into_frames(self) -> Frames
        ensures home { result.home ≡ self.home }
        ensures count { length result.pages ≡ self.state.shape.frames }
        ensures free { (p : Pfn) → p.0 < self.state.shape.frames → is_owned self.state p.0 ≡ false → IsHome result p }
    {
        let PoolFrames {
            table,
            buddy: _,
            marks: _,
        } = self;
        table.into_frames()
    }

    /// Whether each of these runs is owned at an order and not pinned.
    #[tactic(auto, unfolding(crate::specs::PoolFramesValues::each_is_loose))]
    fn are_loose(&self, order: Order, runs: &[Pfn]) -> bool
        ensures { result ≡ each_is_loose self.now.state order.0 runs.now }
    {
        runs.iter().all(|run| self.is_loose(*run, order))
    }

    /// Whether the run of each of these folios is owned at an order and not pinned.
    #[tactic(auto, unfolding(crate::specs::PoolFramesValues::each_is_loose))]
    fn are_folios_loose(&self, order: Order, folios: &[Folio]) -> bool
        ensures { result ≡ each_is_loose self.now.state order.0 (first_frames folios.now) }
    {
        folios
            .iter()
            .map(|folio| folio.first())
            .all(|run| self.is_loose(run, order))
    }

    /// Whether each of these runs is owned at an order and pinned.
    #[tactic(auto, unfolding(crate::specs::PoolFramesValues::each_is_kept))]
    fn are_kept(&self, order: Order, runs: &[Pfn]) -> bool
        ensures { result ≡ each_is_kept self.now.state order.0 runs.now }
    {
        runs.iter().all(|run| self.is_kept(*run, order))
    }

    /// Whether a run is owned at an order and not pinned.
    fn is_loose(&self, run: Pfn, order: Order) -> bool
        ensures { result ≡ is_loose self.now.state order.0 run.0 }
    {
        self.table.begins(run, order) && !self.marks.has(run, order)
    }

    /// Whether a run is owned at an order and pinned.
    fn is_kept(&self, run: Pfn, order: Order) -> bool
        ensures { result ≡ is_kept self.now.state order.0 run.0 }
    {
        self.table.begins(run, order) && self.marks.has(run, order)
    }

    /// Whether a frame is pinned.
    fn pins(&self, p: usize) -> bool
        ensures { result ≡ finset.contains self.now.state.pinned p }
    {
        p < self.table.shape().frames() as usize && marks_hold(&self.marks, Pfn(p as u32))
    }
}
