//! The pool: which frames are owned and which are pinned, and the history of that.

ghost use Rattle.std.specs.Prelude.{◌≡◌, ◌+◌, ◌<◌, ◌≤◌, ◌^◌, ◌++◌, ◌∷◌, [], IfOk, IfErr, OnOk, IsTrue, false, is_some, length, map, nat_le};
ghost use Rattle.std.specs.Bool.{MatchBool};
ghost use Rattle.std.specs.List.{All};
ghost use Rattle.std.specs.Vec.{vec_len, vec_capacity};
ghost use Rattle.ho_base.specs.Objects.{pool_no};
ghost use Rattle.ho_base.specs.declared.limits.TheConstants.{MAX_ORDER};
ghost use Rattle.ho_base.specs.declared.numbers.Pfn.{Pfn};
ghost use Rattle.phys_frames.specs.Memory.{AllHome, IsHome, first_frames};
ghost use Rattle.ho_events.specs.Lists.{firsts};
ghost use Rattle.ho_events.specs.History.{last_stamp, pool_from};
ghost use Rattle.ho_events.specs.Pool.{can_give, can_unmark, cold_pool, free_runs, is_owned};
ghost use Rattle.ho_events.specs.Places.{object_at};
ghost use Rattle.ho_events.specs.Slips.{entry_at, reply_runs};
ghost use Rattle.ho_events.specs.declared.event.Event.TheVariants.{PoolTake, PoolGive, PoolMark, PoolUnmark};
ghost use Rattle.ho_events.specs.declared.reply.Reply.TheVariants.{Ok, Got, NoFrames};
ghost use Rattle.pool_core.specs.PoolLending.{zeroed_run};
ghost use Rattle.pool_core.specs.PoolValues.{PoolIs};

use crate::frames::PoolFrames;
use ho_base::Items;
use ho_base::numbers::{NoMemory, ObjectNo, Order, Pfn};
use ho_base::shape::Shape;
use ho_events::append::append_turn;
use ho_events::chronicle::{Recorded, last_stamp_of};
use ho_events::entry::Entry;
use ho_events::event::Event;
use ho_events::reply::Reply;
use ho_events::slip::{Slip, Turned};
use phys_frames::{Folio, Frames, Home};
use std::alloc::Global;
use std::marker::Model;
use std::snapshot::Snapshot;

/// The frames of a machine, as they are owned and pinned in runs of the orders 0 to 9, with the history of all turns
/// on them. Contracts see the machine's shape, the frames' home, the state before the first of these turns, that
/// history, and how much more of it fits; which frames are owned and pinned is where the history leads from there.
pub struct Pool {
    pub(crate) frames: PoolFrames,
    pub(crate) start: Snapshot<PoolFrames>,
    pub(crate) history: Vec<Entry>,
}

impl Model for Pool {
    ghost use Rattle.std.specs.Coded.{codes};
    ghost use Rattle.std.specs.FinMap as finmap;
    ghost use Rattle.std.specs.Prelude.{◌-◌};
    ghost use Rattle.std.specs.Vec.{vec_len, vec_capacity};
    ghost use Rattle.pool_core.specs.PoolValues.{PoolValue, KeepsPool};

    ghost Value = { PoolValue };

    ghost coded = { Prim.hlevel (codes, finmap.code) };

    ghost view = { λ p. record { shape = p.frames.state.shape; home = p.frames.home; start = p.start.value.state; history = p.history.items; room = vec_capacity p.history - vec_len p.history } };

    ghost invariant = { λ p. KeepsPool p.frames.state p.start.value.state p.history.items };
}

impl Pool {
    /// A pool with no history that begins cold: no frame is owned, and none is pinned. It takes memory for two numbers
    /// and the marks of each frame; where that can't be had the frames come back as they were.
    pub fn new(alloc: Global, frames: Frames, shape: Shape) -> Result<Pool, Frames>
        requires home { AllHome frames }
        requires count { shape.frames ≡ length frames.pages }
        ensures start { IfOk result (λ p. p.start ≡ cold_pool shape) }
        ensures history { IfOk result (λ p. p.history ≡ []) }
        ensures shape { IfOk result (λ p. p.shape ≡ shape) }
        ensures home { IfOk result (λ p. p.home ≡ frames.home) }
        ensures kept { IfErr result (λ f. f ≡ frames) }
    {
        match PoolFrames::new(alloc, frames, shape) {
            Ok(frames) => Ok(Pool::of(alloc, frames)),
            Err(frames) => Err(frames),
        }
    }

    /// A pool with no history that begins with frames as they are.
    #[tactic(auto, using(crate::proofs::PoolRuns::begins))]
    pub(crate) fn of(alloc: Global, frames: PoolFrames) -> Pool
        ensures { result ≡ record { shape = frames.state.shape; home = frames.home; start = frames.state; history = []; room = 0 } }
    {
        Pool {
            start: Snapshot::of(&frames),
            frames,
            history: Vec::new(alloc),
        }
    }

    /// The frames: each that no owned run holds is home. It takes no memory.
    pub fn dismantle(self) -> Frames
        ensures home { result.home ≡ self.home }
        ensures count { length result.pages ≡ self.shape.frames }
        ensures free { PoolIs self (λ s. (p : Pfn) → p.0 < self.shape.frames → is_owned s p.0 ≡ false → IsHome result p) }
    {
        let Pool {
            frames,
            start: _,
            history: _,
        } = self;
        frames.into_frames()
    }

    /// Takes memory for as many more entries. Whatever comes, the pool stays as it is.
    pub fn reserve(&mut self, entries: u32) -> Result<(), NoMemory>
        ensures entries { OnOk result (entries ≤ self.new.room) }
        ensures history { self.new.history ≡ self.old.history }
        ensures start { self.new.start ≡ self.old.start }
        ensures home { self.new.home ≡ self.old.home }
        ensures shape { self.new.shape ≡ self.old.shape }
    {
        if self.history.reserve(entries as usize).is_err() {
            return Err(NoMemory);
        }
        Ok(())
    }

    /// The home of the frames, and of every folio that the pool gives out and takes back.
    pub fn home(&self) -> Home
        ensures { result ≡ self.now.home }
    {
        self.frames.home()
    }

    /// The machine's shape, which stays as it is.
    pub fn shape(&self) -> &Shape
        ensures value { result.now ≡ self.now.shape }
        ensures state { PoolIs self.now (λ s. s.shape ≡ result.now) }
    {
        self.frames.shape()
    }

    /// The entries of all turns on the pool: each came legally where it stands.
    pub fn entries(&self) -> &[Entry]
        ensures value { result.now ≡ self.now.history }
        ensures run { IsTrue (is_some (pool_from self.now.start self.now.history)) }
    {
        self.history.as_slice()
    }

    /// Whether these folios can be given back: their runs are different, each owned at this order and not pinned. It
    /// costs the number of folios where they rise, and else it compares each two of them.
    pub fn can_give(&self, order: Order, folios: &[Folio]) -> bool
        ensures exact { PoolIs self.now (λ s. result ≡ can_give s order.0 (firsts (first_frames folios.now))) }
        ensures legal { IsTrue result → PoolIs self.now (λ s. IsTrue (can_give s order.0 (firsts (first_frames folios.now)))) }
    {
        self.frames.can_give(order, folios)
    }

    /// Whether these runs can be pinned: they are different, each owned at this order and not pinned. It costs the
    /// number of runs where they rise, and else it compares each two of them.
    pub fn can_mark(&self, order: Order, runs: &[Pfn]) -> bool
        ensures exact { PoolIs self.now (λ s. result ≡ can_give s order.0 (firsts runs.now)) }
        ensures legal { IsTrue result → PoolIs self.now (λ s. IsTrue (can_give s order.0 (firsts runs.now))) }
    {
        self.frames.can_mark(order, runs)
    }

    /// Whether these runs can be let go: they are different, each owned at this order and pinned. It costs the number
    /// of runs where they rise, and else it compares each two of them.
    pub fn can_unmark(&self, order: Order, runs: &[Pfn]) -> bool
        ensures exact { PoolIs self.now (λ s. result ≡ can_unmark s order.0 (firsts runs.now)) }
        ensures legal { IsTrue result → PoolIs self.now (λ s. IsTrue (can_unmark s order.0 (firsts runs.now))) }
    {
        self.frames.can_unmark(order, runs)
    }

    /// Takes as many runs of an order and puts their folios, of zeros, at the end of the list. The answer is false, and
    /// the list stays as it is, exactly where fewer runs of the order are wholly free: the reply is then `NoFrames`, and
    /// else `Got` with the first frames of the folios. It costs one pass over the frames at most, divided by a run's
    /// frames, and the bytes of the runs; a refusal costs the orders alone.
    #[tactic(auto, using(crate::proofs::PoolRuns::none_keeps, crate::proofs::PoolRuns::keeps_is_run))]
    pub fn take(
        &mut self,
        slip: Slip,
        order: Order,
        count: u32,
        out: &mut Vec<Folio>,
    ) -> Turned<bool>
        requires order { order.0 ≤ MAX_ORDER }
        requires some { 1 ≤ count }
        requires numbers { count ≤ slip.room.reply_numbers }
        requires spare { vec_len out.old + count ≤ vec_capacity out.old }
        requires room { 0 < self.old.room }
        requires agent_stamp { slip.at.last < 2 ^ 63 }
        requires object_stamp { last_stamp self.old.history < 2 ^ 63 }
        ensures exact { PoolIs self.old (λ s. result.value ≡ nat_le count (free_runs s order.0)) }
        ensures reply { MatchBool result.value (result.entry.reply ≡ Got (reply_runs result.entry.reply)) (result.entry.reply ≡ NoFrames) }
        ensures told { result.entry ≡ entry_at slip.at (last_stamp self.old.history) (object_at pool_no) (PoolTake order count) result.entry.reply }
        ensures count { MatchBool result.value (length (reply_runs result.entry.reply) ≡ count) (reply_runs result.entry.reply ≡ []) }
        ensures folios { out.new.items ≡ out.old.items ++ map (zeroed_run self.old.home order) (reply_runs result.entry.reply) }
        ensures kept { self.new.history ≡ self.old.history ++ result.entry ∷ [] }
        ensures start { self.new.start ≡ self.old.start }
        ensures home { self.new.home ≡ self.old.home }
        ensures shape { self.new.shape ≡ self.old.shape }
        ensures room { self.new.room + 1 ≡ self.old.room }
        ensures run { IsTrue (is_some (pool_from self.new.start self.new.history)) }
    {
        let (at, own, copy, value) = slip.open();
        let mut runs = own.reply_runs;
        if self.frames.take(order, count, &mut runs, out) {
            let reply = Reply::Got(Items::from_vec(runs));
            let Turned { entry, value: _ } = append_turn(
                &mut self.history,
                ObjectNo::POOL,
                at,
                Event::PoolTake(order, count),
                reply,
                copy,
                value,
            );
            Turned { entry, value: true }
        } else {
            let Turned { entry, value: _ } = append_turn(
                &mut self.history,
                ObjectNo::POOL,
                at,
                Event::PoolTake(order, count),
                Reply::NoFrames,
                copy,
                value,
            );
            Turned {
                entry,
                value: false,
            }
        }
    }

    /// Gives the runs of folios of one order back, whose frames are home from then on. The list is empty afterwards.
    pub fn give(&mut self, slip: Slip, order: Order, folios: &mut Vec<Folio>) -> Turned<()>
        requires of_home { All (λ f. f.home ≡ self.old.home) folios.old.items }
        requires of_order { All (λ f. f.order ≡ order) folios.old.items }
        requires legal { PoolIs self.old (λ s. IsTrue (can_give s order.0 (firsts (first_frames folios.old.items)))) }
        requires numbers { vec_len folios.old ≤ slip.room.event_numbers }
        requires room { 0 < self.old.room }
        requires agent_stamp { slip.at.last < 2 ^ 63 }
        requires object_stamp { last_stamp self.old.history < 2 ^ 63 }
        ensures told { result.entry ≡ entry_at slip.at (last_stamp self.old.history) (object_at pool_no) (PoolGive order (first_frames folios.old.items)) Ok }
        ensures folios { folios.new.items ≡ [] }
        ensures kept { self.new.history ≡ self.old.history ++ result.entry ∷ [] }
        ensures start { self.new.start ≡ self.old.start }
        ensures home { self.new.home ≡ self.old.home }
        ensures shape { self.new.shape ≡ self.old.shape }
        ensures room { self.new.room + 1 ≡ self.old.room }
        ensures run { IsTrue (is_some (pool_from self.new.start self.new.history)) }
    {
        let (at, own, copy, value) = slip.open();
        let mut runs = own.event_runs;
        list_firsts(folios.as_slice(), &mut runs);
        self.frames.give(order, folios);
        let event = Event::PoolGive(order, Items::from_vec(runs));
        let Turned { entry, value: _ } = append_turn(
            &mut self.history,
            ObjectNo::POOL,
            at,
            event,
            Reply::Ok,
            copy,
            value,
        );
        Turned { entry, value: () }
    }

    /// Pins the frames of owned runs of one order.
    pub fn mark(&mut self, slip: Slip, order: Order, runs: &[Pfn]) -> Turned<()>
        requires legal { PoolIs self.old (λ s. IsTrue (can_give s order.0 (firsts runs.now))) }
        requires numbers { length runs.now ≤ slip.room.event_numbers }
        requires room { 0 < self.old.room }
        requires agent_stamp { slip.at.last < 2 ^ 63 }
        requires object_stamp { last_stamp self.old.history < 2 ^ 63 }
        ensures told { result.entry ≡ entry_at slip.at (last_stamp self.old.history) (object_at pool_no) (PoolMark order runs.now) Ok }
        ensures kept { self.new.history ≡ self.old.history ++ result.entry ∷ [] }
        ensures start { self.new.start ≡ self.old.start }
        ensures home { self.new.home ≡ self.old.home }
        ensures shape { self.new.shape ≡ self.old.shape }
        ensures room { self.new.room + 1 ≡ self.old.room }
        ensures run { IsTrue (is_some (pool_from self.new.start self.new.history)) }
    {
        let (at, own, copy, value) = slip.open();
        let mut list = own.event_runs;
        list.extend_from_slice(runs).unwrap();
        self.frames.mark(order, runs);
        let event = Event::PoolMark(order, Items::from_vec(list));
        let Turned { entry, value: _ } = append_turn(
            &mut self.history,
            ObjectNo::POOL,
            at,
            event,
            Reply::Ok,
            copy,
            value,
        );
        Turned { entry, value: () }
    }

    /// Ends the pins of the frames of runs of one order.
    pub fn unmark(&mut self, slip: Slip, order: Order, runs: &[Pfn]) -> Turned<()>
        requires legal { PoolIs self.old (λ s. IsTrue (can_unmark s order.0 (firsts runs.now))) }
        requires numbers { length runs.now ≤ slip.room.event_numbers }
        requires room { 0 < self.old.room }
        requires agent_stamp { slip.at.last < 2 ^ 63 }
        requires object_stamp { last_stamp self.old.history < 2 ^ 63 }
        ensures told { result.entry ≡ entry_at slip.at (last_stamp self.old.history) (object_at pool_no) (PoolUnmark order runs.now) Ok }
        ensures kept { self.new.history ≡ self.old.history ++ result.entry ∷ [] }
        ensures start { self.new.start ≡ self.old.start }
        ensures home { self.new.home ≡ self.old.home }
        ensures shape { self.new.shape ≡ self.old.shape }
        ensures room { self.new.room + 1 ≡ self.old.room }
        ensures run { IsTrue (is_some (pool_from self.new.start self.new.history)) }
    {
        let (at, own, copy, value) = slip.open();
        let mut list = own.event_runs;
        list.extend_from_slice(runs).unwrap();
        self.frames.unmark(order, runs);
        let event = Event::PoolUnmark(order, Items::from_vec(list));
        let Turned { entry, value: _ } = append_turn(
            &mut self.history,
            ObjectNo::POOL,
            at,
            event,
            Reply::Ok,
            copy,
            value,
        );
        Turned { entry, value: () }
    }
}

impl Recorded for Pool {
    ghost history = { λ p. p.history };

    fn entries(&self) -> &[Entry] {
        self.history.as_slice()
    }

    fn last_stamp(&self) -> u64 {
        last_stamp_of(self.history.as_slice())
    }
}

/// Puts the first frames of folios into an empty list that has room for them.
fn list_firsts(folios: &[Folio], runs: &mut Vec<Pfn>)
    requires empty { runs.old.items ≡ [] }
    requires room { length folios.now ≤ vec_capacity runs.old }
    ensures { runs.new.items ≡ first_frames folios.now }
{
    for folio in folios {
        put(runs, folio.first());
    }
}

/// Puts an item at the end of a list that has room for it.
fn put<T>(list: &mut Vec<T>, item: T)
    requires { vec_len list.old < vec_capacity list.old }
    ensures items { list.new.items ≡ list.old.items ++ item ∷ [] }
    ensures len { vec_len list.new ≡ vec_len list.old + 1 }
    ensures capacity { vec_capacity list.old ≤ vec_capacity list.new }
{
    list.push(item).unwrap();
}
