//! The objects, and the turns with them.

ghost use Rattle.std.specs.Prelude.{◌≡◌, ◌≢◌, ℕ, ◌+◌, ◌<◌, ◌≤◌, ◌++◌, ◌∷◌, [], List, length, map, replicate, slice_index_or, Some, None, IfSome, IfNone, IfOk, IfErr, OnOk, OnErr, MatchOption, true, cond};
ghost use mathlib.Core.Option.{some};
ghost use lib.ListN.{get_elem?};
ghost use Rattle.std.specs.Vec.{vec_capacity};
ghost use Rattle.ho_events.specs.declared.entry.Entry.{Entry};
ghost use Rattle.ho_events.specs.declared.entry.Place.TheVariants.{Object};
ghost use Rattle.turns_table.specs.declared.rule.Role.TheVariants.{Absent, Spare, Has};
ghost use Rattle.turns_table.specs.Logs.{entries_of};
ghost use Rattle.turns_table.specs.Views.{IsMine, IsOnly, entries_in, merged, role, holds, agents, first, took, missing, missed_one, added, let_go, gave, given, joined};
ghost use Rattle.turns_table.specs.Rule.{IsSized, IsGrown};
ghost use Rattle.turns_table.specs.Plays.{Found, Settled};
ghost use Rattle.turns_table.specs.Passes.{view, IsNow, log_of, room};
ghost use Rattle.turns_table.specs.Kept.{items_at, room_at, has_at, is_mine, on_objects, object_logs, IsLogged};

use crate::bring::bring;
use crate::logs::Logs;
use crate::pass::Pass;
use crate::rows::{from_slots, to_slots, words_of};
use crate::rule::{Both, Cut, Enter, Known, Numbered, Release, Try, Turning};
use atomic_table::{Refused, Table};
use ho_base::numbers::{AgentNo, NoMemory, ObjectNo};
use ho_events::chronicle::Chronicle;
use ho_events::entry::Entry;
use std::alloc::Global;
use std::marker::Brand;
use std::snapshot::Snapshot;
use std::sync::Wait;
use std::thread::yield_now;

/// Objects that threads take turns with, each for itself: a word and a slot for each. A word is twice the number of
/// its object's entries, and one more while a pass holds the object, modulo 2^64. It is `Drop` where `T` is.
#[derive(Drop)]
pub struct Turns<T: Chronicle> {
    table: Table<Option<T>, Known<T>, Snapshot<Vec<T>>, Turning<T>, Global>,
    /// Room for the objects at the end.
    room: Vec<T>,
    ghost roomy: { (room.items ≡ []) × (length table.shared.key.value.items ≤ vec_capacity room) },
    ghost sized: { IsSized (length table.shared.key.value.items) table.shared.table_id },
}

impl<T: Chronicle> Turns<T> {
    ghost use Rattle.turns_table.specs.Tables.{opening, IsOf};

    /// The objects, by object number, and the pass that may give all agent numbers from 0 to 255. The objects come back
    /// where memory can't be had.
    pub fn new(alloc: Global, objects: Vec<T>) -> Result<(Turns<T>, Pass<T>), Vec<T>>
        requires some { 0 < length objects.items }
        requires balance { T.balanced (map T.start objects.items) (map T.history objects.items) (replicate agents []) }
        ensures made { IfOk result (λ t. IsOf t.0 t.1 × (opening t.0 ≡ objects.items) × (view t.1 ≡ first objects.items)) }
        ensures roles { IfOk result (λ t. (a : ℕ) → a < agents → role (view t.1) a ≡ Spare) }
        ensures free { IfOk result (λ t. (k : ℕ) → holds (view t.1) k ≡ None) }
        ensures refused { IfErr result (λ xs. xs.items ≡ objects.items) }
    {
        let key = Snapshot::of(&objects);
        let Ok(words) = words_of(alloc, objects.as_slice()) else {
            return Err(objects);
        };
        let Ok(room) = Vec::with_capacity(alloc, objects.len()) else {
            return Err(objects);
        };
        let Ok(logs) = Logs::empty(alloc, true) else {
            room.destroy_empty();
            return Err(objects);
        };
        let slots = match to_slots(alloc, objects) {
            Ok(slots) => slots,
            Err(objects) => {
                room.destroy_empty();
                return Err(objects);
            }
        };
        match Table::new(alloc, words.as_slice(), slots, &key) {
            Ok((table, seat)) => Ok((Turns { table, room }, Pass { seat, logs })),
            Err(Refused { slots }) => Err(from_slots(slots, room, &key)),
        }
    }

    /// Gives an agent number that a pass may still give to a new pass, whose own it then is. The old pass keeps at
    /// least one number.
    pub fn split(
        &self,
        alloc: Global,
        from: &mut Pass<T>,
        agent: AgentNo,
    ) -> Result<Pass<T>, NoMemory>
        requires table { IsOf self.now from.old }
        requires spare { role (view from.old) agent.0 ≡ Spare }
        requires other { (b : ℕ) × (b ≢ agent.0) × IsMine (role (view from.old) b) }
        ensures kept { OnOk result (IsNow from.old from.new (gave agent.0 (view from.old))) }
        ensures left { OnOk result ((role (view from.new) agent.0 ≡ Absent) × ((b : ℕ) → b ≢ agent.0 → role (view from.new) b ≡ role (view from.old) b)) }
        ensures held { (k : ℕ) → holds (view from.new) k ≡ holds (view from.old) k }
        ensures table { IsOf self.now from.new }
        ensures given { IfOk result (λ p. IsOf self.now p × (view p ≡ given agent.0 (view from.old))) }
        ensures number { IfOk result (λ p. (role (view p) agent.0 ≡ Has []) × IsOnly (view p) agent.0) }
        ensures free { IfOk result (λ p. (k : ℕ) → holds (view p) k ≡ None) }
        ensures refused { OnErr result (IsNow from.old from.new (view from.old)) }
        ensures logs { (a : ℕ) → log_of from.new a ≡ log_of from.old a }
        ensures no_logs { IfOk result (λ p. (a : ℕ) → log_of p a ≡ []) }
    {
        let Ok(mut logs) = Logs::empty(alloc, false) else {
            return Err(NoMemory);
        };
        let number = usize::from(agent.0);
        logs.set_has(number, true);
        logs.number = number;
        Ok(self.cut::<Brand>(from, number, logs))
    }

    /// Gives the number that is named in the proof to a new pass.
    fn cut<B: Numbered>(&self, from: &mut Pass<T>, agent: usize, logs: Logs) -> Pass<T>
        requires table { IsOf self.now from.old }
        requires named { agent ≡ B.number }
        requires spare { (role (view from.old) B.number ≡ Spare) × (B.number < agents) × ((b : ℕ) × (b ≢ B.number) × (b < agents) × IsMine (role (view from.old) b)) }
        requires logs { IsLogged (given B.number (view from.old)) logs.logs.items logs.has.items }
        requires numbered { has_at logs.has.items logs.number ≡ true }
        ensures kept { IsNow from.old from.new (gave B.number (view from.old)) × (from.new.logs.logs ≡ from.old.logs.logs) }
        ensures given { IsOf self.now result × (view result ≡ given B.number (view from.old)) × (result.logs ≡ logs) }
    {
        let seat = self.table.shared.split_seat::<Cut<B>>(&mut from.seat);
        from.logs.set_has(agent, false);
        from.logs.number = from.logs.first();
        Pass { seat, logs }
    }

    /// Gives all agent numbers of a pass that holds nothing, with their logs, to another pass. It takes no memory.
    pub fn join(&self, keep: &mut Pass<T>, ended: Pass<T>)
        requires table { IsOf self.now keep.old × IsOf self.now ended }
        requires free { (k : ℕ) → holds (view ended) k ≡ None }
        ensures pass { IsNow keep.old keep.new (joined (view keep.old) (view ended)) }
        ensures table { IsOf self.now keep.new }
        ensures roles { (a : ℕ) → role (view keep.new) a ≡ merged (role (view keep.old) a) (role (view ended) a) }
        ensures held { (k : ℕ) → holds (view keep.new) k ≡ holds (view keep.old) k }
        ensures logs { (a : ℕ) → log_of keep.new a ≡ cond (is_mine (role (view keep.old) a)) (log_of keep.old a) (log_of ended a) }
    {
        let Pass { seat, logs } = ended;
        self.table.shared.join_seat::<Both>(&mut keep.seat, seat);
        keep.logs.take_in(logs);
    }

    /// The objects, by object number, and the logs, by agent number, once the last pass has every number and holds
    /// nothing. It takes no memory.
    pub fn close(self, last: Pass<T>) -> (Vec<T>, Vec<Vec<Entry>>)
        requires table { IsOf self last }
        requires whole { (a : ℕ) → a < agents → IsMine (role (view last) a) }
        requires free { (k : ℕ) → holds (view last) k ≡ None }
        ensures count { length result.0.items ≡ length (opening self) }
        ensures exact { (k : ℕ) (o x : T) → get_elem? (opening self) k ≡ some o → get_elem? result.0.items k ≡ some x → IsGrown T.start T.history (object_logs result.1.items) k o x }
        ensures placed { (a i : ℕ) (e : Entry) → get_elem? (on_objects (items_at result.1.items a)) i ≡ some e → (e.agent.0 ≡ a) × ((o : _) × (e.object ≡ Object o) × (o.0 < length (opening self))) }
        ensures each { (k : ℕ) (x : T) → get_elem? result.0.items k ≡ some x → Settled T.start T.history T.balanced (view last) k x }
        ensures balance { T.balanced (map T.start result.0.items) (map T.history result.0.items) (object_logs result.1.items) }
        ensures logs { (length result.1.items ≡ agents) × ((a : ℕ) → items_at result.1.items a ≡ log_of last a) }
        ensures roles { (a : ℕ) → on_objects (items_at result.1.items a) ≡ entries_in (role (view last) a) }
    {
        let Turns { table, mut room } = self;
        let Pass { seat, logs } = last;
        let mut closed = table.close_with(seat);
        for slot in 0..closed.slot_count() {
            room.push_reserved(closed.take(slot).unwrap());
        }
        closed.free();
        (room, logs.into_logs())
    }

    /// Waits until no pass holds the object, and takes it. It takes no memory.
    pub fn begin<R: Wait>(&self, rt: &R, pass: &mut Pass<T>, object: ObjectNo) -> T
        requires table { IsOf self.now pass.old }
        requires range { object.0 < length (opening self.now) }
        requires free { holds (view pass.old) object.0 ≡ None }
        ensures pass { IsNow pass.old pass.new (took object.0 result (missing (view pass.new).missed (view pass.old))) }
        ensures held { holds (view pass.new) object.0 ≡ Some result }
        ensures others { (k : ℕ) → k ≢ object.0 → holds (view pass.new) k ≡ holds (view pass.old) k }
        ensures roles { (a : ℕ) → role (view pass.new) a ≡ role (view pass.old) a }
        ensures table { IsOf self.now pass.new }
        ensures found { Found T.start T.history T.balanced (view pass.old) object.0 result }
        ensures logs { pass.new.logs ≡ pass.old.logs }
    {
        for _ in rt.forever() {
            match self.try_begin(pass, object) {
                Some(state) => return state,
                None => yield_now(),
            }
        }
        unreachable!()
    }

    /// Takes the object; none exactly where its word was odd at this step: a pass held it. It takes no memory and
    /// never waits.
    pub fn try_begin(&self, pass: &mut Pass<T>, object: ObjectNo) -> Option<T>
        requires table { IsOf self.now pass.old }
        requires range { object.0 < length (opening self.now) }
        ensures had { IfSome result (λ x. (holds (view pass.old) object.0 ≡ None) × IsNow pass.old pass.new (took object.0 x (view pass.old)) × Found T.start T.history T.balanced (view pass.old) object.0 x) }
        ensures held { IfSome result (λ x. holds (view pass.new) object.0 ≡ Some x) }
        ensures others { (k : ℕ) → k ≢ object.0 → holds (view pass.new) k ≡ holds (view pass.old) k }
        ensures roles { (a : ℕ) → role (view pass.new) a ≡ role (view pass.old) a }
        ensures table { IsOf self.now pass.new }
        ensures missed { IfNone result (IsNow pass.old pass.new (missed_one object.0 (view pass.old))) }
        ensures logs { pass.new.logs ≡ pass.old.logs }
    {
        self.try_slot(pass, usize::from(object.0))
    }

    /// Ends the turn: with an entry, which then stands in the object's history and in its agent's log, or without. It
    /// takes no memory and never waits.
    pub fn end(&self, pass: &mut Pass<T>, object: ObjectNo, state: T, entry: Option<Entry>)
        requires table { IsOf self.now pass.old }
        requires turn { (x : T) × (holds (view pass.old) object.0 ≡ Some x) × (T.start state ≡ T.start x) × MatchOption entry (T.history state ≡ T.history x) (λ e. (T.history state ≡ T.history x ++ e ∷ []) × (e.object ≡ Object object) × ((log : List (List Entry × Entry)) × (role (view pass.old) e.agent.0 ≡ Has log) × T.fits (entries_of log) (T.start x) (T.history x) e)) }
        requires only { IfSome entry (λ e. IsOnly (view pass.old) e.agent.0) }
        requires room { IfSome entry (λ e. 0 < room pass.old) }
        ensures entered { IfSome entry (λ e. (x : T) (log : List (List Entry × Entry)) → holds (view pass.old) object.0 ≡ Some x → role (view pass.old) e.agent.0 ≡ Has log → IsNow pass.old pass.new (added object.0 log (T.history x) e (view pass.old))) }
        ensures let_go { IfNone entry ((x : T) → holds (view pass.old) object.0 ≡ Some x → IsNow pass.old pass.new (let_go object.0 (T.history x) (view pass.old))) }
        ensures free { holds (view pass.new) object.0 ≡ None }
        ensures others { (k : ℕ) → k ≢ object.0 → holds (view pass.new) k ≡ holds (view pass.old) k }
        ensures role { IfSome entry (λ e. (x : T) (log : List (List Entry × Entry)) → holds (view pass.old) object.0 ≡ Some x → role (view pass.old) e.agent.0 ≡ Has log → role (view pass.new) e.agent.0 ≡ Has (log ++ (T.history x, e) ∷ [])) }
        ensures only { IfSome entry (λ e. IsOnly (view pass.new) e.agent.0) }
        ensures roles { IfNone entry ((a : ℕ) → role (view pass.new) a ≡ role (view pass.old) a) }
        ensures table { IsOf self.now pass.new }
        ensures log { IfSome entry (λ e. log_of pass.new e.agent.0 ≡ log_of pass.old e.agent.0 ++ e ∷ []) }
        ensures other_logs { IfSome entry (λ e. (a : ℕ) → a ≢ e.agent.0 → log_of pass.new a ≡ log_of pass.old a) }
        ensures room_left { IfSome entry (λ e. room pass.new + 1 ≡ room pass.old) }
        ensures logs_kept { IfNone entry (pass.new.logs ≡ pass.old.logs) }
    {
        let slot = usize::from(object.0);
        match entry {
            Some(entry) => self.end_with(pass, slot, state, entry),
            None => self.let_go(pass, slot, state),
        }
    }

    /// Takes the object of a slot.
    fn try_slot(&self, pass: &mut Pass<T>, slot: usize) -> Option<T>
        requires table { IsOf self.now pass.old }
        requires range { slot < length (opening self.now) }
        ensures had { IfSome result (λ x. (holds (view pass.old) slot ≡ None) × IsNow pass.old pass.new (took slot x (view pass.old)) × Found T.start T.history T.balanced (view pass.old) slot x) }
        ensures held { IfSome result (λ x. holds (view pass.new) slot ≡ Some x) }
        ensures others { (k : ℕ) → k ≢ slot → holds (view pass.new) k ≡ holds (view pass.old) k }
        ensures roles { (a : ℕ) → role (view pass.new) a ≡ role (view pass.old) a }
        ensures table { IsOf self.now pass.new }
        ensures missed { IfNone result (IsNow pass.old pass.new (missed_one slot (view pass.old))) }
        ensures logs { pass.new.logs ≡ pass.old.logs }
    {
        let shared = &self.table.shared;
        if shared.fetch_or::<Try<T>>(&mut pass.seat, slot, 1) % 2 == 1 {
            return None;
        }
        shared.exchange(&mut pass.seat, slot, None)
    }

    /// Ends the turn with an entry.
    fn end_with(&self, pass: &mut Pass<T>, slot: usize, state: T, entry: Entry)
        requires table { IsOf self.now pass.old }
        requires turn { (x : T) × (log : List (List Entry × Entry)) × (holds (view pass.old) slot ≡ Some x) × (T.start state ≡ T.start x) × (T.history state ≡ T.history x ++ entry ∷ []) × ((o : _) × (entry.object ≡ Object o) × (o.0 ≡ slot)) × (role (view pass.old) entry.agent.0 ≡ Has log) × (entry.agent.0 < agents) × T.fits (entries_of log) (T.start x) (T.history x) entry }
        requires only { IsOnly (view pass.old) entry.agent.0 }
        requires room { 0 < room pass.old }
        ensures view { (x : T) (log : List (List Entry × Entry)) → holds (view pass.old) slot ≡ Some x → role (view pass.old) entry.agent.0 ≡ Has log → IsNow pass.old pass.new (added slot log (T.history x) entry (view pass.old)) }
        ensures role { (x : T) (log : List (List Entry × Entry)) → holds (view pass.old) slot ≡ Some x → role (view pass.old) entry.agent.0 ≡ Has log → role (view pass.new) entry.agent.0 ≡ Has (log ++ (T.history x, entry) ∷ []) }
        ensures free { holds (view pass.new) slot ≡ None }
        ensures others { (k : ℕ) → k ≢ slot → holds (view pass.new) k ≡ holds (view pass.old) k }
        ensures only { IsOnly (view pass.new) entry.agent.0 }
        ensures table { IsOf self.now pass.new }
        ensures log { log_of pass.new entry.agent.0 ≡ log_of pass.old entry.agent.0 ++ entry ∷ [] }
        ensures other_logs { (a : ℕ) → a ≢ entry.agent.0 → log_of pass.new a ≡ log_of pass.old a }
        ensures room { room pass.new + 1 ≡ room pass.old }
    {
        bring(&mut pass.seat, slot);
        let shared = &self.table.shared;
        let empty = shared.exchange(&mut pass.seat, slot, Some(state));
        let None = empty else { unreachable!() };
        shared.fetch_add::<Enter<T>>(&mut pass.seat, slot, 1);
        pass.logs.book(entry);
    }

    /// Ends the turn without an entry.
    fn let_go(&self, pass: &mut Pass<T>, slot: usize, state: T)
        requires table { IsOf self.now pass.old }
        requires turn { (x : T) × (holds (view pass.old) slot ≡ Some x) × (T.start state ≡ T.start x) × (T.history state ≡ T.history x) }
        ensures view { (x : T) → holds (view pass.old) slot ≡ Some x → IsNow pass.old pass.new (let_go slot (T.history x) (view pass.old)) }
        ensures free { holds (view pass.new) slot ≡ None }
        ensures others { (k : ℕ) → k ≢ slot → holds (view pass.new) k ≡ holds (view pass.old) k }
        ensures roles { (a : ℕ) → role (view pass.new) a ≡ role (view pass.old) a }
        ensures table { IsOf self.now pass.new }
        ensures logs { pass.new.logs ≡ pass.old.logs }
    {
        bring(&mut pass.seat, slot);
        let shared = &self.table.shared;
        let empty = shared.exchange(&mut pass.seat, slot, Some(state));
        let None = empty else { unreachable!() };
        shared.fetch_sub::<Release<T>>(&mut pass.seat, slot, 1);
    }
}
