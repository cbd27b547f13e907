//! The registry: the names of sessions with their slots, and the file numbers in use.

ghost use Rattle.std.specs.Prelude.{◌≡◌, ◌+◌, ◌<◌, ◌≤◌, ◌^◌, ◌↔◌, ◌++◌, ◌∷◌, [], None, Some, OnOk, IfOk, IfSome, IsTrue, is_some, length, not, filter, option_map, replicate, false, slice_index_or};
ghost use Rattle.std.specs.FinMap as finmap;
ghost use Rattle.std.specs.FinSet as finset;
ghost use Rattle.ho_base.specs.declared.limits.TheConstants.{OUT_SLOTS, FILES};
ghost use Rattle.ho_base.specs.Objects.{registry_no};
ghost use Rattle.ho_events.specs.History.{last_stamp, registry_from};
ghost use Rattle.ho_events.specs.Registry.{cold_registry, least_free_slot, least_free_file, registry_step};
ghost use Rattle.ho_events.specs.Places.{object_at};
ghost use Rattle.ho_events.specs.Slips.{entry_at};
ghost use Rattle.ho_events.specs.declared.event.Event.TheVariants.{RegCreate, RegFindOut, RegDropName, RegNewFile, RegFreeFile};
ghost use Rattle.ho_events.specs.declared.reply.Reply.TheVariants.{Ok, OkSlot, OkFile};
ghost use Rattle.ho_events.specs.PlainTurns.{EventIsPlain, ReplyIsPlain};
ghost use Rattle.registry_core.specs.Registries.{create_answer, find_answer, file_answer, ready_after, IsOutgoing, IsInUse, IsWithin};
ghost use Rattle.registry_core.specs.RegistryValues.{RegistryIs, IsReady};

use crate::parts::Parts;
use ho_base::name::Name;
use ho_base::numbers::{FileNo, NoMemory, ObjectNo, SlotNo};
use ho_events::append::append_plain_turn;
use ho_events::chronicle::{Recorded, last_stamp_of};
use ho_events::entry::Entry;
use ho_events::event::Event;
use ho_events::reply::Reply;
use ho_events::slip::{Slip, Turned};
use std::alloc::Global;
use std::marker::Model;
use std::snapshot::Snapshot;

/// The registry with the history of all turns on it. Contracts see its state before the first of these turns, that
/// history, which names are ready, and how many more entries fit; its state is where the history leads from there.
///
/// A name is ready once it has a slot, and stays so from then on: its slots are changed without memory.
#[derive(Drop)]
pub struct Registry {
    pub(crate) start: Snapshot<Parts>,
    pub(crate) parts: Parts,
    pub(crate) history: Vec<Entry>,
}

impl Model for Registry {
    ghost use Rattle.std.specs.Coded.{codes};
    ghost use Rattle.std.specs.FinMap as finmap;
    ghost use Rattle.std.specs.Prelude.{◌-◌, min};
    ghost use Rattle.std.specs.Vec.{vec_len, vec_capacity};
    ghost use Rattle.indexmap.specs.IndexMap.{keys, spare};
    ghost use Rattle.registry_core.specs.RegistryValues.{RegistryValue};
    ghost use Rattle.registry_core.specs.RegistryShown.{held_by, names_of, shown, KeepsRegistry};

    ghost Value = { RegistryValue };

    ghost coded = { Prim.hlevel (codes, finmap.code) };

    ghost view = { λ r. record { start = shown (held_by r.start.value); history = r.history.items; ready = names_of (keys r.parts.names); room = min (vec_capacity r.history - vec_len r.history) (spare r.parts.names) } };

    ghost invariant = { λ r. KeepsRegistry (shown (held_by r.start.value)) r.history.items (held_by r.parts) };
}

impl Registry {
    /// A registry that begins cold, with no name, no file number in use and no history; no memory where it can't be
    /// had.
    #[tactic(auto, using(crate::proofs::RegistryRuns::empty_keeps, crate::proofs::RegistryRuns::cold_shown, crate::proofs::SlotMaps::no_names))]
    pub fn empty(alloc: Global) -> Result<Registry, NoMemory>
        ensures start { IfOk result (λ r. r.start ≡ cold_registry) }
        ensures history { IfOk result (λ r. r.history ≡ []) }
        ensures ready { IfOk result (λ r. r.ready ≡ finset.empty) }
    {
        let parts = Parts::cold(alloc)?;
        Ok(Registry {
            start: Snapshot::of(&parts),
            parts,
            history: Vec::new(alloc),
        })
    }

    /// Takes memory for as many more entries, each of which may bring a name. Whatever comes, the registry
    /// stays as it is.
    pub fn reserve(&mut self, entries: u32) -> Result<(), NoMemory>
        ensures entries { OnOk result (entries ≤ self.new.room) }
        ensures history { self.new.history ≡ self.old.history }
        ensures ready { self.new.ready ≡ self.old.ready }
        ensures start { self.new.start ≡ self.old.start }
    {
        if self.history.reserve(entries as usize).is_err()
            || self.parts.names.reserve(entries as usize).is_err()
        {
            return Err(NoMemory);
        }
        Ok(())
    }

    /// The entries of all turns on the registry: each came legally where it stands.
    #[tactic(auto, using(crate::proofs::RegistryRuns::keeps_run))]
    pub fn entries(&self) -> &[Entry]
        ensures value { result.now ≡ self.now.history }
        ensures run { IsTrue (is_some (registry_from self.now.start self.now.history)) }
    {
        self.history.as_slice()
    }

    /// The slot of an outgoing name, which is ready; none exactly where the name isn't outgoing.
    pub fn slot_of(&self, name: Name) -> Option<SlotNo>
        ensures value { RegistryIs self.now (λ s. finmap.get s.outgoing name ≡ option_map (λ x. x.0) result) }
        ensures within { IfSome result (λ x. x.0 < OUT_SLOTS) }
        ensures ready { IfSome result (λ x. IsReady name self.now) }
    {
        self.parts.slots(name).outgoing
    }

    /// Whether a name is outgoing.
    #[tactic(auto, using(crate::proofs::RegistryRuns::out_told))]
    pub fn is_out(&self, name: Name) -> bool
        ensures { RegistryIs self.now (λ s. IsTrue result ↔ IsOutgoing name s) }
    {
        self.slot_of(name).is_some()
    }

    /// Whether a file number is in use.
    pub fn in_use(&self, file: FileNo) -> bool
        requires { file.0 < FILES }
        ensures { RegistryIs self.now (λ s. IsTrue result ↔ IsInUse file.0 s) }
    {
        self.parts.files.is_used(file.0 as usize)
    }

    /// The least outgoing slot that has no name; none exactly where each has one.
    #[tactic(auto, using(crate::proofs::RegistryRuns::least_slot_told))]
    fn least_slot(&mut self) -> Option<SlotNo>
        ensures value { RegistryIs self.old (λ s. least_free_slot s.outgoing ≡ option_map (λ x. x.0) result) }
        ensures within { IfSome result (λ x. x.0 < OUT_SLOTS) }
        ensures same { self.new ≡ self.old }
    {
        let slot = self.parts.taken.least()?;
        Some(SlotNo(slot as u8))
    }

    /// The least file number that isn't in use; none exactly where each is.
    #[tactic(auto, using(crate::proofs::RegistryRuns::least_file_told))]
    fn least_file(&mut self) -> Option<FileNo>
        ensures value { RegistryIs self.old (λ s. least_free_file s.files ≡ option_map (λ x. x.0) result) }
        ensures within { IfSome result (λ x. x.0 < FILES) }
        ensures same { self.new ≡ self.old }
    {
        let file = self.parts.files.least()?;
        Some(FileNo(file as u16))
    }

    /// Makes an outgoing name: `NameTaken` where it is outgoing already, else `SessionsFull` where each outgoing
    /// slot has a name, else its slot, which is the least free one. At a refusal the registry stays as it is.
    #[tactic(auto, using(crate::proofs::RegistryAnswers::create_taken, crate::proofs::RegistryAnswers::create_taken_told, crate::proofs::RegistryAnswers::create_full, crate::proofs::RegistryAnswers::create_full_told, crate::proofs::RegistryAnswers::create_new, crate::proofs::RegistryAnswers::create_least, crate::proofs::RegistryAnswers::create_free_told))]
    pub fn create(&mut self, slip: Slip, name: Name) -> Turned<Reply>
        requires room { 0 < self.old.room }
        requires agent_stamp { slip.at.last < 2 ^ 63 }
        requires object_stamp { last_stamp self.old.history < 2 ^ 63 }
        ensures exact { RegistryIs self.old (λ s. result.value ≡ create_answer (finmap.get s.outgoing name) (least_free_slot s.outgoing)) }
        ensures within { IsWithin result.value }
        ensures told { result.entry ≡ entry_at slip.at (last_stamp self.old.history) (object_at registry_no) (RegCreate name) result.value }
        ensures kept { self.new.history ≡ self.old.history ++ result.entry ∷ [] }
        ensures ready { self.new.ready ≡ ready_after name result.value self.old.ready }
        ensures room { self.old.room ≤ self.new.room + 1 }
        ensures start { self.new.start ≡ self.old.start }
        ensures run { IsTrue (is_some (registry_from self.new.start self.new.history)) }
    {
        let taken = self.slot_of(name);
        if taken.is_some() {
            return self.stay(slip, Event::RegCreate(name), Reply::NameTaken);
        }
        match self.least_slot() {
            Some(slot) => self.add_name(slip, name, slot),
            None => self.stay(slip, Event::RegCreate(name), Reply::SessionsFull),
        }
    }

    /// Finds the slot of an outgoing name; `NoSession` exactly where the name isn't outgoing. The registry
    /// stays as it is.
    #[tactic(auto, using(crate::proofs::RegistryAnswers::find_found, crate::proofs::RegistryAnswers::find_found_told, crate::proofs::RegistryAnswers::find_none, crate::proofs::RegistryAnswers::find_none_told))]
    pub fn find_out(&mut self, slip: Slip, name: Name) -> Turned<Reply>
        requires room { 0 < self.old.room }
        requires agent_stamp { slip.at.last < 2 ^ 63 }
        requires object_stamp { last_stamp self.old.history < 2 ^ 63 }
        ensures exact { RegistryIs self.old (λ s. result.value ≡ find_answer (finmap.get s.outgoing name)) }
        ensures within { IsWithin result.value }
        ensures told { result.entry ≡ entry_at slip.at (last_stamp self.old.history) (object_at registry_no) (RegFindOut name) result.value }
        ensures kept { self.new.history ≡ self.old.history ++ result.entry ∷ [] }
        ensures ready { self.new.ready ≡ self.old.ready }
        ensures room { self.old.room ≤ self.new.room + 1 }
        ensures start { self.new.start ≡ self.old.start }
        ensures run { IsTrue (is_some (registry_from self.new.start self.new.history)) }
    {
        match self.slot_of(name) {
            Some(slot) => self.stay(slip, Event::RegFindOut(name), Reply::OkSlot(slot)),
            None => self.stay(slip, Event::RegFindOut(name), Reply::NoSession),
        }
    }

    /// Takes the least file number that isn't in use; `FilesFull` exactly where each is. Then the registry stays
    /// as it is.
    #[tactic(auto, using(crate::proofs::RegistryAnswers::files_full, crate::proofs::RegistryAnswers::files_full_told, crate::proofs::RegistryAnswers::file_free, crate::proofs::RegistryAnswers::file_free_told))]
    pub fn new_file(&mut self, slip: Slip) -> Turned<Reply>
        requires room { 0 < self.old.room }
        requires agent_stamp { slip.at.last < 2 ^ 63 }
        requires object_stamp { last_stamp self.old.history < 2 ^ 63 }
        ensures exact { RegistryIs self.old (λ s. result.value ≡ file_answer (least_free_file s.files)) }
        ensures within { IsWithin result.value }
        ensures told { result.entry ≡ entry_at slip.at (last_stamp self.old.history) (object_at registry_no) RegNewFile result.value }
        ensures kept { self.new.history ≡ self.old.history ++ result.entry ∷ [] }
        ensures ready { self.new.ready ≡ self.old.ready }
        ensures room { self.old.room ≤ self.new.room + 1 }
        ensures start { self.new.start ≡ self.old.start }
        ensures run { IsTrue (is_some (registry_from self.new.start self.new.history)) }
    {
        match self.least_file() {
            Some(file) => self.take_file(slip, file),
            None => self.stay(slip, Event::RegNewFile, Reply::FilesFull),
        }
    }

    /// Ends an outgoing name.
    #[tactic(auto, using(crate::proofs::RegistrySteps::drop_keeps))]
    pub fn drop_name(&mut self, slip: Slip, name: Name) -> Turned<()>
        requires outgoing { RegistryIs self.old (IsOutgoing name) }
        requires room { 0 < self.old.room }
        requires agent_stamp { slip.at.last < 2 ^ 63 }
        requires object_stamp { last_stamp self.old.history < 2 ^ 63 }
        ensures told { result.entry ≡ entry_at slip.at (last_stamp self.old.history) (object_at registry_no) (RegDropName name) Ok }
        ensures kept { self.new.history ≡ self.old.history ++ result.entry ∷ [] }
        ensures ready { self.new.ready ≡ self.old.ready }
        ensures room { self.old.room ≤ self.new.room + 1 }
        ensures start { self.new.start ≡ self.old.start }
        ensures run { IsTrue (is_some (registry_from self.new.start self.new.history)) }
    {
        let slot = self.slot_of(name).unwrap();
        self.parts.end_out(name, slot);
        let turned = append_plain_turn(
            &mut self.history,
            ObjectNo::REGISTRY,
            slip,
            Event::RegDropName(name),
            Reply::Ok,
        );
        let Turned { entry, value: _ } = turned;
        Turned { entry, value: () }
    }

    /// Gives a file number that is in use back.
    #[tactic(auto, using(crate::proofs::RegistrySteps::free_keeps))]
    pub fn free_file(&mut self, slip: Slip, file: FileNo) -> Turned<()>
        requires in_use { RegistryIs self.old (IsInUse file.0) }
        requires within { file.0 < FILES }
        requires room { 0 < self.old.room }
        requires agent_stamp { slip.at.last < 2 ^ 63 }
        requires object_stamp { last_stamp self.old.history < 2 ^ 63 }
        ensures told { result.entry ≡ entry_at slip.at (last_stamp self.old.history) (object_at registry_no) (RegFreeFile file) Ok }
        ensures kept { self.new.history ≡ self.old.history ++ result.entry ∷ [] }
        ensures ready { self.new.ready ≡ self.old.ready }
        ensures room { self.old.room ≤ self.new.room + 1 }
        ensures start { self.new.start ≡ self.old.start }
        ensures run { IsTrue (is_some (registry_from self.new.start self.new.history)) }
    {
        self.parts.files.give(file.0 as usize);
        let turned = append_plain_turn(
            &mut self.history,
            ObjectNo::REGISTRY,
            slip,
            Event::RegFreeFile(file),
            Reply::Ok,
        );
        let Turned { entry, value: _ } = turned;
        Turned { entry, value: () }
    }

    /// A turn that leaves the registry as it is.
    pub(crate) fn stay(&mut self, slip: Slip, event: Event, reply: Reply) -> Turned<Reply>
        requires stays { RegistryIs self.old (λ s. registry_step s event reply ≡ Some s) }
        requires event { EventIsPlain event }
        requires reply { ReplyIsPlain reply }
        requires room { 0 < self.old.room }
        requires agent_stamp { slip.at.last < 2 ^ 63 }
        requires object_stamp { last_stamp self.old.history < 2 ^ 63 }
        ensures value { result.value ≡ reply }
        ensures told { result.entry ≡ entry_at slip.at (last_stamp self.old.history) (object_at registry_no) event reply }
        ensures kept { self.new.history ≡ self.old.history ++ result.entry ∷ [] }
        ensures ready { self.new.ready ≡ self.old.ready }
        ensures room { self.old.room ≤ self.new.room + 1 }
        ensures start { self.new.start ≡ self.old.start }
        ensures run { IsTrue (is_some (registry_from self.new.start self.new.history)) }
    {
        append_plain_turn(&mut self.history, ObjectNo::REGISTRY, slip, event, reply)
    }

    /// Gives a new name the least free slot.
    #[tactic(auto, using(crate::proofs::RegistrySteps::name_keeps))]
    fn add_name(&mut self, slip: Slip, name: Name, slot: SlotNo) -> Turned<Reply>
        requires new { RegistryIs self.old (λ s. finmap.get s.outgoing name ≡ None) }
        requires least { RegistryIs self.old (λ s. least_free_slot s.outgoing ≡ Some slot.0) }
        requires within { slot.0 < OUT_SLOTS }
        requires room { 0 < self.old.room }
        requires agent_stamp { slip.at.last < 2 ^ 63 }
        requires object_stamp { last_stamp self.old.history < 2 ^ 63 }
        ensures value { result.value ≡ OkSlot slot }
        ensures told { result.entry ≡ entry_at slip.at (last_stamp self.old.history) (object_at registry_no) (RegCreate name) (OkSlot slot) }
        ensures kept { self.new.history ≡ self.old.history ++ result.entry ∷ [] }
        ensures ready { self.new.ready ≡ finset.insert self.old.ready name }
        ensures room { self.old.room ≤ self.new.room + 1 }
        ensures start { self.new.start ≡ self.old.start }
        ensures run { IsTrue (is_some (registry_from self.new.start self.new.history)) }
    {
        self.parts.put_out(name, slot);
        append_plain_turn(
            &mut self.history,
            ObjectNo::REGISTRY,
            slip,
            Event::RegCreate(name),
            Reply::OkSlot(slot),
        )
    }

    /// Takes the least free file number.
    #[tactic(auto, using(crate::proofs::RegistrySteps::file_keeps))]
    fn take_file(&mut self, slip: Slip, file: FileNo) -> Turned<Reply>
        requires least { RegistryIs self.old (λ s. least_free_file s.files ≡ Some file.0) }
        requires within { file.0 < FILES }
        requires room { 0 < self.old.room }
        requires agent_stamp { slip.at.last < 2 ^ 63 }
        requires object_stamp { last_stamp self.old.history < 2 ^ 63 }
        ensures value { result.value ≡ OkFile file }
        ensures told { result.entry ≡ entry_at slip.at (last_stamp self.old.history) (object_at registry_no) RegNewFile (OkFile file) }
        ensures kept { self.new.history ≡ self.old.history ++ result.entry ∷ [] }
        ensures ready { self.new.ready ≡ self.old.ready }
        ensures room { self.old.room ≤ self.new.room + 1 }
        ensures start { self.new.start ≡ self.old.start }
        ensures run { IsTrue (is_some (registry_from self.new.start self.new.history)) }
    {
        self.parts.files.take(file.0 as usize);
        append_plain_turn(
            &mut self.history,
            ObjectNo::REGISTRY,
            slip,
            Event::RegNewFile,
            Reply::OkFile(file),
        )
    }
}

impl Recorded for Registry {
    ghost history = { λ r. r.history };

    fn entries(&self) -> &[Entry] {
        self.history.as_slice()
    }

    fn last_stamp(&self) -> u64 {
        last_stamp_of(self.history.as_slice())
    }
}
