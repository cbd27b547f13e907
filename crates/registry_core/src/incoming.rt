//! The turns on names that an earlier kernel had.

ghost use Rattle.std.specs.Prelude.{◌≡◌, ◌+◌, ◌<◌, ◌≤◌, ◌^◌, ◌++◌, ◌∷◌, [], None, Some, IfSome, IsTrue, is_some, option_map};
ghost use Rattle.std.specs.FinMap as finmap;
ghost use Rattle.ho_base.specs.Objects.{registry_no};
ghost use Rattle.ho_events.specs.History.{last_stamp, registry_from};
ghost use Rattle.ho_events.specs.Places.{object_at};
ghost use Rattle.ho_events.specs.Slips.{entry_at};
ghost use Rattle.ho_events.specs.declared.event.Event.TheVariants.{RegFindIn, RegOpen, RegDropIn};
ghost use Rattle.ho_events.specs.declared.reply.Reply.TheVariants.{Ok, OkSlot};
ghost use Rattle.registry_core.specs.Registries.{find_answer, open_answer, IsInSlot, IsOpened, IsWithinIn};
ghost use Rattle.registry_core.specs.RegistryValues.{RegistryIs, IsReady};

use crate::registry::Registry;
use ho_base::name::Name;
use ho_base::numbers::{ObjectNo, SlotNo};
use ho_events::append::append_plain_turn;
use ho_events::event::Event;
use ho_events::reply::Reply;
use ho_events::slip::{Slip, Turned};

impl Registry {
    /// The incoming slot in which a name was opened; none exactly where the name isn't opened.
    pub fn slot_in(&self, name: Name) -> Option<SlotNo>
        ensures value { RegistryIs self.now (λ s. finmap.get s.opened name ≡ option_map (λ x. x.0) result) }
        ensures within { IfSome result IsInSlot }
        ensures ready { IfSome result (λ x. IsReady name self.now) }
    {
        self.parts.slots(name).opened
    }

    /// The incoming slot in which a name waits to be opened; none exactly where it doesn't wait.
    fn slot_waiting(&self, name: Name) -> Option<SlotNo>
        ensures value { RegistryIs self.now (λ s. finmap.get s.waiting name ≡ option_map (λ x. x.0) result) }
        ensures within { IfSome result IsInSlot }
    {
        self.parts.slots(name).waiting
    }

    /// Finds the slot of an opened name; `NoSession` exactly where the name isn't opened. The registry stays as it is.
    #[tactic(auto, using(crate::proofs::IncomingAnswers::find_found, crate::proofs::IncomingAnswers::find_found_told, crate::proofs::IncomingAnswers::find_none, crate::proofs::IncomingAnswers::find_none_told))]
    pub fn find_in(&mut self, slip: Slip, name: Name) -> Turned<Reply>
        requires room { 0 < self.old.room }
        requires agent_stamp { slip.at.last < 2 ^ 63 }
        requires object_stamp { last_stamp self.old.history < 2 ^ 63 }
        ensures exact { RegistryIs self.old (λ s. result.value ≡ find_answer (finmap.get s.opened name)) }
        ensures within { IsWithinIn result.value }
        ensures told { result.entry ≡ entry_at slip.at (last_stamp self.old.history) (object_at registry_no) (RegFindIn name) result.value }
        ensures kept { self.new.history ≡ self.old.history ++ result.entry ∷ [] }
        ensures ready { self.new.ready ≡ self.old.ready }
        ensures room { self.old.room ≤ self.new.room + 1 }
        ensures start { self.new.start ≡ self.old.start }
        ensures run { IsTrue (is_some (registry_from self.new.start self.new.history)) }
    {
        match self.slot_in(name) {
            Some(slot) => self.stay(slip, Event::RegFindIn(name), Reply::OkSlot(slot)),
            None => self.stay(slip, Event::RegFindIn(name), Reply::NoSession),
        }
    }

    /// Opens a name that waits: `AlreadyOpen` where it is opened already, else `NoSession` where it doesn't wait, else
    /// its slot, and the name is opened from then on. At a refusal the registry stays as it is. It takes no memory.
    #[tactic(auto, using(crate::proofs::IncomingAnswers::open_again, crate::proofs::IncomingAnswers::open_again_told, crate::proofs::IncomingAnswers::open_none, crate::proofs::IncomingAnswers::open_none_told, crate::proofs::IncomingAnswers::open_closed, crate::proofs::IncomingAnswers::open_waits, crate::proofs::IncomingAnswers::open_told))]
    pub fn open(&mut self, slip: Slip, name: Name) -> Turned<Reply>
        requires room { 0 < self.old.room }
        requires agent_stamp { slip.at.last < 2 ^ 63 }
        requires object_stamp { last_stamp self.old.history < 2 ^ 63 }
        ensures exact { RegistryIs self.old (λ s. result.value ≡ open_answer (finmap.get s.opened name) (finmap.get s.waiting name)) }
        ensures within { IsWithinIn result.value }
        ensures told { result.entry ≡ entry_at slip.at (last_stamp self.old.history) (object_at registry_no) (RegOpen name) result.value }
        ensures kept { self.new.history ≡ self.old.history ++ result.entry ∷ [] }
        ensures ready { self.new.ready ≡ self.old.ready }
        ensures room { self.old.room ≤ self.new.room + 1 }
        ensures start { self.new.start ≡ self.old.start }
        ensures run { IsTrue (is_some (registry_from self.new.start self.new.history)) }
    {
        let opened = self.slot_in(name);
        if opened.is_some() {
            return self.stay(slip, Event::RegOpen(name), Reply::AlreadyOpen);
        }
        match self.slot_waiting(name) {
            Some(slot) => self.open_name(slip, name, slot),
            None => self.stay(slip, Event::RegOpen(name), Reply::NoSession),
        }
    }

    /// Ends a name that was opened.
    #[tactic(auto, using(crate::proofs::IncomingSteps::drop_in_keeps))]
    pub fn drop_in(&mut self, slip: Slip, name: Name) -> Turned<()>
        requires opened { RegistryIs self.old (IsOpened name) }
        requires room { 0 < self.old.room }
        requires agent_stamp { slip.at.last < 2 ^ 63 }
        requires object_stamp { last_stamp self.old.history < 2 ^ 63 }
        ensures told { result.entry ≡ entry_at slip.at (last_stamp self.old.history) (object_at registry_no) (RegDropIn name) Ok }
        ensures kept { self.new.history ≡ self.old.history ++ result.entry ∷ [] }
        ensures ready { self.new.ready ≡ self.old.ready }
        ensures room { self.old.room ≤ self.new.room + 1 }
        ensures start { self.new.start ≡ self.old.start }
        ensures run { IsTrue (is_some (registry_from self.new.start self.new.history)) }
    {
        self.parts.end_in(name);
        let turned = append_plain_turn(
            &mut self.history,
            ObjectNo::REGISTRY,
            slip,
            Event::RegDropIn(name),
            Reply::Ok,
        );
        let Turned { entry, value: _ } = turned;
        Turned { entry, value: () }
    }

    /// Opens a name that waits in this slot, and isn't opened.
    #[tactic(auto, using(crate::proofs::IncomingSteps::open_keeps))]
    fn open_name(&mut self, slip: Slip, name: Name, slot: SlotNo) -> Turned<Reply>
        requires closed { RegistryIs self.old (λ s. finmap.get s.opened name ≡ None) }
        requires waits { RegistryIs self.old (λ s. finmap.get s.waiting name ≡ Some slot.0) }
        requires within { IsInSlot slot }
        requires room { 0 < self.old.room }
        requires agent_stamp { slip.at.last < 2 ^ 63 }
        requires object_stamp { last_stamp self.old.history < 2 ^ 63 }
        ensures value { result.value ≡ OkSlot slot }
        ensures told { result.entry ≡ entry_at slip.at (last_stamp self.old.history) (object_at registry_no) (RegOpen name) (OkSlot slot) }
        ensures kept { self.new.history ≡ self.old.history ++ result.entry ∷ [] }
        ensures ready { self.new.ready ≡ self.old.ready }
        ensures room { self.old.room ≤ self.new.room + 1 }
        ensures start { self.new.start ≡ self.old.start }
        ensures run { IsTrue (is_some (registry_from self.new.start self.new.history)) }
    {
        self.parts.open(name, slot);
        append_plain_turn(
            &mut self.history,
            ObjectNo::REGISTRY,
            slip,
            Event::RegOpen(name),
            Reply::OkSlot(slot),
        )
    }
}
