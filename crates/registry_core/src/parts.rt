//! The parts of the registry: the slots of names, and which slots and file numbers are in use.

ghost use Rattle.std.specs.Prelude.{◌≡◌, ◌+◌, ◌<◌, ◌≤◌, IfOk, IsSome, Some, None, [], false, true, length, replicate, slice_set};
ghost use Rattle.ho_base.specs.declared.limits.TheConstants.{OUT_SLOTS, FILES};
ghost use Rattle.ho_events.specs.Lists.{same_bytes};
ghost use Rattle.indexmap.specs.IndexMap.{spare, keys, get, IsUnique, Updates};
ghost use Rattle.registry_core.specs.NameSlots.{opened_in, slots_at, with_outgoing, without_opened};

use crate::numbers::Numbers;
use ho_base::limits::{FILES, OUT_SLOTS};
use ho_base::name::Name;
use ho_base::numbers::{NoMemory, SlotNo};
use indexmap::IndexMap;
use std::alloc::Global;

/// The slots of a name, each of which it may have or not.
#[derive(Clone, Copy)]
pub struct Slots {
    /// The slot of the name among the outgoing ones.
    pub(crate) outgoing: Option<SlotNo>,
    /// The slot in which it waits to be opened.
    pub(crate) waiting: Option<SlotNo>,
    /// The slot in which it was opened.
    pub(crate) opened: Option<SlotNo>,
}

/// What shows the registry's state.
#[derive(Drop)]
pub struct Parts {
    /// The slots of each ready name. A name stays in it, so that its slots are changed without memory.
    pub(crate) names: IndexMap<Name, Slots>,
    /// Which outgoing slots have a name.
    pub(crate) taken: Numbers,
    /// Which file numbers are in use.
    pub(crate) files: Numbers,
}

impl Parts {
    /// No name is ready, and no number in use; no memory where it can't be had.
    pub(crate) fn cold(alloc: Global) -> Result<Parts, NoMemory>
        ensures names { IfOk result (λ p. p.names.entries ≡ []) }
        ensures unique { IfOk result (λ p. IsUnique same_bytes p.names) }
        ensures taken { IfOk result (λ p. p.taken ≡ replicate OUT_SLOTS false) }
        ensures files { IfOk result (λ p. p.files ≡ replicate FILES false) }
    {
        let taken = Numbers::all_free(alloc, OUT_SLOTS as usize)?;
        let files = Numbers::all_free(alloc, FILES as usize)?;
        Ok(Parts {
            names: IndexMap::new(alloc),
            taken,
            files,
        })
    }

    /// The slots of a name; none where the name isn't ready.
    pub(crate) fn slots(&self, name: Name) -> Slots
        ensures { result ≡ slots_at self.now.names.entries name }
    {
        match self.names.get(&name) {
            Some(slots) => *slots,
            None => Slots {
                outgoing: None,
                waiting: None,
                opened: None,
            },
        }
    }

    /// Makes a name outgoing in this slot, and ready where it wasn't yet; its other slots stay.
    pub(crate) fn put_out(&mut self, name: Name, slot: SlotNo)
        requires within { slot.0 < length self.old.taken }
        requires room { 0 < spare self.old.names }
        ensures names { Updates same_bytes self.old.names self.new.names name (Some (with_outgoing (Some slot) (slots_at self.old.names.entries name))) }
        ensures unique { IsUnique same_bytes self.new.names }
        ensures spare { spare self.old.names ≤ spare self.new.names + 1 }
        ensures taken { self.new.taken ≡ slice_set self.old.taken slot.0 true }
        ensures files { self.new.files ≡ self.old.files }
    {
        let slots = Slots {
            outgoing: Some(slot),
            ..self.slots(name)
        };
        self.names.insert(name, slots).unwrap();
        self.taken.take(slot.0 as usize);
    }

    /// Ends a name that is outgoing in this slot: it stays ready, and its other slots stay.
    pub(crate) fn end_out(&mut self, name: Name, slot: SlotNo)
        requires within { slot.0 < length self.old.taken }
        requires ready { IsSome (get same_bytes self.old.names name) }
        ensures names { Updates same_bytes self.old.names self.new.names name (Some (with_outgoing None (slots_at self.old.names.entries name))) }
        ensures keys { keys self.new.names ≡ keys self.old.names }
        ensures unique { IsUnique same_bytes self.new.names }
        ensures spare { spare self.new.names ≡ spare self.old.names }
        ensures taken { self.new.taken ≡ slice_set self.old.taken slot.0 false }
        ensures files { self.new.files ≡ self.old.files }
    {
        if let Some(slots) = self.names.get_mut(&name) {
            slots.outgoing = None;
        }
        self.taken.give(slot.0 as usize);
    }
    /// Opens a name in this slot: it waits no longer, and its outgoing slot stays.
    pub(crate) fn open(&mut self, name: Name, slot: SlotNo)
        requires ready { IsSome (get same_bytes self.old.names name) }
        ensures names { Updates same_bytes self.old.names self.new.names name (Some (opened_in slot (slots_at self.old.names.entries name))) }
        ensures keys { keys self.new.names ≡ keys self.old.names }
        ensures unique { IsUnique same_bytes self.new.names }
        ensures spare { spare self.new.names ≡ spare self.old.names }
        ensures taken { self.new.taken ≡ self.old.taken }
        ensures files { self.new.files ≡ self.old.files }
    {
        if let Some(slots) = self.names.get_mut(&name) {
            slots.waiting = None;
            slots.opened = Some(slot);
        }
    }

    /// Ends a name that was opened: it stays ready, and its other slots stay.
    pub(crate) fn end_in(&mut self, name: Name)
        requires ready { IsSome (get same_bytes self.old.names name) }
        ensures names { Updates same_bytes self.old.names self.new.names name (Some (without_opened (slots_at self.old.names.entries name))) }
        ensures keys { keys self.new.names ≡ keys self.old.names }
        ensures unique { IsUnique same_bytes self.new.names }
        ensures spare { spare self.new.names ≡ spare self.old.names }
        ensures taken { self.new.taken ≡ self.old.taken }
        ensures files { self.new.files ≡ self.old.files }
    {
        if let Some(slots) = self.names.get_mut(&name) {
            slots.opened = None;
        }
    }
}
