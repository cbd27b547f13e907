//! A registry that begins with the names and the files of an earlier kernel.

ghost use Rattle.std.specs.Prelude.{◌≡◌, ◌≤◌, ◌↔◌, [], IfOk, IsTrue, length};
ghost use Rattle.std.specs.FinSet as finset;
ghost use Rattle.std.specs.List.{IsDistinct};
ghost use Rattle.ho_base.specs.declared.limits.TheConstants.{OUT_SLOTS, IN_SLOTS, FILES};
ghost use Rattle.ho_events.specs.Lists.{same_bytes};
ghost use Rattle.indexmap.specs.IndexMap.{IsUnique};
ghost use Rattle.registry_core.specs.NameSlots.{waiting_from};
ghost use Rattle.registry_core.specs.Registries.{IsOpened, waiting_registry};
ghost use Rattle.registry_core.specs.RegistryValues.{RegistryIs};

use crate::numbers::Numbers;
use crate::parts::{Parts, Slots};
use crate::registry::Registry;
use ho_base::limits::{FILES, OUT_SLOTS};
use ho_base::name::Name;
use ho_base::numbers::{NoMemory, SlotNo};
use indexmap::IndexMap;
use std::alloc::Global;
use std::snapshot::Snapshot;

impl Registry {
    /// A registry with no history in which these names wait to be opened, name i in the i-th incoming slot, and the
    /// file numbers below `files` are in use. No two names are the same, as where they rise; at most [`IN_SLOTS`]
    /// names and [`FILES`] files. No memory where it can't be had.
    ///
    /// [`IN_SLOTS`]: ho_base::limits::IN_SLOTS
    pub fn waiting(alloc: Global, names: &[Name], files: u32) -> Result<Registry, NoMemory>
        requires distinct { IsDistinct same_bytes names.now }
        requires few { length names.now ≤ IN_SLOTS }
        requires within { files ≤ FILES }
        ensures start { IfOk result (λ r. r.start ≡ waiting_registry names.now files) }
        ensures history { IfOk result (λ r. r.history ≡ []) }
        ensures ready { IfOk result (λ r. r.ready ≡ finset.from_list names.now) }
    {
        let names = slots_of(alloc, names)?;
        let taken = Numbers::all_free(alloc, OUT_SLOTS as usize)?;
        let files = Numbers::used_first(alloc, files as usize, FILES as usize)?;
        let parts = Parts {
            names,
            taken,
            files,
        };
        Ok(Registry {
            start: Snapshot::of(&parts),
            parts,
            history: Vec::new(alloc),
        })
    }

    /// Whether a name was opened.
    pub fn is_opened(&self, name: Name) -> bool
        ensures { RegistryIs self.now (λ s. IsTrue result ↔ IsOpened name s) }
    {
        self.parts.slots(name).opened.is_some()
    }
}

/// These names with the incoming slots, one after the other, in which they wait; no memory where it can't be had.
fn slots_of(alloc: Global, names: &[Name]) -> Result<IndexMap<Name, Slots>, NoMemory>
    requires distinct { IsDistinct same_bytes names.now }
    requires few { length names.now ≤ IN_SLOTS }
    ensures entries { IfOk result (λ m. m.entries ≡ waiting_from OUT_SLOTS names.now) }
    ensures unique { IfOk result (IsUnique same_bytes) }
{
    let Ok(mut slotted) = IndexMap::with_capacity(alloc, names.len()) else {
        return Err(NoMemory);
    };
    let mut slot = OUT_SLOTS as u8;
    for name in names {
        let slots = Slots {
            outgoing: None,
            waiting: Some(SlotNo(slot)),
            opened: None,
        };
        slotted.insert(*name, slots).unwrap();
        slot += 1;
    }
    Ok(slotted)
}
