//! The outgoing names, listed.

ghost use Rattle.std.specs.Prelude.{◌≡◌, ◌≤◌, None, IfOk, OnOk, length, map};
ghost use Rattle.std.specs.FinMap as finmap;
ghost use Rattle.std.specs.Cmp.Lexicographic.{slice_cmp};
ghost use Rattle.std.specs.Ordering.{nat_cmp, is_gt};
ghost use Rattle.ho_base.specs.declared.limits.TheConstants.{OUT_SLOTS};
ghost use Rattle.registry_core.specs.Outgoing.{smaller_names, with_name, with_number};
ghost use Rattle.registry_core.specs.RegistryShown.{outgoing_slot, slots_of};
ghost use Rattle.registry_core.specs.RegistryValues.{RegistryIs};

use crate::parts::Slots;
use crate::registry::Registry;
use ho_base::name::Name;
use ho_base::numbers::{NoMemory, SlotNo};
use indexmap::IndexMap;
use std::alloc::Global;

impl Registry {
    /// The outgoing names with their slots, in rising names: at most [`OUT_SLOTS`], since no two names have one slot.
    /// No memory where it can't be had. It looks at each ready name once.
    ///
    /// [`OUT_SLOTS`]: ho_base::limits::OUT_SLOTS
    pub fn outgoing(&self, alloc: Global) -> Result<Vec<(Name, SlotNo)>, NoMemory>
        ensures exact { RegistryIs self.now (λ s. IfOk result (λ v. map with_number v.items ≡ finmap.entries s.outgoing)) }
        ensures few { IfOk result (λ v. length v.items ≤ OUT_SLOTS) }
    {
        listed(alloc, &self.parts.names)
    }
}

/// The names that have an outgoing slot, with it, in rising names; no memory where it can't be had.
fn listed(alloc: Global, names: &IndexMap<Name, Slots>) -> Result<Vec<(Name, SlotNo)>, NoMemory>
    ensures { IfOk result (λ v. map with_number v.items ≡ finmap.entries (slots_of outgoing_slot names.now.entries)) }
{
    let mut listed = Vec::new(alloc);
    let mut i = names.len();
    while i > 0 {
        i -= 1;
        let (name, slots) = names.get_index(i).unwrap();
        put_name(&mut listed, *name, slots.outgoing)?;
    }
    Ok(listed)
}

/// Puts a new name in its place among rising ones, where it has a slot; no memory where it can't be had.
fn put_name(
    listed: &mut Vec<(Name, SlotNo)>,
    name: Name,
    slot: Option<SlotNo>,
) -> Result<(), NoMemory>
    requires new { finmap.find (slice_cmp nat_cmp) name (map with_number listed.old.items) ≡ None }
    ensures { OnOk result (map with_number listed.new.items ≡ with_name name slot (map with_number listed.old.items)) }
{
    let Some(slot) = slot else {
        return Ok(());
    };
    if listed.reserve(1).is_err() {
        return Err(NoMemory);
    }
    let at = place_of(listed.as_slice(), name);
    listed.insert(at, (name, slot)).unwrap();
    Ok(())
}

/// Where a name goes: how many names at the front are smaller.
#[tactic(auto, using(crate::proofs::OutgoingNames::smaller_step, crate::proofs::OutgoingNames::smaller_stop, crate::proofs::OutgoingNames::smaller_end))]
fn place_of(listed: &[(Name, SlotNo)], name: Name) -> usize
    ensures place { result ≡ smaller_names name listed.now }
    ensures within { result ≤ length listed.now }
{
    let mut i = 0;
    while i < listed.len() && is_after(name, listed[i].0) {
        i += 1;
    }
    i
}

/// Whether a name is greater than another.
fn is_after(name: Name, other: Name) -> bool
    ensures { result ≡ is_gt (slice_cmp nat_cmp name other) }
{
    name.as_bytes().cmp(other.as_bytes()).is_gt()
}
