//! Files that an earlier kernel handed over.

ghost use Rattle.std.specs.Prelude.{◌≡◌, ◌*◌, ◌^◌, ◌≤◌, [], Some, true, false, length, map, IfOk, IfErr, vec_len, vec_capacity};
ghost use Rattle.std.specs.List.{All};
ghost use Rattle.ho_base.specs.declared.limits.TheConstants.{MAX_ORDER, PAGE_BYTES, FILE_BYTES};
ghost use Rattle.ho_events.specs.Lists.{pieces};
ghost use Rattle.phys_frames.specs.Memory.{AreOf};
ghost use Rattle.file_folios.specs.FileParts.{state_of};
ghost use Rattle.file_folios.specs.HeldFiles.{held_file};
ghost use Rattle.file_folios.specs.Slots.{AreSlots};

use crate::file::FileFolios;
use crate::sized::{clear_past, piece_of};
use ho_base::numbers::{Kind, Order};
use phys_frames::{Folio, Home};
use std::alloc::Global;
use std::snapshot::Snapshot;

impl FileFolios {
    /// A file that an earlier kernel handed over: an incoming session has it, and no label and no outgoing session has.
    /// Its bytes are those of the folios, cut at the size, with a folio for each index; what stands past the size in the
    /// last folio is made zero. Where there is no memory for as many indexes, the folios come back as they are.
    pub fn held(
        alloc: Global,
        home: &Home,
        kind: Kind,
        order: Order,
        size: u32,
        position: u32,
        folios: Vec<Folio>,
    ) -> Result<FileFolios, Vec<Folio>>
        requires small { order.0 ≤ MAX_ORDER }
        requires within { size ≤ FILE_BYTES }
        requires position { position ≤ size }
        requires count { length folios.items ≡ pieces size (PAGE_BYTES * 2 ^ order.0) }
        requires of_home { AreOf home.now folios.items }
        requires of_order { All (λ f. f.order ≡ order) folios.items }
        ensures state { IfOk result (λ f. f.state ≡ held_file kind order.0 size position folios.items) }
        ensures home { IfOk result (λ f. f.home ≡ home.now) }
        ensures back { IfErr result (λ back. back.items ≡ folios.items) }
    {
        let home = Snapshot::of(home);
        match slots_of(alloc, &home, order, folios) {
            Ok(slots) => Ok(with_slots(home, kind, order, size, position, slots)),
            Err(folios) => Err(folios),
        }
    }
}

/// The file of such slots.
fn with_slots(
    home: Snapshot<Home>,
    kind: Kind,
    order: Order,
    size: u32,
    position: u32,
    mut slots: Vec<Option<Folio>>,
) -> FileFolios
    requires small { order.0 ≤ MAX_ORDER }
    requires within { size ≤ FILE_BYTES }
    requires count { vec_len slots ≡ pieces size (PAGE_BYTES * 2 ^ order.0) }
    requires slots { AreSlots home.value order (PAGE_BYTES * 2 ^ order.0) slots.items }
    ensures state { result.state ≡ state_of kind order size position false false true slots.items }
    ensures home { result.home ≡ home.value }
{
    clear_past(&mut slots, &home, order, piece_of(order), size);
    FileFolios {
        kind,
        order,
        size,
        position,
        opened: false,
        pin: false,
        hold: true,
        home,
        slots,
    }
}

/// Folios as slots, in their order. They come back where there is no memory.
fn slots_of(
    alloc: Global,
    home: &Snapshot<Home>,
    order: Order,
    folios: Vec<Folio>,
) -> Result<Vec<Option<Folio>>, Vec<Folio>>
    requires of_home { AreOf home.now.value folios.items }
    requires of_order { All (λ f. f.order ≡ order) folios.items }
    ensures items { IfOk result (λ v. v.items ≡ map (λ f. Some f) folios.items) }
    ensures slots { IfOk result (λ v. AreSlots home.now.value order (PAGE_BYTES * 2 ^ order.0) v.items) }
    ensures back { IfErr result (λ v. v.items ≡ folios.items) }
{
    let Ok(mut slots) = Vec::with_capacity(alloc, folios.len()) else {
        return Err(folios);
    };
    let mut rest = folios.into_iter();
    while let Some(folio) = rest.next() {
        slots.push_reserved(as_slot(folio));
    }
    rest.destroy_empty();
    Ok(slots)
}

/// A folio as a slot.
fn as_slot(folio: Folio) -> Option<Folio>
    ensures value { result ≡ Some folio }
    ensures long { length folio.bytes ≡ PAGE_BYTES * 2 ^ folio.order.0 }
{
    let _bytes = folio.bytes();
    Some(folio)
}
