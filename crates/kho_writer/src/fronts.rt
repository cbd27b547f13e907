//! The entry frame and the records, written.

ghost use Rattle.std.specs.Prelude.{◌≡◌, ◌<◌, ◌≤◌, IsTrue, length, slice_index};
ghost use Rattle.std.specs.List.{All};
ghost use Rattle.ho_base.specs.declared.limits.TheConstants.{PAGE_BYTES};
ghost use Rattle.phys_frames.specs.Memory.{first_frames};
ghost use Rattle.record_frames.specs.Writing.{frames_of, with_pages};
ghost use Rattle.kho_laws.specs.Carrying.{can_be_carried};
ghost use Rattle.kho_writer.specs.Folios.{blob_for, front_count, front_pages};

use crate::bounds::bound_frames;
use crate::entry::write_entry;
use ho_base::numbers::Pfn;
use phys_frames::Folio;
use record_frames::Carried;
use record_frames::writing::write_records;

/// Notes the frames of folios, in order.
pub(crate) fn note_frames(folios: &[Folio], numbers: &mut Vec<Pfn>)
    requires { length numbers.old.items ≡ length folios.now }
    ensures { numbers.new.items ≡ first_frames folios.now }
{
    for i in 0..folios.len() {
        numbers[i] = folios[i].first();
    }
}

/// The frame of the first of some folios.
pub(crate) fn first_number(folios: &[Folio]) -> Pfn
    requires { 0 < length folios.now }
    ensures { result.0 ≡ slice_index (frames_of folios.now) 0 }
{
    folios[0].first()
}

/// Writes the entry frame into the first folio and the records into the others; `chunk` is the first chunk frame. The
/// folios are as many as these frames.
pub(crate) fn write_fronts(carried: &Carried, chunk: Pfn, folios: &mut [Folio])
    requires can { IsTrue (can_be_carried carried.now) }
    requires count { length folios.old ≡ front_count carried.now }
    requires orders { All (λ f. f.order.0 ≡ 0) folios.old }
    ensures pages { folios.new ≡ with_pages folios.old (front_pages carried.now (frames_of folios.old) chunk.0) }
    ensures fits { length (blob_for carried.now (frames_of folios.old) chunk.0) ≤ PAGE_BYTES }
{
    let (entry, records) = folios.split_at_mut(1);
    let header = first_number(records);
    write_records(carried.sessions.as_slice(), records);
    let bounds = bound_frames(carried.bounds.as_slice());
    write_entry(
        &mut entry[0],
        &carried.shape,
        carried.number,
        chunk,
        header,
        &bounds,
    );
}
