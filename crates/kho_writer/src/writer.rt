//! The whole of what a kexec carries, written.

ghost use Rattle.std.specs.Prelude.{◌≡◌};
ghost use Rattle.kho_writer.specs.Folios.{CarryIt, HasRoom, MarksOwn, OtherBytes, front_count};

use crate::bytes::have_bytes;
use crate::fronts::{first_number, note_frames, write_fronts};
use crate::laws::law_of_written_folios;
use crate::prepared::Prepared;
use folio_bitmaps::Tracker;
use phys_frames::Folio;
use record_frames::Carried;

/// Writes what a kexec carries into folios of one frame, in their order of use: the entry frame, the session frame, the
/// file frames, the list frames and the chunk frames. `prepared` was made of this `carried`; the tracker has just the
/// marks of its files' runs and of its bound records' frames, and the chain marks these and each frame of the entry and
/// the records. Frames that hold the folios' bytes then carry it, and the first folio is the entry. The folios keep all
/// but their bytes. It takes no memory, and costs the bytes of the folios.
pub fn write(prepared: Prepared, carried: &Carried, tracker: &Tracker, folios: &mut [Folio])
    requires prepared { prepared ≡ front_count carried.now }
    requires room { HasRoom carried.now folios.old }
    requires marks { MarksOwn carried.now tracker.now }
    ensures same { OtherBytes folios.old folios.new }
    ensures carries { CarryIt carried.now folios.new }
{
    let Prepared { mut numbers } = prepared;
    let (fronts, chunks) = folios.split_at_mut(numbers.len());
    let chunk = first_number(chunks);
    note_frames(fronts, &mut numbers);
    tracker.write_chain(&numbers, chunks);
    have_bytes(chunks);
    write_fronts(carried, chunk, fronts);
    law_of_written_folios();
}
