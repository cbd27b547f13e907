//! File frames, written.

ghost use Rattle.std.specs.Prelude.{◌≡◌, ◌≤◌, length, map};
ghost use Rattle.std.specs.List.{All};
ghost use Rattle.ho_base.specs.declared.limits.TheConstants.{MAX_FRAMES, SESSION_FILES};
ghost use Rattle.record_frames.specs.Sheets.{file_slot, file_slot_bytes, sheet_bytes};
ghost use Rattle.record_frames.specs.Writing.{file_records, frames_of, holding, lists_of_files};

use crate::carried::{CarriedFile, list_frames};
use crate::writing::frame::{begin_frame, first_number};
use crate::writing::slots::{SLOT_BYTES, SLOTS_AT, put_file_slot};
use phys_frames::Folio;

/// Writes the file frame of a session with these files, whose list frames are the first of `lists`, in order. It gives
/// how many these are.
pub(crate) fn write_file_frame(files: &[CarriedFile], lists: &[Folio], folio: &mut Folio) -> usize
    requires few { length files.now ≤ SESSION_FILES }
    requires runs { All (λ f. length f.runs ≤ MAX_FRAMES) files.now }
    requires lists { lists_of_files files.now ≤ length lists.now }
    requires order { folio.old.order.0 ≡ 0 }
    ensures page { folio.new ≡ holding folio.old (sheet_bytes 128 file_slot_bytes 0 (map file_slot (file_records (frames_of lists.now) files.now))) }
    ensures count { result ≡ lists_of_files files.now }
{
    begin_frame(folio, 0, files.len() as u64);
    let mut list = 0;
    for i in 0..files.len() {
        let file = &files[i];
        let count = list_frames(file) as usize;
        let first = first_number(lists, list, count);
        put_file_slot(folio, SLOTS_AT + SLOT_BYTES * i, file, first);
        list += count;
    }
    list
}
