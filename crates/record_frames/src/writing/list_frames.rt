//! List frames, written.

ghost use Rattle.std.specs.Prelude.{◌≡◌, ◌≤◌, length};
ghost use Rattle.std.specs.List.{All, flat_map};
ghost use Rattle.ho_base.specs.declared.limits.TheConstants.{MAX_FRAMES};
ghost use Rattle.ho_events.specs.Lists.{firsts};
ghost use Rattle.record_frames.specs.Rules.{LISTED};
ghost use Rattle.record_frames.specs.Sheets.{chain_pages, list_pages, number, sheet_bytes};
ghost use Rattle.record_frames.specs.State.{list_frames as listed_in};
ghost use Rattle.record_frames.specs.Writing.{file_records, frames_of, holding, lists_of_files, parts, sheets_in, with_pages};

use crate::carried::{CarriedFile, list_frames};
use crate::writing::frame::{begin_frame, number_at, put_numbers};
use ho_base::numbers::Pfn;
use phys_frames::Folio;

/// How many numbers a list frame has room for.
const LISTED: usize = 510;

/// Writes a list frame with these runs; `next` is the number of the next one, or 0.
fn write_list_frame(runs: &[Pfn], next: u64, folio: &mut Folio)
    requires few { length runs.now ≤ 510 }
    requires order { folio.old.order.0 ≡ 0 }
    ensures { folio.new ≡ holding folio.old (sheet_bytes 16 number next (firsts runs.now)) }
{
    begin_frame(folio, next, runs.len() as u64);
    for i in 0..runs.len() {
        put_numbers(folio, 16 + 8 * i, &[u64::from(runs[i].0)]);
    }
}

/// Writes the list frames of a file: all but the last are full.
pub(crate) fn write_lists(file: &CarriedFile, folios: &mut [Folio])
    requires runs { length file.now.runs ≤ MAX_FRAMES }
    requires count { length folios.old ≡ listed_in file.now }
    requires orders { All (λ f. f.order.0 ≡ 0) folios.old }
    ensures { folios.new ≡ with_pages folios.old (chain_pages 16 number (sheets_in (frames_of folios.old) (parts LISTED (firsts file.now.runs)))) }
{
    let runs = file.runs.as_slice();
    for i in 0..folios.len() {
        let next = number_at(folios, i + 1);
        let end = runs.len().min(LISTED * i + LISTED);
        write_list_frame(&runs[LISTED * i..end], next, &mut folios[i]);
    }
}

/// Writes the list frames of these files, in order of the files. It gives how many these are.
pub(crate) fn write_lists_of_files(files: &[CarriedFile], folios: &mut [Folio]) -> usize
    requires runs { All (λ f. length f.runs ≤ MAX_FRAMES) files.now }
    requires enough { lists_of_files files.now ≤ length folios.old }
    requires orders { All (λ f. f.order.0 ≡ 0) folios.old }
    ensures pages { folios.new ≡ with_pages folios.old (flat_map list_pages (file_records (frames_of folios.old) files.now)) }
    ensures count { result ≡ lists_of_files files.now }
{
    let mut list = 0;
    for i in 0..files.len() {
        let file = &files[i];
        let count = list_frames(file) as usize;
        write_lists(file, &mut folios[list..list + count]);
        list += count;
    }
    list
}
