//! The entry frame, written.

ghost use Rattle.std.specs.Prelude.{◌≡◌, ◌+◌, ◌*◌, ◌≤◌, [], length, map};
ghost use Rattle.ho_base.specs.declared.limits.TheConstants.{PAGE_BYTES, SCRATCH_AREAS};
ghost use Rattle.fdt_blob.specs.Spelling.{spelling};
ghost use Rattle.record_frames.specs.Rules.{version_1};
ghost use Rattle.record_frames.specs.Writing.{holding};
ghost use Rattle.kho_laws.specs.Tree.{handover_tree};
ghost use Rattle.kho_writer.specs.Entry.{entry_bytes, luo_with, number_at};
ghost use Rattle.kho_writer.specs.Layout.{Puts, ones, structure_part};

use crate::entry::bounds::{count_bounds, put_bounds, put_names};
use crate::entry::parts::{STRUCTURE_AT, put_front, put_luo, put_root};
use crate::entry::tokens::put_ends;
use ho_base::numbers::Pfn;
use ho_base::shape::{Area, Shape};
use phys_frames::Folio;

/// How many bytes the structure block has.
fn structure_bytes(areas: &[Area], bounds: &[Option<Pfn>; 4]) -> u32
    requires few { length areas.now ≤ SCRATCH_AREAS }
    ensures value { result ≡ 140 + 16 * length areas.now + 20 * ones (map number_at bounds.now) }
    ensures few { result ≤ 284 }
{
    (140 + 16 * areas.len() + 20 * count_bounds(bounds)) as u32
}

/// How many bytes the strings block has.
fn strings_bytes(bounds: &[Option<Pfn>; 4]) -> u32
    ensures value { result ≡ 73 + 11 * ones (map number_at bounds.now) }
    ensures few { result ≤ 117 }
{
    (73 + 11 * count_bounds(bounds)) as u32
}

/// Puts the structure block.
fn put_structure(
    folio: &mut Folio,
    areas: &[Area],
    number: u32,
    chunk: Pfn,
    header: Pfn,
    bounds: &[Option<Pfn>; 4],
) -> usize
    requires few { length areas.now ≤ SCRATCH_AREAS }
    requires size { length folio.old.bytes ≡ PAGE_BYTES }
    ensures put { Puts folio.old 56 (structure_part areas.now chunk.0 number header.0 (map number_at bounds.now)) folio.new result }
    ensures end { result ≡ 196 + 16 * length areas.now + 20 * ones (map number_at bounds.now) }
    ensures within { result ≤ 340 }
{
    let luo = put_root(folio, STRUCTURE_AT as usize, areas, chunk);
    let base = put_luo(folio, luo, number, header);
    let ends = put_bounds(folio, base, bounds);
    put_ends(folio, ends)
}

/// Makes a frame hold zeros alone.
fn clear(folio: &mut Folio)
    requires { folio.old.order.0 ≡ 0 }
    ensures blank { folio.new ≡ holding folio.old [] }
    ensures size { length folio.new.bytes ≡ PAGE_BYTES }
{
    let _page = folio.bytes();
    folio.zero();
}

/// Writes the entry frame: the blob of the handover tree in its one spelling, which has at most 457 bytes, and zeros
/// behind it.
///
/// The tree says the scratch areas of `shape`, the first chunk frame `chunk`, the update number, of which a reader takes 1
/// and more, the session frame `header`, and for each of the four device kinds in order the frame of its bound record, if
/// there is one. Frame, order and home of the folio stay. It takes no memory, and costs the bytes of the folio.
pub fn write_entry(
    folio: &mut Folio,
    shape: &Shape,
    number: u32,
    chunk: Pfn,
    header: Pfn,
    bounds: &[Option<Pfn>; 4],
)
    requires { folio.old.order.0 ≡ 0 }
    ensures blob { folio.new ≡ holding folio.old (spelling (handover_tree version_1 shape.now chunk.0 (luo_with number header bounds.now))) }
    ensures within { length (entry_bytes shape.now number chunk header bounds.now) ≤ 457 }
{
    clear(folio);
    let areas = shape.scratch();
    put_front(folio, structure_bytes(areas, bounds), strings_bytes(bounds));
    let strings = put_structure(folio, areas, number, chunk, header, bounds);
    put_names(folio, strings, bounds);
}
