//! The tokens of the structure block, with what belongs to them.

ghost use Rattle.std.specs.Prelude.{◌≡◌, ◌+◌, ◌*◌, ◌≤◌, ◌++◌, length};
ghost use Rattle.std.specs.List.{flat_map};
ghost use Rattle.ho_base.specs.declared.limits.TheConstants.{PAGE_BYTES, SCRATCH_AREAS};
ghost use Rattle.fdt_blob.specs.Tokens.{padded, padding, word};
ghost use Rattle.kho_laws.specs.Tree.{area_bytes as bytes_of_area, high_first};
ghost use Rattle.kho_writer.specs.Layout.{Puts, valued};

use crate::entry::put::{put, put_padded, put_word, put_words};
use ho_base::shape::Area;
use phys_frames::Folio;

/// The token that begins a node.
const BEGIN_NODE: u32 = 1;

/// The token that ends a node.
const END_NODE: u32 = 2;

/// The token of a property.
const PROP: u32 = 3;

/// The token that ends the structure block.
const END: u32 = 9;

/// Puts the token that begins a node; `text` is the node's name with its zero.
pub(crate) fn put_begin(folio: &mut Folio, at: usize, text: &[u8]) -> usize
    requires size { length folio.old.bytes ≡ PAGE_BYTES }
    requires room { at + length text.now + 7 ≤ PAGE_BYTES }
    ensures put { Puts folio.old at (word 1 ++ padded text.now) folio.new result }
    ensures end { result ≡ at + 4 + length text.now + padding (length text.now) }
{
    let name = put_word(folio, at, BEGIN_NODE);
    put_padded(folio, name, text)
}

/// Puts a property whose name stands at `place` of the strings block.
pub(crate) fn put_property(folio: &mut Folio, at: usize, place: u32, value: &[u8]) -> usize
    requires size { length folio.old.bytes ≡ PAGE_BYTES }
    requires room { at + length value.now + 15 ≤ PAGE_BYTES }
    ensures put { Puts folio.old at (valued place value.now) folio.new result }
    ensures end { result ≡ at + 12 + length value.now + padding (length value.now) }
{
    let start = put_words(folio, at, PROP, value.len() as u32, place);
    put_padded(folio, start, value)
}

/// Puts a property whose value is a number of 8 bytes, the highest first.
pub(crate) fn put_number(folio: &mut Folio, at: usize, place: u32, n: u64) -> usize
    requires size { length folio.old.bytes ≡ PAGE_BYTES }
    requires room { at + 20 ≤ PAGE_BYTES }
    ensures put { Puts folio.old at (valued place (high_first n)) folio.new result }
    ensures end { result ≡ at + 20 }
{
    let start = put_words(folio, at, PROP, 8, place);
    put(folio, start, &n.to_be_bytes())
}

/// Puts an area: its first frame and how many it has, as numbers of 8 bytes.
fn put_area(folio: &mut Folio, at: usize, area: &Area) -> usize
    requires size { length folio.old.bytes ≡ PAGE_BYTES }
    requires room { at + 16 ≤ PAGE_BYTES }
    ensures put { Puts folio.old at (bytes_of_area area.now) folio.new result }
    ensures end { result ≡ at + 16 }
{
    let count = put(folio, at, &u64::from(area.first.0).to_be_bytes());
    put(folio, count, &u64::from(area.count).to_be_bytes())
}

/// Puts areas in order.
fn put_areas(folio: &mut Folio, at: usize, areas: &[Area]) -> usize
    requires few { length areas.now ≤ SCRATCH_AREAS }
    requires size { length folio.old.bytes ≡ PAGE_BYTES }
    requires room { at + 16 * length areas.now ≤ PAGE_BYTES }
    ensures put { Puts folio.old at (flat_map bytes_of_area areas.now) folio.new result }
    ensures end { result ≡ at + 16 * length areas.now }
{
    let mut end = at;
    for i in 0..areas.len() {
        end = put_area(folio, end, &areas[i]);
    }
    end
}

/// Puts the property of the scratch areas, whose name stands at `place` of the strings block.
pub(crate) fn put_scratch(folio: &mut Folio, at: usize, place: u32, areas: &[Area]) -> usize
    requires few { length areas.now ≤ SCRATCH_AREAS }
    requires size { length folio.old.bytes ≡ PAGE_BYTES }
    requires room { at + 12 + 16 * length areas.now ≤ PAGE_BYTES }
    ensures put { Puts folio.old at (valued place (flat_map bytes_of_area areas.now)) folio.new result }
    ensures end { result ≡ at + 12 + 16 * length areas.now }
{
    let start = put_words(folio, at, PROP, 16 * areas.len() as u32, place);
    put_areas(folio, start, areas)
}

/// Puts the ends of the root's child and of the root, and the end of the structure block.
pub(crate) fn put_ends(folio: &mut Folio, at: usize) -> usize
    requires size { length folio.old.bytes ≡ PAGE_BYTES }
    requires room { at + 12 ≤ PAGE_BYTES }
    ensures put { Puts folio.old at (word 2 ++ (word 2 ++ word 9)) folio.new result }
    ensures end { result ≡ at + 12 }
{
    put_words(folio, at, END_NODE, END_NODE, END)
}
