//! The parts of the blob in their order, but for those of the bound records.

ghost use Rattle.std.specs.Prelude.{◌≡◌, ◌+◌, ◌*◌, ◌≤◌, length};
ghost use Rattle.ho_base.specs.declared.limits.TheConstants.{PAGE_BYTES, SCRATCH_AREAS};
ghost use Rattle.kho_writer.specs.Layout.{Puts, front_part, luo_part, root_part};

use crate::entry::put::{put, put_word, put_words};
use crate::entry::tokens::{put_begin, put_number, put_property, put_scratch};
use ho_base::numbers::Pfn;
use ho_base::shape::Area;
use phys_frames::Folio;

/// The first word of a blob.
const MAGIC: u32 = 0xd00d_feed;

/// The version of the format.
const VERSION: u32 = 17;

/// The last version that this one is compatible with.
const COMPATIBLE: u32 = 16;

/// Where the reservation block begins.
const RESERVATIONS_AT: u32 = 40;

/// Where the structure block begins.
pub(crate) const STRUCTURE_AT: u32 = 56;

/// Where the name `compatible` stands in the strings block.
const COMPATIBLE_AT: u32 = 0;

/// Where the name `preserved-memory-map` stands.
const MEMORY_MAP_AT: u32 = 11;

/// Where the name `scratch` stands.
const SCRATCH_AT: u32 = 32;

/// Where the name `liveupdate-number` stands.
const UPDATE_NUMBER_AT: u32 = 40;

/// Where the name `session-header` stands.
const SESSION_HEADER_AT: u32 = 58;

/// Puts the header, for a structure block and a strings block of these sizes, and the reservation block's ending pair.
pub(crate) fn put_front(folio: &mut Folio, structure: u32, strings: u32) -> usize
    requires structure { structure ≤ PAGE_BYTES }
    requires strings { strings ≤ PAGE_BYTES }
    requires size { length folio.old.bytes ≡ PAGE_BYTES }
    ensures put { Puts folio.old 0 (front_part structure strings) folio.new result }
    ensures end { result ≡ 56 }
{
    let end = STRUCTURE_AT + structure;
    let fourth = put_words(folio, 0, MAGIC, end + strings, STRUCTURE_AT);
    let seventh = put_words(folio, fourth, end, RESERVATIONS_AT, VERSION);
    let tenth = put_words(folio, seventh, COMPATIBLE, 0, strings);
    let pair = put_word(folio, tenth, structure);
    put(folio, pair, &[0; 16])
}

/// Puts the root up to its child: its version, the first chunk frame and the scratch areas.
pub(crate) fn put_root(folio: &mut Folio, at: usize, areas: &[Area], chunk: Pfn) -> usize
    requires few { length areas.now ≤ SCRATCH_AREAS }
    requires size { length folio.old.bytes ≡ PAGE_BYTES }
    requires room { at + 128 ≤ PAGE_BYTES }
    ensures put { Puts folio.old at (root_part areas.now chunk.0) folio.new result }
    ensures end { result ≡ at + 60 + 16 * length areas.now }
{
    let version = put_begin(folio, at, b"\0");
    let map = put_property(folio, version, COMPATIBLE_AT, b"kho-v1\0");
    let scratch = put_number(folio, map, MEMORY_MAP_AT, u64::from(chunk.0));
    put_scratch(folio, scratch, SCRATCH_AT, areas)
}

/// Puts the root's child up to the bound records: its version, the update number and the session frame.
pub(crate) fn put_luo(folio: &mut Folio, at: usize, number: u32, header: Pfn) -> usize
    requires size { length folio.old.bytes ≡ PAGE_BYTES }
    requires room { at + 72 ≤ PAGE_BYTES }
    ensures put { Puts folio.old at (luo_part number header.0) folio.new result }
    ensures end { result ≡ at + 68 }
{
    let version = put_begin(folio, at, b"luo\0");
    let update = put_property(folio, version, COMPATIBLE_AT, b"luo-v1\0");
    let session = put_number(folio, update, UPDATE_NUMBER_AT, u64::from(number));
    put_number(folio, session, SESSION_HEADER_AT, u64::from(header.0))
}
