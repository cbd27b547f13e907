//! The header of a blob and the blocks that it names (5.2, 5.3).

ghost use Rattle.std.specs.Prelude.{◌≡◌, ◌+◌, ◌-◌, ◌*◌, ◌/◌, ◌≤◌, ◌<◌, ◌^◌, nat_eq, take, drop, length, IsTrue, MatchOption, false};
ghost use Rattle.std.specs.List.{list_all};
ghost use Rattle.std.specs.Option.{option_map, option_map_or};
ghost use Rattle.fdt_blob.specs.Blob.{word_at as word_spec, has_header as header_spec, has_blocks as blocks_spec, structure_block as structure_spec, strings_block as strings_spec, first_pair as first_pair_spec, header_block, apart, is_placed as placed_spec, block_end, reservations_size as size_spec, reservations_block as reservations_spec, is_apart_from_blocks, bytes_of, total_of, HeaderRules, ReservationRules, BreaksEarly};
ghost use Rattle.fdt_blob.specs.Blocks.{block_view};

use crate::format::{COMPATIBLE, MAGIC, VERSION};
use crate::tree::FdtPlace;

/// The bytes of the header.
const HEADER_BYTES: u32 = 40;

/// The bytes of a pair in the reservation block.
const PAIR_BYTES: u32 = 16;

/// A part of a blob.
#[derive(Clone, Copy)]
struct Block {
    /// Where it begins.
    at: u32,
    /// How many bytes it has.
    size: u32,
}

/// The number that the four bytes from a place on spell, the highest byte first.
fn word_at(bytes: &[u8], at: usize) -> u32
    requires { at + 4 ≤ length bytes.now }
    ensures { result ≡ word_spec bytes.now at }
{
    let mut four = [0; 4];
    four.copy_from_slice(&bytes[at..at + 4]);
    u32::from_be_bytes(four)
}

/// Where a block ends.
fn end_of(block: Block) -> u64
    ensures { result ≡ block_end (block_view block) }
{
    u64::from(block.at) + u64::from(block.size)
}

/// Whether two blocks share no byte.
fn are_apart(a: Block, b: Block) -> bool
    ensures { result ≡ apart (block_view a) (block_view b) }
{
    a.size == 0 || b.size == 0 || end_of(a) <= u64::from(b.at) || end_of(b) <= u64::from(a.at)
}

/// Whether a block is aligned and ends within the total.
fn is_placed(total: u32, alignment: u32, block: Block) -> bool
    requires { 0 < alignment }
    ensures { result ≡ placed_spec total alignment (block_view block) }
{
    block.at % alignment == 0 && end_of(block) <= u64::from(total)
}

/// The structure block.
fn structure_block(bytes: &[u8]) -> Block
    requires { 40 ≤ length bytes.now }
    ensures { block_view result ≡ structure_spec bytes.now }
{
    Block {
        at: word_at(bytes, 8),
        size: word_at(bytes, 36),
    }
}

/// The strings block.
fn strings_block(bytes: &[u8]) -> Block
    requires { 40 ≤ length bytes.now }
    ensures { block_view result ≡ strings_spec bytes.now }
{
    Block {
        at: word_at(bytes, 12),
        size: word_at(bytes, 32),
    }
}

/// The first pair of the reservation block.
fn first_pair(bytes: &[u8]) -> Block
    requires { 40 ≤ length bytes.now }
    ensures { block_view result ≡ first_pair_spec bytes.now }
{
    Block {
        at: word_at(bytes, 16),
        size: PAIR_BYTES,
    }
}

/// The whole blob's bytes, as its header says.
fn total_of_blob(bytes: &[u8]) -> u32
    requires { 40 ≤ length bytes.now }
    ensures { result ≡ total_of bytes.now }
{
    word_at(bytes, 4)
}

/// Whether the header keeps its rules (5.2).
fn has_header(bytes: &[u8]) -> bool
    ensures { result ≡ header_spec bytes.now }
{
    bytes.len() >= HEADER_BYTES as usize
        && word_at(bytes, 0) == MAGIC
        && word_at(bytes, 20) == VERSION
        && word_at(bytes, 24) == COMPATIBLE
        && total_of_blob(bytes) >= HEADER_BYTES
        && total_of_blob(bytes) as usize <= bytes.len()
}

/// Whether the blocks that the header names are aligned, within the total and apart (5.2).
fn has_blocks(bytes: &[u8]) -> bool
    requires { 40 ≤ length bytes.now }
    ensures { result ≡ blocks_spec bytes.now }
{
    let total = total_of_blob(bytes);
    let header = Block {
        at: 0,
        size: HEADER_BYTES,
    };
    let pair = first_pair(bytes);
    let structure = structure_block(bytes);
    let strings = strings_block(bytes);
    is_placed(total, 8, pair)
        && is_placed(total, 4, structure)
        && is_placed(total, 1, strings)
        && are_apart(header, pair)
        && are_apart(header, structure)
        && are_apart(header, strings)
        && are_apart(pair, structure)
        && are_apart(pair, strings)
        && are_apart(structure, strings)
}

/// Whether each of the bytes is zero, as those of the pair (0, 0).
pub(crate) fn is_zero(bytes: &[u8]) -> bool
    ensures { result ≡ list_all (nat_eq 0) bytes.now }
{
    bytes.iter().all(|b| 0 == *b)
}

/// The bytes of a reservation block with its ending pair, which is one of the first `count` pairs; none where it is not.
fn reservations_size(count: u32, bytes: &[u8]) -> Option<u32>
    requires fits { 16 * count < 2 ^ 32 }
    requires within { 16 * count ≤ length bytes.now }
    ensures { result ≡ size_spec count bytes.now }
{
    let mut rest = bytes;
    for done in 0..count {
        let (pair, behind) = rest.split_at(PAIR_BYTES as usize);
        if is_zero(pair) {
            return Some(PAIR_BYTES + PAIR_BYTES * done);
        }
        rest = behind;
    }
    None
}

/// The whole reservation block; none where its ending pair does not stand within the total.
fn reservations_block(bytes: &[u8]) -> Option<Block>
    requires header { IsTrue (header_spec bytes.now) }
    requires blocks { IsTrue (blocks_spec bytes.now) }
    ensures { option_map block_view result ≡ reservations_spec bytes.now }
{
    let at = first_pair(bytes).at;
    let count = (total_of_blob(bytes) - at) / PAIR_BYTES;
    let size = reservations_size(count, &bytes[at as usize..])?;
    Some(Block { at, size })
}

/// Whether the reservation block ends within the total and overlaps no other block (5.3).
fn has_reservations(bytes: &[u8]) -> bool
    requires header { IsTrue (header_spec bytes.now) }
    requires blocks { IsTrue (blocks_spec bytes.now) }
    ensures { result ≡ option_map_or (is_apart_from_blocks bytes.now) (reservations_spec bytes.now) false }
{
    let header = Block {
        at: 0,
        size: HEADER_BYTES,
    };
    match reservations_block(bytes) {
        None => false,
        Some(block) => {
            are_apart(block, header)
                && are_apart(block, structure_block(bytes))
                && are_apart(block, strings_block(bytes))
        }
    }
}

/// The bytes of a block.
fn bytes_of_block(block: Block, bytes: &[u8]) -> &[u8]
    requires { block_end (block_view block) ≤ length bytes.now }
    ensures { result.now ≡ bytes_of (block_view block) bytes.now }
{
    let start = block.at as usize;
    &bytes[start..start + block.size as usize]
}

/// The bytes of the structure block.
#[tactic(auto, using(crate::proofs::Placed::structure_within))]
pub(crate) fn structure_of(bytes: &[u8]) -> &[u8]
    requires { HeaderRules bytes.now }
    ensures bytes { result.now ≡ bytes_of (structure_spec bytes.now) bytes.now }
    ensures few { length result.now < 2 ^ 32 }
{
    bytes_of_block(structure_block(bytes), bytes)
}

/// The bytes of the strings block.
#[tactic(auto, using(crate::proofs::Placed::strings_within))]
pub(crate) fn strings_of(bytes: &[u8]) -> &[u8]
    requires { HeaderRules bytes.now }
    ensures { result.now ≡ bytes_of (strings_spec bytes.now) bytes.now }
{
    bytes_of_block(strings_block(bytes), bytes)
}

/// The first place before the structure whose rules break.
pub(crate) fn first_broken(bytes: &[u8]) -> Option<FdtPlace>
    ensures { MatchOption result (HeaderRules bytes.now × ReservationRules bytes.now) (BreaksEarly bytes.now) }
{
    if !has_header(bytes) || !has_blocks(bytes) {
        return Some(FdtPlace::Header);
    }
    if !has_reservations(bytes) {
        return Some(FdtPlace::Reservations);
    }
    None
}
