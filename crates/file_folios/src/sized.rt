//! Slots that hold so many bytes.

ghost use Rattle.std.specs.Prelude.{◌≡◌, ◌+◌, ◌-◌, ◌*◌, ◌/◌, ◌^◌, ◌<◌, ◌≤◌, ℕ, [], Some, None, length, max, drop, ◌++◌, take, replicate, option_map, slice_set, MatchOption, vec_len, vec_capacity};
ghost use Rattle.ho_base.specs.declared.limits.TheConstants.{MAX_ORDER, PAGE_BYTES};
ghost use Rattle.ho_events.specs.Lists.{pieces, firsts};
ghost use Rattle.ho_events.specs.File.{filled, overwritten, extended};
ghost use Rattle.phys_frames.specs.Memory.{first_frames};
ghost use Rattle.file_folios.specs.Slots.{slot_at, folios_in, holes_in, all_bytes, runs_in, zeros_from, AreBlank, AreSlots};
ghost use Rattle.file_folios.specs.Sized.{HoldsBytes, bytes_of, places_of};

use crate::slots::{cut, fill_holes, grow, write_range};
use ho_base::limits::PAGE_BYTES;
use ho_base::numbers::{Order, Pfn};
use phys_frames::{Folio, Home};
use std::snapshot::Snapshot;

/// How many bytes an index covers.
pub(crate) fn piece_of(order: Order) -> u32
    requires { order.0 ≤ MAX_ORDER }
    ensures value { result ≡ PAGE_BYTES * 2 ^ order.0 }
    ensures some { 0 < result }
    ensures few { result ≤ 2097152 }
{
    PAGE_BYTES * (1u32 << order.0)
}

/// How many pieces hold so many bytes.
pub(crate) fn pieces_of(count: u32, piece: u32) -> u32
    requires some { 0 < piece }
    requires fits { count + piece < 2 ^ 32 }
    ensures { result ≡ pieces count piece }
{
    (count + (piece - 1)) / piece
}

/// Writes bytes, with folios of zeros for the holes that they touch and indexes up to their end.
pub(crate) fn overwrite(
    slots: &mut Vec<Option<Folio>>,
    home: &Snapshot<Home>,
    order: Order,
    piece: u32,
    size: u32,
    off: u32,
    bytes: &[u8],
    fills: &mut Vec<Folio>,
    runs: &mut Vec<Pfn>,
)
    requires holds { HoldsBytes home.now.value order piece size slots.old.items }
    requires some { 0 < piece }
    requires bytes { 0 < length bytes.now }
    requires fits { (off + length bytes.now) + piece < 2 ^ 32 }
    requires size_fits { size + piece < 2 ^ 32 }
    requires room { pieces (max size (off + length bytes.now)) piece ≤ vec_capacity slots.old }
    requires blank { AreBlank home.now.value order piece fills.old.items }
    requires holes { vec_len fills.old ≡ length (holes_in slots.old.items (places_of piece off (length bytes.now))) }
    requires empty { runs.old.items ≡ [] }
    requires runs_room { vec_len fills.old ≤ vec_capacity runs.old }
    ensures holds { HoldsBytes home.now.value order piece (max size (off + length bytes.now)) slots.new.items }
    ensures bytes { bytes_of piece (max size (off + length bytes.now)) slots.new.items ≡ overwritten off bytes.now (bytes_of piece size slots.old.items) }
    ensures runs { runs_in slots.new.items ≡ filled (holes_in slots.old.items (places_of piece off (length bytes.now))) (firsts runs.new.items) (runs_in slots.old.items) }
    ensures used { runs.new.items ≡ first_frames fills.old.items }
    ensures left { fills.new.items ≡ [] }
    ensures capacity { vec_capacity slots.old ≤ vec_capacity slots.new }
{
    let end = off + bytes.len() as u32;
    let first = off / piece;
    grow(slots, pieces_of(size.max(end), piece));
    fill_holes(
        slots,
        home,
        order,
        piece,
        first,
        pieces_of(end, piece) - first,
        fills,
        runs,
    );
    write_range(slots, home, order, piece, off, bytes);
}

/// Changes the size: with more indexes and zeros, or without the indexes past it, whose folios are given up in rising
/// index with the frames at which they begin.
pub(crate) fn resize(
    slots: &mut Vec<Option<Folio>>,
    home: &Snapshot<Home>,
    order: Order,
    piece: u32,
    size: u32,
    to: u32,
    runs: &mut Vec<Pfn>,
    given: &mut Vec<Folio>,
)
    requires holds { HoldsBytes home.now.value order piece size slots.old.items }
    requires some { 0 < piece }
    requires fits { to + piece < 2 ^ 32 }
    requires room { pieces to piece ≤ vec_capacity slots.old }
    requires runs_room { vec_len runs.old + length (folios_in (drop (pieces to piece) slots.old.items)) ≤ vec_capacity runs.old }
    requires given_room { vec_len given.old + length (folios_in (drop (pieces to piece) slots.old.items)) ≤ vec_capacity given.old }
    ensures holds { HoldsBytes home.now.value order piece to slots.new.items }
    ensures bytes { bytes_of piece to slots.new.items ≡ take to (extended to (bytes_of piece size slots.old.items)) }
    ensures left { runs_in slots.new.items ≡ runs_in (take (pieces to piece) slots.old.items) }
    ensures runs { runs.new.items ≡ runs.old.items ++ first_frames (folios_in (drop (pieces to piece) slots.old.items)) }
    ensures given { given.new.items ≡ given.old.items ++ folios_in (drop (pieces to piece) slots.old.items) }
    ensures capacity { vec_capacity slots.old ≤ vec_capacity slots.new }
{
    let count = pieces_of(to, piece);
    if to >= size {
        grow(slots, count);
    } else {
        cut(slots, count as usize, runs, given);
        clear_past(slots, home, order, piece, to);
    }
}

/// Makes the bytes past a size zero, which is in the last index.
pub(crate) fn clear_past(
    slots: &mut Vec<Option<Folio>>,
    home: &Snapshot<Home>,
    order: Order,
    piece: u32,
    to: u32,
)
    requires slots { AreSlots home.now.value order piece slots.old.items }
    requires some { 0 < piece }
    requires count { vec_len slots.old ≡ pieces to piece }
    requires fits { to + piece < 2 ^ 32 }
    ensures bytes { all_bytes piece slots.new.items ≡ extended (length slots.old.items * piece) (take to (all_bytes piece slots.old.items)) }
    ensures runs { runs_in slots.new.items ≡ runs_in slots.old.items }
    ensures slots { AreSlots home.now.value order piece slots.new.items }
    ensures count { vec_len slots.new ≡ vec_len slots.old }
    ensures capacity { vec_capacity slots.new ≡ vec_capacity slots.old }
{
    let at = to % piece;
    if (to as u64) < slots.len() as u64 * piece as u64 {
        zero_from(slots, (to / piece) as usize, at as usize);
    }
}

/// Makes the bytes of a folio, where there is one at an index, zero from a byte on.
fn zero_from(slots: &mut Vec<Option<Folio>>, index: usize, at: usize)
    requires within { index < vec_len slots.old }
    requires fits { MatchOption (slot_at slots.old.items index) (Unit {0}) (λ f. at ≤ length f.bytes) }
    ensures value { slots.new.items ≡ slice_set slots.old.items index (option_map (λ f. zeros_from f at) (slot_at slots.old.items index)) }
    ensures count { vec_len slots.new ≡ vec_len slots.old }
    ensures capacity { vec_capacity slots.new ≡ vec_capacity slots.old }
{
    match &mut slots[index] {
        None => {}
        Some(folio) => clear_from(folio, at),
    }
}

/// Makes the bytes of a folio zero from a byte on.
fn clear_from(folio: &mut Folio, at: usize)
    requires { at ≤ length folio.old.bytes }
    ensures { folio.new ≡ zeros_from folio.old at }
{
    clear(&mut folio.bytes_mut()[at..]);
}

/// Makes bytes zero.
fn clear(bytes: &mut [u8])
    ensures { bytes.new ≡ replicate (length bytes.old) 0 }
{
    bytes.fill(0);
}
