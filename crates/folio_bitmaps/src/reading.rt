//! Elements of chunk frames that are read.

ghost use Rattle.std.specs.Prelude.{◌≡◌, ℕ, ◌+◌, ◌*◌, ◌/◌, ◌<◌, ◌≤◌, ◌↔◌, IsTrue, MatchOption, length};
ghost use Rattle.ho_base.specs.declared.limits.TheConstants.{PAGE_BYTES};
ghost use Rattle.ho_base.specs.BitmapCount.{bitmap_count, bitmaps_below, cover};
ghost use Rattle.folio_bitmaps.specs.Chunks.{element_at, elements_of, number_of};
ghost use Rattle.folio_bitmaps.specs.Reading.{EndWithin, Follows, GoesOn, HasBitmap, NoneFrom, least_after, put, puts};

use crate::bitmaps::{BITMAP_BYTES, below_order};
use crate::chunks::{BITMAP_AT, CHUNK_ELEMENTS, ELEMENT_BYTES, ELEMENTS_AT};
use ho_base::bytes::get_u64;
use ho_base::limits::{MAX_ORDER, PAGE_BYTES};

/// Whether no bit is set from a number on.
fn none_from(bits: &[u8], from: usize) -> bool
    ensures { IsTrue result ↔ NoneFrom bits.now from }
{
    let first = from / 8;
    if first >= bits.len() {
        return true;
    }
    if bits[first] >> (from % 8) != 0 {
        return false;
    }
    for i in first + 1..bits.len() {
        if bits[i] != 0 {
            return false;
        }
    }
    true
}

/// The number of the bitmap of an order from a base on. None where there is no such bitmap.
fn number_at(frames: u32, order: u64, base: u64) -> Option<u32>
    ensures { MatchOption result (¬ (HasBitmap frames order base)) (λ t. HasBitmap frames order base × (t ≡ bitmaps_below frames order + base / cover order) × (t < bitmap_count frames)) }
{
    if order > MAX_ORDER as u64 || base >= frames as u64 {
        return None;
    }
    let cover = 4096u64 << order;
    if base % cover != 0 {
        return None;
    }
    Some(below_order(frames, order as u8) + (base / cover) as u32)
}

/// Whether the runs of all set bits end within the frames.
fn ends_within(frames: u32, order: u64, base: u64, bits: &[u8]) -> bool
    requires bitmap { HasBitmap frames order base }
    requires size { length bits.now ≡ 512 }
    ensures { IsTrue result ↔ EndWithin frames order base bits.now }
{
    none_from(bits, ((frames as u64 - base) >> order) as usize)
}

/// Takes element `k` into the bitmaps, where its number is at least `least`: gives the number after it. None where the
/// element breaks a rule.
fn read_element(page: &[u8], k: usize, frames: u32, least: u32, bytes: &mut [u8]) -> Option<u32>
    requires size { length page.now ≡ PAGE_BYTES }
    requires element { k < 7 }
    requires room { length bytes.old ≡ 512 * bitmap_count frames }
    ensures { MatchOption result (¬ (Follows frames least (element_at page.now k))) (λ next. Follows frames least (element_at page.now k) × (next ≡ number_of frames (element_at page.now k) + 1) × (bytes.new ≡ put frames bytes.old (element_at page.now k))) }
{
    let at = ELEMENTS_AT + ELEMENT_BYTES * k;
    let base = get_u64(page, at);
    let order = get_u64(page, at + 8);
    let bits = &page[at + BITMAP_AT..at + ELEMENT_BYTES];
    let Some(t) = number_at(frames, order, base) else {
        return None;
    };
    if t < least {
        return None;
    }
    if !ends_within(frames, order, base, bits) {
        return None;
    }
    let start = BITMAP_BYTES * t as usize;
    bytes[start..start + BITMAP_BYTES].copy_from_slice(bits);
    Some(t + 1)
}

/// Takes the elements of a chunk frame into the bitmaps, where their numbers rise from `least` on: gives the number
/// after the last one. None where the frame breaks a rule.
pub(crate) fn read_chunk(page: &[u8], frames: u32, least: u32, bytes: &mut [u8]) -> Option<u32>
    requires size { length page.now ≡ PAGE_BYTES }
    requires room { length bytes.old ≡ 512 * bitmap_count frames }
    ensures { MatchOption result (¬ (GoesOn frames least page.now)) (λ next. GoesOn frames least page.now × (next ≡ least_after frames least (elements_of page.now)) × (bytes.new ≡ puts frames bytes.old (elements_of page.now))) }
{
    let count = get_u64(page, 8);
    if count == 0
        || count > CHUNK_ELEMENTS as u64
        || get_u64(page, 16) != 0
        || get_u64(page, 24) != 0
    {
        return None;
    }
    let mut next = least;
    for k in 0..count as usize {
        match read_element(page, k, frames, next, bytes) {
            Some(after) => next = after,
            None => return None,
        }
    }
    Some(next)
}
