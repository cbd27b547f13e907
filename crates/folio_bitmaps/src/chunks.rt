//! Chunk frames: how bitmaps stand in their bytes.

ghost use Rattle.std.specs.Prelude.{◌≡◌, ℕ, ◌+◌, ◌*◌, ◌/◌, ◌%◌, ◌<◌, ◌≤◌, length, take, drop};
ghost use Rattle.std.specs.FinSet as set;
ghost use Rattle.ho_base.specs.declared.limits.TheConstants.{PAGE_BYTES};
ghost use Rattle.phys_frames.specs.Memory.{with_bytes};
ghost use Rattle.folio_bitmaps.specs.Runs.{Runs};
ghost use Rattle.ho_base.specs.BitmapCount.{bitmap_count};
ghost use Rattle.folio_bitmaps.specs.Bitmaps.{AreBitmaps, runs_of};
ghost use Rattle.folio_bitmaps.specs.Chunks.{element_at, start_of};
ghost use Rattle.folio_bitmaps.specs.Written.{IsBitmap, IsWritten};

use crate::bitmaps::{BITMAP_BYTES, ORDERS, below_order, key_of};
use ho_base::bytes::put_u64;
use ho_base::limits::PAGE_BYTES;
use ho_base::numbers::Pfn;
use phys_frames::Folio;

/// How many elements a chunk frame has room for.
pub(crate) const CHUNK_ELEMENTS: usize = 7;

/// The next of a chunk frame that has none after it.
pub(crate) const NO_NEXT: u64 = 0;

/// The byte of a chunk frame at which its elements begin.
pub(crate) const ELEMENTS_AT: usize = 32;

/// How many bytes an element has.
pub(crate) const ELEMENT_BYTES: usize = 528;

/// How many bytes of an element stand before its bitmap.
pub(crate) const BITMAP_AT: usize = 16;

/// Writes bitmap number `t` as element `k`.
fn write_element(bytes: &[u8], frames: u32, t: usize, k: usize, page: &mut [u8])
    requires bitmaps { AreBitmaps frames bytes.now }
    requires size { length page.old ≡ PAGE_BYTES }
    requires number { t < bitmap_count frames }
    requires element { k < 7 }
    ensures size { length page.new ≡ PAGE_BYTES }
    ensures element { IsBitmap frames (runs_of frames bytes.now) t (element_at page.new k) }
    ensures before { take (start_of k) page.new ≡ take (start_of k) page.old }
    ensures after { drop (start_of (k + 1)) page.new ≡ drop (start_of (k + 1)) page.old }
{
    let key = key_of(frames, t as u32);
    let at = ELEMENTS_AT + ELEMENT_BYTES * k;
    put_u64(page, at, key.base as u64);
    put_u64(page, at + 8, key.order as u64);
    let bitmap = &bytes[BITMAP_BYTES * t..BITMAP_BYTES * t + BITMAP_BYTES];
    page[at + BITMAP_AT..at + ELEMENT_BYTES].copy_from_slice(bitmap);
}

/// Writes chunk frame `i`: `next` is the number of the one after it.
fn write_page(bytes: &[u8], frames: u32, i: usize, next: u64, page: &mut [u8])
    requires bitmaps { AreBitmaps frames bytes.now }
    requires size { length page.old ≡ PAGE_BYTES }
    requires chunk { 7 * i < bitmap_count frames }
    ensures { IsWritten frames (runs_of frames bytes.now) i next page.new }
{
    page.fill(0);
    put_u64(page, 0, next);
    let count = (below_order(frames, ORDERS) as usize - CHUNK_ELEMENTS * i).min(CHUNK_ELEMENTS);
    put_u64(page, 8, count as u64);
    for k in 0..count {
        write_element(bytes, frames, CHUNK_ELEMENTS * i + k, k, page);
    }
}

/// Writes chunk frame `i`: `next` is the number of the one after it.
pub(crate) fn write_chunk(bytes: &[u8], frames: u32, i: usize, next: u64, folio: &mut Folio)
    requires bitmaps { AreBitmaps frames bytes.now }
    requires order { folio.old.order.0 ≡ 0 }
    requires chunk { 7 * i < bitmap_count frames }
    ensures same { folio.new ≡ with_bytes folio.old folio.new.bytes }
    ensures written { IsWritten frames (runs_of frames bytes.now) i next folio.new.bytes }
{
    write_page(bytes, frames, i, next, folio.bytes_mut());
}

/// Sets the bit of a frame at order 0 in the chunk frame that has it.
fn mark_page(frames: u32, frame: Pfn, page: &mut [u8])
    requires frame { frame.0 < frames }
    requires size { length page.old ≡ PAGE_BYTES }
    ensures { (runs : Runs) (next : ℕ) → IsWritten frames runs (frame.0 / 4096 / 7) next page.old → IsWritten frames (set.insert runs (record { first = frame.0; order = 0 })) (frame.0 / 4096 / 7) next page.new }
{
    let k = frame.0 as usize / 4096 % CHUNK_ELEMENTS;
    let bit = frame.0 as usize % 4096;
    page[ELEMENTS_AT + ELEMENT_BYTES * k + BITMAP_AT + bit / 8] |= 1 << (bit % 8);
}

/// Sets the bit of a frame at order 0 in the chunk frame that has it.
pub(crate) fn mark_chunk(frames: u32, frame: Pfn, folio: &mut Folio)
    requires frame { frame.0 < frames }
    requires order { folio.old.order.0 ≡ 0 }
    ensures same { folio.new ≡ with_bytes folio.old folio.new.bytes }
    ensures marked { (runs : Runs) (next : ℕ) → IsWritten frames runs (frame.0 / 4096 / 7) next folio.old.bytes → IsWritten frames (set.insert runs (record { first = frame.0; order = 0 })) (frame.0 / 4096 / 7) next folio.new.bytes }
{
    mark_page(frames, frame, folio.bytes_mut());
}
