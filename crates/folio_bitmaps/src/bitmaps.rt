//! How many bitmaps there are, and which bit stands for a run.

ghost use Rattle.std.specs.Prelude.{◌≡◌, ◌+◌, ◌*◌, ◌/◌, ◌%◌, ◌^◌, ◌<◌, ◌≤◌, ◌↔◌, IsTrue};
ghost use Rattle.folio_bitmaps.specs.Runs.{run_at, IsRun};
ghost use Rattle.ho_base.specs.BitmapCount.{bitmap_count, bitmaps_below, bitmaps_of, chunk_frames, cover};
ghost use Rattle.folio_bitmaps.specs.Bitmaps.{bit_index};

use crate::chunks::CHUNK_ELEMENTS;
use ho_base::limits::MAX_ORDER;
use ho_base::numbers::{Order, Pfn};

/// How many bits a bitmap has, each of which stands for a run.
pub(crate) const BITS: usize = 4096;

/// How many bytes a bitmap has.
pub(crate) const BITMAP_BYTES: usize = 512;

/// How many orders there are: 0 to [`MAX_ORDER`].
pub(crate) const ORDERS: u8 = 10;

/// How many bitmaps of an order the frames have.
pub(crate) fn of_order(frames: u32, order: u8) -> u32
    requires { order ≤ MAX_ORDER }
    ensures value { result ≡ bitmaps_of frames order }
    ensures few { result ≤ 2 ^ 20 }
{
    let cover = (BITS as u64) << order;
    ((frames as u64 + (cover - 1)) / cover) as u32
}

/// How many bitmaps of all orders below one the frames have.
pub(crate) fn below_order(frames: u32, order: u8) -> u32
    requires { order ≤ ORDERS }
    ensures value { result ≡ bitmaps_below frames order }
    ensures few { result ≤ order * 2 ^ 20 }
{
    let mut count = 0;
    for o in 0..order {
        count += of_order(frames, o);
    }
    count
}

/// How many chunk frames the chain of so many frames has: each but the last has seven bitmaps.
pub fn chunk_count(frames: u32) -> u32
    ensures { result ≡ chunk_frames frames }
{
    below_order(frames, ORDERS).div_ceil(CHUNK_ELEMENTS as u32)
}

/// The number of the bit that stands for a run.
pub(crate) fn bit_of(frames: u32, first: Pfn, order: Order) -> usize
    requires { IsRun frames (run_at first order) }
    ensures { result ≡ bit_index frames (run_at first order) }
{
    BITS * below_order(frames, order.0) as usize + (first.0 >> order.0) as usize
}

/// The order and the base of a bitmap.
#[derive(Debug, Drop)]
pub(crate) struct BitmapKey {
    pub(crate) base: u32,
    pub(crate) order: u8,
}

/// The order and the base of bitmap number `t`.
pub(crate) fn key_of(frames: u32, t: u32) -> BitmapKey
    requires { t < bitmap_count frames }
    ensures small { result.order ≤ MAX_ORDER }
    ensures aligned { result.base % cover result.order ≡ 0 }
    ensures below { result.base < frames }
    ensures number { bitmaps_below frames result.order + result.base / cover result.order ≡ t }
{
    let mut order = 0;
    let mut left = t;
    while left >= of_order(frames, order) {
        left -= of_order(frames, order);
        order += 1;
    }
    BitmapKey {
        base: left * (4096 << order),
        order,
    }
}

/// Whether it is a run of so many frames.
pub(crate) fn is_run_of(frames: u32, first: Pfn, order: Order) -> bool
    ensures { IsTrue result ↔ IsRun frames (run_at first order) }
{
    if order.0 > MAX_ORDER {
        return false;
    }
    let count = 1u32 << order.0;
    first.0 % count == 0 && first.0 <= frames && count <= frames - first.0
}
