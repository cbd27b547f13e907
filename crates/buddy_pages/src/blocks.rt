//! Free blocks of a map: which runs they hold, and how they are split and merged.

ghost use Rattle.std.specs.Prelude.{◌≡◌, ◌+◌, ◌-◌, ◌%◌, ◌^◌, ◌<◌, ◌≤◌, ◌↔◌, IsTrue, length, slice_index, true, false};
ghost use Rattle.std.specs.Int.Bits.{bit_xor};
ghost use Rattle.buddy_pages.specs.Blocks.{AreBlocks, free_frames};
ghost use Rattle.buddy_pages.specs.FreeFrames.{NoRunBelow, free_runs, is_free_run, none_free, with_frames};

use crate::page_map::PageMap;
use ho_base::limits::MAX_ORDER;

/// How many frames a run of an order has.
pub(crate) fn run_len(order: u8) -> usize
    requires { order ≤ MAX_ORDER }
    ensures { result ≡ 2 ^ order }
{
    1usize << order
}

/// The last frame up to `frame` that a run of an order may begin at.
pub(crate) fn start_of(frame: usize, order: u8) -> usize
    requires { order ≤ MAX_ORDER }
    ensures { result ≡ frame - frame % 2 ^ order }
{
    frame - frame % run_len(order)
}

/// The run that makes with the one at `first` a run one order higher: it begins at `first xor 2^order`.
fn buddy_of(first: usize, order: u8) -> usize
    requires { order ≤ MAX_ORDER }
    ensures { result ≡ bit_xor first (2 ^ order) }
{
    first ^ run_len(order)
}

/// Whether a run's buddy is a free block, so that the two are to be merged.
fn has_free_buddy(map: &PageMap, first: usize, order: u8) -> bool
    requires { order ≤ MAX_ORDER }
    ensures { IsTrue result ↔ ((order < MAX_ORDER) × (slice_index map.now (bit_xor first (2 ^ order)) ≡ order + 1)) }
{
    if order == MAX_ORDER {
        return false;
    }
    let buddy = buddy_of(first, order);
    buddy < map.len() && map.tag(buddy) == order + 1
}

/// Makes a run free and merges it with its buddy as long as that is free. It costs the orders, not the frames.
pub(crate) fn give_run(map: &mut PageMap, first: usize, order: u8)
    requires blocks { AreBlocks map.old }
    requires order { order ≤ MAX_ORDER }
    requires aligned { first % 2 ^ order ≡ 0 }
    requires within { first + 2 ^ order ≤ length map.old }
    requires later { 0 < first }
    requires taken { IsTrue (none_free (free_frames map.old) first (2 ^ order)) }
    ensures blocks { AreBlocks map.new }
    ensures frames { length map.new ≡ length map.old }
    ensures set { free_frames map.new ≡ with_frames (free_frames map.old) first (2 ^ order) true }
{
    let mut start = first;
    let mut size = order;
    while has_free_buddy(map, start, size) {
        let buddy = buddy_of(start, size);
        map.clear(buddy, size);
        start = start.min(buddy);
        size += 1;
    }
    map.put(start, size);
}

/// The order of the free block that holds a wholly free run.
fn block_order(map: &PageMap, first: usize, order: u8) -> u8
    requires blocks { AreBlocks map.now }
    requires order { order ≤ MAX_ORDER }
    requires run { IsTrue (is_free_run (free_frames map.now) order first) }
    ensures greater { order ≤ result }
    ensures block { slice_index map.now (first - first % 2 ^ result) ≡ result + 1 }
{
    let mut size = order;
    while map.tag(start_of(first, size)) != size + 1 {
        size += 1;
    }
    size
}

/// Takes a run out of the free frames and gives the rest of its block back. It costs the orders, not the frames.
pub(crate) fn take_run(map: &mut PageMap, first: usize, order: u8)
    requires blocks { AreBlocks map.old }
    requires order { order ≤ MAX_ORDER }
    requires run { IsTrue (is_free_run (free_frames map.old) order first) }
    ensures blocks { AreBlocks map.new }
    ensures frames { length map.new ≡ length map.old }
    ensures set { free_frames map.new ≡ with_frames (free_frames map.old) first (2 ^ order) false }
{
    let mut size = block_order(map, first, order);
    map.clear(start_of(first, size), size);
    while size > order {
        size -= 1;
        let half = start_of(first, size);
        give_run(map, buddy_of(half, size), size);
    }
}

/// The first frame from `at` on that begins a wholly free run of an order. None may begin below `at`.
/// It costs the frames between the two, divided by a run's frames.
pub(crate) fn next_run(map: &PageMap, at: usize, order: u8) -> usize
    requires blocks { AreBlocks map.now }
    requires order { order ≤ MAX_ORDER }
    requires aligned { at % 2 ^ order ≡ 0 }
    requires none { NoRunBelow (free_frames map.now) order at }
    requires some { 0 < free_runs (free_frames map.now) order }
    ensures run { IsTrue (is_free_run (free_frames map.now) order result) }
    ensures none { NoRunBelow (free_frames map.now) order result }
    ensures from { at ≤ result }
{
    let mut first = at;
    while map.tag(first) <= order {
        first += run_len(order);
    }
    first
}

/// How many runs of an order are wholly free. It costs the orders, not the frames.
pub(crate) fn count_runs(map: &PageMap, order: u8) -> usize
    requires blocks { AreBlocks map.now }
    requires order { order ≤ MAX_ORDER }
    ensures { result ≡ free_runs (free_frames map.now) order }
{
    let mut size = MAX_ORDER;
    let mut runs = map.blocks(size) as usize;
    while size > order {
        size -= 1;
        runs = map.blocks(size) as usize + 2 * runs;
    }
    runs
}
