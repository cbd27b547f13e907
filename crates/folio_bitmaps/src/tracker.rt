//! The tracker: the runs of a machine that are marked.

ghost use Rattle.std.specs.Prelude.{◌≡◌, ℕ, ◌+◌, ◌/◌, ◌<◌, All, IfOk, IsTrue, length, slice_index_or};
ghost use Rattle.std.specs.FinSet as set;
ghost use Rattle.phys_frames.specs.Memory.{FolioValue, with_bytes};
ghost use Rattle.folio_bitmaps.specs.Runs.{run_at, IsRun, Run};
ghost use Rattle.ho_base.specs.BitmapCount.{chunk_frames};
ghost use Rattle.folio_bitmaps.specs.Written.{IsWritten, next_first, with_frames};

use crate::bitmaps::{BITMAP_BYTES, ORDERS, below_order, bit_of, is_run_of};
use crate::chunks::{CHUNK_ELEMENTS, NO_NEXT, mark_chunk, write_chunk};
use ho_base::numbers::{NoMemory, Order, Pfn};
use phys_frames::Folio;
use std::alloc::Global;
use std::marker::Model;

/// The runs of a machine's frames that are marked, of the orders 0 to 9. Contracts see how many frames the machine has
/// and a set of runs, each by its first frame and its order.
///
/// It keeps a bit for each run that there can be, in the order in which the chain has them: a mark costs the same for
/// any number of frames.
#[derive(Debug, Drop)]
pub struct Tracker {
    pub(crate) frames: u32,
    pub(crate) bytes: Vec<u8>,
}

impl Model for Tracker {
    ghost use Rattle.folio_bitmaps.specs.Runs.{Marks, marks_code};
    ghost use Rattle.folio_bitmaps.specs.Bitmaps.{runs_of, AreBitmaps};

    ghost Value = { Marks };

    ghost coded = { marks_code };

    ghost view = { λ t. record { frames = t.frames; runs = runs_of t.frames t.bytes.items } };

    ghost invariant = { λ t. AreBitmaps t.frames t.bytes.items };
}

impl Tracker {
    /// A tracker of so many frames with no run marked. All its memory is taken here: [`NoMemory`] where it can't be had.
    pub fn new(alloc: Global, frames: u32) -> Result<Tracker, NoMemory>
        ensures { IfOk result (λ t. t ≡ record { frames = frames; runs = set.empty }) }
    {
        let len = BITMAP_BYTES * below_order(frames, ORDERS) as usize;
        match vec![in alloc; 0u8; len] {
            Ok(bytes) => Ok(Tracker { frames, bytes }),
            Err(_) => Err(NoMemory),
        }
    }

    /// Marks a run: it begins at a multiple of its frames and ends within the machine's. A run that is marked stays so.
    /// It takes no memory.
    pub fn mark(&mut self, first: Pfn, order: Order)
        requires run { IsRun self.old.frames (run_at first order) }
        ensures { self.new ≡ record self.old { runs = set.insert self.old.runs (run_at first order) } }
    {
        let bit = bit_of(self.frames, first, order);
        self.bytes[bit / 8] |= 1 << (bit % 8);
    }

    /// Takes the mark off a run that has one. It takes no memory.
    pub fn unmark(&mut self, first: Pfn, order: Order)
        requires marked { IsTrue (set.contains self.old.runs (run_at first order)) }
        ensures { self.new ≡ record self.old { runs = set.remove self.old.runs (run_at first order) } }
    {
        let bit = bit_of(self.frames, first, order);
        self.bytes[bit / 8] &= !(1 << (bit % 8));
    }

    /// Whether a run is marked. What isn't a run of these frames isn't.
    pub fn has(&self, first: Pfn, order: Order) -> bool
        ensures { result ≡ set.contains self.now.runs (run_at first order) }
    {
        let frames = self.frames;
        if !is_run_of(frames, first, order) {
            return false;
        }
        let bit = bit_of(frames, first, order);
        (self.bytes[bit / 8] >> (bit % 8)) & 1 == 1
    }

    /// Writes the chain into folios of one frame, [`chunk_count`](crate::chunk_count) of them, in their order. It marks
    /// the runs of this tracker and each extra frame, which is one of the machine's, as a run of order 0. The folios
    /// keep all but their bytes. It takes no memory, and costs the bytes of the folios and a bit for each extra frame.
    pub fn write_chain(&self, extra: &[Pfn], folios: &mut [Folio])
        requires count { length folios.old ≡ chunk_frames self.now.frames }
        requires orders { All (λ f. f.order.0 ≡ 0) folios.old }
        requires extra { All (λ p. p.0 < self.now.frames) extra.now }
        ensures members { (r : Run) → IsTrue (set.contains (with_frames self.now.runs extra.now) r) → IsRun self.now.frames r }
        ensures same { (i : ℕ) → i < length folios.old → (d : FolioValue) → slice_index_or folios.new i d ≡ with_bytes (slice_index_or folios.old i d) (slice_index_or folios.new i d).bytes }
        ensures written { (i : ℕ) → i < length folios.old → (d : FolioValue) → IsWritten self.now.frames (with_frames self.now.runs extra.now) i (next_first folios.old i) (slice_index_or folios.new i d).bytes }
    {
        let count = folios.len();
        for i in 0..count {
            let next = if i + 1 < count {
                folios[i + 1].first().0 as u64
            } else {
                NO_NEXT
            };
            write_chunk(&self.bytes, self.frames, i, next, &mut folios[i]);
        }
        for p in extra {
            mark_chunk(
                self.frames,
                *p,
                &mut folios[p.0 as usize / 4096 / CHUNK_ELEMENTS],
            );
        }
    }
}
