//! Laws of the chain: what is written reads back, reading has one answer, and the bytes of two marks.

ghost use Rattle.std.specs.Prelude.{◌≡◌, ◌<◌, ℕ, List, slice_index};
ghost use Rattle.folio_bitmaps.specs.Runs.{Runs};
ghost use Rattle.folio_bitmaps.specs.Chain.{BreaksAt, HasMarks};
ghost use Rattle.folio_bitmaps.specs.Chunks.{Element};
ghost use Rattle.folio_bitmaps.specs.Examples.{two_runs, two_runs_byte};
ghost use Rattle.folio_bitmaps.specs.Laws.{HoldsChain};
ghost use Rattle.folio_bitmaps.specs.Written.{IsBitmap};

use phys_frames::Frames;

/// A chain as it is written for a set of runs marks exactly this set. Nothing is done.
pub fn written_reads_back(frames: &Frames)
    ensures { (runs : Runs) (chunks : List ℕ) → HoldsChain frames.now runs chunks → HasMarks frames.now (slice_index chunks 0) chunks runs }
{
    let _ = frames.count();
}

/// From a number on there is at most one chain with one set; and there is none where a number breaks a rule. Nothing
/// is done.
pub fn one_answer(_frames: &Frames)
    ensures one { (first : ℕ) (c d : List ℕ) (s t : Runs) → HasMarks _frames.now first c s → HasMarks _frames.now first d t → (c ≡ d) × (s ≡ t) }
    ensures none { (first p : ℕ) (c : List ℕ) (s : Runs) → HasMarks _frames.now first c s → ¬ (BreaksAt _frames.now first p) }
    ensures first { (start p q : ℕ) → BreaksAt _frames.now start p → BreaksAt _frames.now start q → p ≡ q }
{}

/// The bytes of the bitmaps of two runs, frame 9 alone and the four frames from 16 on. Nothing is done.
pub fn worked_bytes()
    ensures { (n t j : ℕ) (e : Element) → IsBitmap n two_runs t e → slice_index e.bits j < 256 → j < 512 → slice_index e.bits j ≡ two_runs_byte e.order e.base j }
{}
