//! Frames hold pages of bytes.

ghost use Rattle.std.specs.Prelude.{ℕ, ◌<◌, get_or};
ghost use Rattle.phys_frames.specs.Memory.{AllHome};
ghost use Rattle.record_frames.specs.Laws.{Holds};
ghost use Rattle.record_frames.specs.Sheeted.{ram_of};

use ho_base::numbers::Pfn;
use phys_frames::Frames;

/// What a slice of bytes has are bytes. Nothing is done.
fn are_bytes(page: &[u8])
    ensures { (i : ℕ) → get_or page.now i 0 < 256 }
{}

/// Each frame holds a page of bytes: all frames are home. Only where the pages stand is looked at, and no byte of them.
pub fn hold_pages(frames: &Frames)
    requires home { AllHome frames.now }
    ensures { Holds (ram_of frames.now) }
{
    for p in 0..frames.count() {
        are_bytes(frames.page(Pfn(p)));
    }
}
