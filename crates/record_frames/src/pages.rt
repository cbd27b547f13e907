//! Frames by their numbers, as bytes have them.

ghost use Rattle.std.specs.Prelude.{◌≡◌, ◌<◌, ◌^◌, IsTrue, length};
ghost use Rattle.ho_base.specs.declared.limits.TheConstants.{PAGE_BYTES};
ghost use Rattle.phys_frames.specs.Memory.{AllHome};
ghost use Rattle.record_frames.specs.Ram.{is_frame};
ghost use Rattle.record_frames.specs.Sheeted.{page_of as page_rule};

use ho_base::numbers::Pfn;
use phys_frames::Frames;

/// Whether a number, as records have them, is that of a frame from 1 on: frame 0 holds no records.
pub fn is_frame_number(frames: &Frames, p: u64) -> bool
    ensures exact { result ≡ is_frame (length frames.now.pages) p }
    ensures small { IsTrue result → p < 2 ^ 32 }
{
    0 < p && p < u64::from(frames.count())
}

/// The 4096 bytes of a frame from 1 on; all frames are home.
pub fn page_of(frames: &Frames, p: u64) -> &[u8]
    requires home { AllHome frames.now }
    requires frame { IsTrue (is_frame (length frames.now.pages) p) }
    requires small { p < 2 ^ 32 }
    ensures value { result.now ≡ page_rule frames.now p }
    ensures len { length result.now ≡ PAGE_BYTES }
{
    frames.page(Pfn(p as u32))
}
