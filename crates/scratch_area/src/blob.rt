//! The program that a kernel is booted from, in frames.

ghost use Rattle.std.specs.Prelude.{◌≡◌, length};
ghost use Rattle.ho_base.specs.declared.limits.TheConstants.{PAGE_BYTES};
ghost use Rattle.ho_base.specs.ScratchNeed.{scratch_need as need_of};
ghost use Rattle.phys_frames.specs.Memory.{IsHome, with_page};
ghost use Rattle.scratch_area.specs.BlobPages.{blob_page, BlobHome, HoldsBlob, OthersStay};

use ho_base::bytes::put_u64;
use ho_base::numbers::{Blob, Pfn};
use ho_base::shape::Shape;
use phys_frames::Frames;

/// How many frames of scratch area 0 a boot of this program uses on a machine of this shape: the program's own.
pub fn scratch_need(_shape: &Shape, blob: Blob) -> u32
    ensures { result ≡ need_of _shape.now blob }
{
    blob.frames
}

/// Loads a program into the frames from `at` on, which are home: frame `i` of it holds the program's version and `i` as
/// numbers of 8 bytes, the lowest byte first, and then zeros. It takes no memory, and costs the bytes that it writes.
pub fn load_blob(frames: &mut Frames, at: Pfn, blob: Blob)
    requires { BlobHome frames.old at blob }
    ensures loaded { HoldsBlob frames.new at blob }
    ensures others { OthersStay frames.old frames.new at blob }
    ensures count { length frames.new.pages ≡ length frames.old.pages }
    ensures home { frames.new.home ≡ frames.old.home }
{
    prove!(at.0 <= frames.count());
    for i in 0..blob.frames {
        load_page(frames, Pfn(at.0 + i), blob.version, i);
    }
}

/// Loads frame `i` of a program into frame `p`.
fn load_page(frames: &mut Frames, p: Pfn, version: u64, i: u32)
    requires { IsHome frames.old p }
    ensures { frames.new ≡ with_page frames.old p (blob_page version i) }
{
    write_page(frames.page_mut(p), version, u64::from(i));
}

/// Writes frame `i` of a program.
fn write_page(page: &mut [u8], version: u64, i: u64)
    requires { length page.old ≡ PAGE_BYTES }
    ensures { page.new ≡ blob_page version i }
{
    page.fill(0);
    put_u64(page, 0, version);
    put_u64(page, 8, i);
}
