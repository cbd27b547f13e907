//! An image's bytes from frames.

ghost use Rattle.std.specs.Prelude.{◌≡◌, ◌+◌, ◌*◌, ◌≤◌, OnOk, OnErr, length, take, drop};
ghost use Rattle.std.specs.List.{flat_map};
ghost use Rattle.ho_base.specs.declared.limits.TheConstants.{PAGE_BYTES, MAX_FRAMES};
ghost use Rattle.ho_io.specs.Told.{Rose, behind};
ghost use Rattle.phys_frames.specs.Memory.{AllHome};
ghost use Rattle.image_file.specs.Image.{image, page_bytes};
ghost use Rattle.image_file.specs.Written.{WrotePart};

use crate::blocks::{BLOCK_BYTES, BLOCK_FRAMES};
use crate::header::header_of;
use ho_base::limits::{MAX_FRAMES, PAGE_BYTES};
use ho_base::numbers::{Failed, Pfn};
use ho_io::{Sink, write_all};
use phys_frames::Frames;
use scratch_area::Handoff;

/// Writes the image of what is handed on: its frames and the number of its entry frame. It takes no memory, and its cost
/// is linear in the bytes.
///
/// # Errors
/// [`Failed`] only where the sink's count of faults rose. A part of the image from its front was written then, and not
/// all of it.
pub fn write_image<S: Sink>(sink: &mut S, handoff: &Handoff) -> Result<(), Failed>
    ensures all { OnOk result (S.written sink.new ≡ behind (S.written sink.old) (image handoff.now.frames.pages handoff.now.entry.0)) }
    ensures part { OnErr result (WrotePart (S.written sink.old) (S.written sink.new) (image handoff.now.frames.pages handoff.now.entry.0)) }
    ensures named { S.name sink.new ≡ S.name sink.old }
    ensures counts { S.faults sink.old ≤ S.faults sink.new }
    ensures cause { OnErr result (Rose (S.faults sink.old) (S.faults sink.new)) }
{
    let header = header_of(handoff.frames.count(), handoff.entry);
    write_all(sink, &header)?;
    write_frames(sink, &handoff.frames)
}

/// Writes the bytes of all frames in order, those of 16 at a time.
fn write_frames<S: Sink>(sink: &mut S, frames: &Frames) -> Result<(), Failed>
    requires { AllHome frames.now }
    ensures all { OnOk result (S.written sink.new ≡ behind (S.written sink.old) (flat_map page_bytes frames.now.pages)) }
    ensures part { OnErr result (WrotePart (S.written sink.old) (S.written sink.new) (flat_map page_bytes frames.now.pages)) }
    ensures named { S.name sink.new ≡ S.name sink.old }
    ensures counts { S.faults sink.old ≤ S.faults sink.new }
    ensures cause { OnErr result (Rose (S.faults sink.old) (S.faults sink.new)) }
{
    let mut block = [0; BLOCK_BYTES];
    let count = frames.count();
    let mut done = 0;
    while done < count {
        let many = BLOCK_FRAMES.min(count - done);
        let len = many as usize * PAGE_BYTES as usize;
        write_run(sink, frames, done, many, &mut block[..len])?;
        done += many;
    }
    Ok(())
}

/// Writes the bytes of a run of frames in one piece.
fn write_run<S: Sink>(
    sink: &mut S,
    frames: &Frames,
    first: u32,
    many: u32,
    block: &mut [u8],
) -> Result<(), Failed>
    requires home { AllHome frames.now }
    requires within { first + many ≤ length frames.now.pages }
    requires few { first + many ≤ MAX_FRAMES }
    requires size { length block.old ≡ many * PAGE_BYTES }
    ensures all { OnOk result (S.written sink.new ≡ behind (S.written sink.old) (flat_map page_bytes (take many (drop first frames.now.pages)))) }
    ensures part { OnErr result (WrotePart (S.written sink.old) (S.written sink.new) (flat_map page_bytes (take many (drop first frames.now.pages)))) }
    ensures named { S.name sink.new ≡ S.name sink.old }
    ensures counts { S.faults sink.old ≤ S.faults sink.new }
    ensures cause { OnErr result (Rose (S.faults sink.old) (S.faults sink.new)) }
{
    gather(frames, first, many, block);
    write_all(sink, block)
}

/// Puts the bytes of a run of frames into a block in order.
fn gather(frames: &Frames, first: u32, many: u32, block: &mut [u8])
    requires home { AllHome frames.now }
    requires within { first + many ≤ length frames.now.pages }
    requires few { first + many ≤ MAX_FRAMES }
    requires size { length block.old ≡ many * PAGE_BYTES }
    ensures { block.new ≡ flat_map page_bytes (take many (drop first frames.now.pages)) }
{
    for i in 0..many {
        let at = i as usize * PAGE_BYTES as usize;
        let page = frames.page(Pfn(first + i));
        block[at..at + PAGE_BYTES as usize].copy_from_slice(page);
    }
}
