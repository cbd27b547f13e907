//! The chain of chunk frames, read from any bytes.

ghost use Rattle.std.specs.Prelude.{◌<◌, IfOk, length};
ghost use Rattle.std.specs.List.{All};
ghost use Rattle.phys_frames.specs.Memory.{AllHome};
ghost use Rattle.record_frames.specs.Reading.{chunks_at};
ghost use Rattle.record_frames.specs.Slots.{Tells};
ghost use Rattle.record_frames.specs.Sheeted.{ram_of};
ghost use Rattle.kho_records.specs.Chunks.{chunk_views};

use crate::chain::front::chunk_front;
use crate::chain::order::last_place;
use crate::chain::sheet::ChunkSheet;
use phys_frames::Frames;
use record_frames::reading::Seen;
use std::alloc::{AllocError, Global};

/// Reads the chain of chunk frames from the frame `first` on. Each frame is read once, so it costs their bytes and a flag
/// for each frame of the machine.
///
/// `Ok(Err(at))`: `at` is the first number along the chain that breaks a rule. It isn't that of a frame from 1 on, it
/// was read before, it has no element or more than 7, the bytes before its elements that have no meaning aren't zero,
/// an element has no bitmap of its order from its base on or a bit that is set for a run past the frames, or the
/// elements don't rise by order and base over the whole chain. `Err`: out of memory.
pub(crate) fn read_chunks(
    alloc: Global,
    frames: &Frames,
    first: u64,
) -> Result<Result<Vec<ChunkSheet>, u64>, AllocError>
    requires home { AllHome frames.now }
    ensures read { IfOk result (λ r. Tells (λ v. chunk_views v.items) r (chunks_at (ram_of frames.now) first)) }
    ensures within { IfOk result (λ r. IfOk r (λ v. All (λ s. s.at < length frames.now.pages) v.items)) }
{
    let mut seen = Seen::none(alloc, frames.count())?;
    let mut sheets = Vec::new(alloc);
    let mut last = None;
    let mut at = first;
    for _ in 0..frames.count() {
        let Some(front) = chunk_front(alloc, frames, last, &seen, at)? else {
            return Ok(Err(at));
        };
        seen.push(at)?;
        last = last_place(last, &front.items);
        let next = front.next;
        sheets.push(ChunkSheet {
            at,
            items: front.items,
        })?;
        if next == 0 {
            return Ok(Ok(sheets));
        }
        at = next;
    }
    Ok(Err(at))
}
