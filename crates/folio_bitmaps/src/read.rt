//! Reading the chain of chunk frames.

ghost use Rattle.std.specs.Prelude.{◌≡◌, IfErr, IfOk, length, map};
ghost use Rattle.phys_frames.specs.Memory.{AllHome};
ghost use Rattle.folio_bitmaps.specs.Chain.{HasMarks};
ghost use Rattle.folio_bitmaps.specs.ChainErrors.{Reports};

use crate::bitmaps::{BITMAP_BYTES, ORDERS, below_order};
use crate::chain::{Chain, ChainError};
use crate::reading::read_chunk;
use crate::tracker::Tracker;
use ho_base::bytes::get_u64;
use ho_base::numbers::Pfn;
use phys_frames::Frames;
use std::alloc::Global;

/// Reads the chain from the number of its first chunk frame on. All frames are home. It costs the bytes of the bitmaps
/// and of the chunk frames, also where the chain is a ring: no frame is read twice but the one that is refused.
///
/// The rules: the number of a chunk frame is 1 or more, below the number of frames, and stands once. A chunk frame has 1
/// to 7 elements, and zeros where it has neither numbers nor elements. The order of an element is at most 9, its base a
/// multiple of what its bitmap covers and below the number of frames; order and base rise along the whole chain; a bit
/// that is set stands for a run that ends within the frames. Bytes after the last element of a frame are ignored.
pub fn read_chain(alloc: Global, frames: &Frames, first: u64) -> Result<Chain, ChainError>
    requires { AllHome frames.now }
    ensures frames { IfOk result (λ c. c.tracker.frames ≡ length frames.now.pages) }
    ensures marks { IfOk result (λ c. HasMarks frames.now first (map (λ p. p.0) c.chunks.items) c.tracker.runs) }
    ensures refused { IfErr result (λ e. Reports frames.now first e) }
{
    let count = frames.count();
    let len = BITMAP_BYTES * below_order(count, ORDERS) as usize;
    let Ok(mut bytes) = vec![in alloc; 0u8; len] else {
        return Err(ChainError::Memory);
    };
    let mut chunks = Vec::new(alloc);
    let mut least = 0;
    let mut number = first;
    loop {
        if number == 0 || number >= count as u64 {
            return Err(ChainError::BadChain(number));
        }
        let chunk = Pfn(number as u32);
        let page = frames.page(chunk);
        let Some(after) = read_chunk(page, count, least, &mut bytes) else {
            return Err(ChainError::BadChain(number));
        };
        if chunks.push(chunk).is_err() {
            return Err(ChainError::Memory);
        }
        least = after;
        number = get_u64(page, 0);
        if number == 0 {
            return Ok(Chain {
                tracker: Tracker {
                    frames: count,
                    bytes,
                },
                chunks,
            });
        }
    }
}
