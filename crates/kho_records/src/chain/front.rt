//! A chunk frame behind others of its chain, read from any bytes.

ghost use Rattle.std.specs.Prelude.{◌≡◌, ◌*◌, ◌<◌, ◌≤◌, IfOk, IfSome, IsTrue, length};
ghost use Rattle.ho_base.specs.Bytes.{u64_at};
ghost use Rattle.ho_base.specs.declared.limits.TheConstants.{PAGE_BYTES};
ghost use Rattle.phys_frames.specs.Memory.{AllHome};
ghost use Rattle.record_frames.specs.Reading.{items_at};
ghost use Rattle.record_frames.specs.Slots.{Gives};
ghost use Rattle.record_frames.specs.Sheeted.{ram_of};
ghost use Rattle.kho_records.specs.Chunks.{elements_view};
ghost use Rattle.kho_records.specs.Fronts.{has_head as head_rule, rise_behind as rise_rule, element_kept, chunk_front_at, front_view};

use crate::chain::element::{are_zero, read_element};
use crate::chain::order::{ElementPlace, rise_behind};
use crate::chain::sheet::ElementRead;
use ho_base::bytes::get_u64;
use phys_frames::Frames;
use record_frames::reading::{Seen, is_frame_number, page_of};
use std::alloc::{AllocError, Global};

/// Where the elements of a chunk frame begin.
const ELEMENTS_AT: usize = 32;

/// How many bytes an element has.
const ELEMENT_BYTES: usize = 528;

/// How many elements a chunk frame has room for.
const ELEMENTS: u64 = 7;

/// What a chunk frame says.
#[derive(Debug, Drop)]
pub(crate) struct ChunkFront {
    /// The number of the next chunk frame, or 0.
    pub(crate) next: u64,
    /// Its elements.
    pub(crate) items: Vec<ElementRead>,
}

/// Whether there are 1 to 7 elements, and the bytes before them that have no meaning are zero.
fn has_head(page: &[u8]) -> bool
    requires { length page.now ≡ PAGE_BYTES }
    ensures exact { result ≡ head_rule page.now }
    ensures few { IsTrue result → u64_at page.now 8 ≤ 7 }
{
    let count = get_u64(page, 8);
    0 < count && count <= ELEMENTS && are_zero(&page[16..ELEMENTS_AT])
}

/// So many elements, where each keeps its rules by itself.
fn read_elements(
    alloc: Global,
    bytes: &[u8],
    count: usize,
    frames: u32,
) -> Result<Option<Vec<ElementRead>>, AllocError>
    requires { 528 * count ≤ length bytes.now }
    ensures { IfOk result (λ r. Gives (λ v. elements_view v.items) r (items_at 528 (element_kept frames) count bytes.now)) }
{
    let mut elements = Vec::new(alloc);
    for i in 0..count {
        let at = ELEMENT_BYTES * i;
        let Some(element) = read_element(alloc, &bytes[at..at + ELEMENT_BYTES], frames)? else {
            return Ok(None);
        };
        elements.push(element)?;
    }
    Ok(Some(elements))
}

/// A chunk frame behind frames that were read, whose last element stands at `last`; none where it breaks a rule.
#[tactic(auto, using(crate::proofs::FrontTests::no_frame, crate::proofs::FrontTests::was_read, crate::proofs::FrontTests::no_head))]
pub(crate) fn chunk_front(
    alloc: Global,
    frames: &Frames,
    last: Option<ElementPlace>,
    seen: &Seen,
    at: u64,
) -> Result<Option<ChunkFront>, AllocError>
    requires home { AllHome frames.now }
    requires count { seen.now.count ≡ length frames.now.pages }
    ensures front { IfOk result (λ r. Gives front_view r (chunk_front_at (ram_of frames.now) last seen.now.numbers at)) }
    ensures within { IfOk result (λ r. IfSome r (λ f. at < seen.now.count)) }
    ensures rises { IfOk result (λ r. IfSome r (λ f. IsTrue (rise_rule last (elements_view f.items.items)))) }
{
    if !is_frame_number(frames, at) {
        return Ok(None);
    }
    if seen.has(at) {
        return Ok(None);
    }
    let page = page_of(frames, at);
    if !has_head(page) {
        return Ok(None);
    }
    let next = get_u64(page, 0);
    let count = get_u64(page, 8);
    match read_elements(alloc, &page[ELEMENTS_AT..], count as usize, frames.count())? {
        None => Ok(None),
        Some(items) => Ok(if rise_behind(last, &items) {
            Some(ChunkFront { next, items })
        } else {
            None
        }),
    }
}
