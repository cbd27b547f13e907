//! The list frames of a file, read from any bytes.

ghost use Rattle.std.specs.Prelude.{◌≡◌, ◌++◌, ◌*◌, ◌^◌, ◌<◌, ◌≤◌, IfOk, IfSome, IsTrue, length};
ghost use Rattle.ho_base.specs.declared.limits.TheConstants.{MAX_ORDER};
ghost use Rattle.ho_events.specs.Lists.{firsts};
ghost use Rattle.phys_frames.specs.Memory.{AllHome};
ghost use Rattle.record_frames.specs.Rules.{is_run as run_rule, is_list_sheet};
ghost use Rattle.record_frames.specs.Reading.{chain_at, list_layout};
ghost use Rattle.record_frames.specs.Sheets.{numbers_of};
ghost use Rattle.record_frames.specs.Slots.{Gives, Tells};
ghost use Rattle.record_frames.specs.Sheeted.{ram_of, has_count as count_rule, list_front_at, runs_kept};
ghost use Rattle.record_frames.specs.Lists.{front_view, sheet_views};

use crate::pages::{is_frame_number, page_of};
use crate::seen::Seen;
use ho_base::bytes::get_u64;
use ho_base::numbers::Pfn;
use phys_frames::Frames;
use std::alloc::{AllocError, Global};

/// How many numbers a list frame has room for.
const LISTED: u64 = 510;

/// What a list frame says.
#[derive(Debug, Drop)]
pub(crate) struct ListFront {
    /// The number of the next list frame, or 0.
    pub(crate) next: u64,
    /// The first frames of the runs.
    pub(crate) runs: Vec<Pfn>,
}

/// A list frame with its runs.
#[derive(Debug, Drop)]
pub struct ListSheet {
    /// The frame's number.
    pub at: u64,
    /// The first frames of the runs, from 1 to 510.
    pub runs: Vec<Pfn>,
}

/// Whether a run of this order may begin here: it is aligned, doesn't begin at frame 0, and ends within the frames.
fn is_run(frames: u32, order: u8, first: u64) -> bool
    requires { order ≤ MAX_ORDER }
    ensures exact { result ≡ run_rule frames order first }
    ensures small { IsTrue result → first ≤ frames }
{
    let size = 1u64 << order;
    0 < first
        && first % size == 0
        && first <= u64::from(frames)
        && first + size <= u64::from(frames)
}

/// So many numbers, where each is that of a run.
fn runs_in(
    alloc: Global,
    bytes: &[u8],
    count: usize,
    frames: u32,
    order: u8,
) -> Result<Option<Vec<Pfn>>, AllocError>
    requires there { 8 * count ≤ length bytes.now }
    requires order { order ≤ MAX_ORDER }
    ensures kept { IfOk result (λ r. Gives (λ v. firsts v.items) r (runs_kept frames order count bytes.now)) }
    ensures long { IfOk result (λ r. IfSome r (λ v. length v.items ≡ count)) }
{
    let mut runs = Vec::new(alloc);
    for i in 0..count {
        let first = get_u64(bytes, 8 * i);
        if !is_run(frames, order, first) {
            return Ok(None);
        }
        runs.push(Pfn(first as u32))?;
    }
    Ok(Some(runs))
}

/// Whether a list frame may have so many runs behind `before` others: at least one, only the last frame may have room
/// left, and behind it there are as many as the file has.
fn has_count(count: u64, next: u64, before: u64, folios: u64) -> bool
    requires { before ≤ 2 ^ 32 }
    ensures exact { result ≡ count_rule count next before folios }
    ensures few { IsTrue result → count ≤ 510 }
{
    0 < count
        && count <= LISTED
        && (next == 0 || count == LISTED)
        && (0 < next || before + count == folios)
}

/// A list frame behind record frames that were read and `before` runs; none where it breaks a rule.
#[tactic(auto, using(crate::proofs::ListFronts::no_frame, crate::proofs::ListFronts::was_read, crate::proofs::ListFronts::no_count))]
fn list_front(
    alloc: Global,
    frames: &Frames,
    order: u8,
    folios: u64,
    before: u64,
    seen: &Seen,
    at: u64,
) -> Result<Option<ListFront>, AllocError>
    requires home { AllHome frames.now }
    requires order { order ≤ MAX_ORDER }
    requires before { before ≤ 2 ^ 32 }
    requires count { seen.now.count ≡ length frames.now.pages }
    ensures front { IfOk result (λ r. Gives front_view r (list_front_at (ram_of frames.now) order folios before seen.now.numbers at)) }
    ensures within { IfOk result (λ r. IfSome r (λ f. (at < seen.now.count) × (length f.runs.items ≤ 510))) }
{
    if !is_frame_number(frames, at) {
        return Ok(None);
    }
    if seen.has(at) {
        return Ok(None);
    }
    let page = page_of(frames, at);
    let next = get_u64(page, 0);
    let count = get_u64(page, 8);
    if !has_count(count, next, before, folios) {
        return Ok(None);
    }
    match runs_in(alloc, &page[16..], count as usize, frames.count(), order)? {
        None => Ok(None),
        Some(runs) => Ok(Some(ListFront { next, runs })),
    }
}

/// Reads the list frames of a file of `folios` runs of this order, from the frame `first` on, and notes each in `seen`.
///
/// `Ok(Err(at))`: `at` is the first number along the chain that breaks a rule. It isn't that of a frame from 1 on, it
/// was read before, it has no run or more than 510, it has fewer than 510 although a frame follows, the runs up to the
/// last frame aren't `folios` in all, or a run isn't aligned or isn't within the frames from 1 on. `Err`: out of
/// memory.
pub fn list_chain(
    alloc: Global,
    frames: &Frames,
    order: u8,
    folios: u64,
    seen: &mut Seen,
    first: u64,
) -> Result<Result<Vec<ListSheet>, u64>, AllocError>
    requires home { AllHome frames.now }
    requires order { order ≤ MAX_ORDER }
    requires count { seen.old.count ≡ length frames.now.pages }
    ensures count { seen.new.count ≡ seen.old.count }
    ensures read { IfOk result (λ r. Tells (λ v. sheet_views v.items) r (chain_at (ram_of frames.now) list_layout (is_list_sheet (length frames.now.pages) order folios) seen.old.numbers first)) }
    ensures seen { IfOk result (λ r. IfOk r (λ v. seen.new.numbers ≡ seen.old.numbers ++ numbers_of (sheet_views v.items))) }
{
    let mut sheets = Vec::new(alloc);
    let mut before = 0;
    let mut at = first;
    for _ in 0..frames.count() {
        let Some(front) = list_front(alloc, frames, order, folios, before, seen, at)? else {
            return Ok(Err(at));
        };
        seen.push(at)?;
        before += front.runs.len() as u64;
        let next = front.next;
        sheets.push(ListSheet {
            at,
            runs: front.runs,
        })?;
        if next == 0 {
            return Ok(Ok(sheets));
        }
        at = next;
    }
    Ok(Err(at))
}
