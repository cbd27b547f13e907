//! File frames, read from any bytes. In version 1 no other frame follows one.

ghost use Rattle.std.specs.Prelude.{◌≡◌, ◌+◌, ◌*◌, ◌<◌, ◌≤◌, IfOk, IfSome, IsTrue, length, map};
ghost use Rattle.std.specs.List.{All};
ghost use Rattle.ho_base.specs.declared.limits.TheConstants.{MAX_ORDER};
ghost use Rattle.phys_frames.specs.Memory.{AllHome};
ghost use Rattle.record_frames.specs.Reading.{items_at};
ghost use Rattle.record_frames.specs.Slots.{Gives, kept_if, file_view, file_kept};
ghost use Rattle.record_frames.specs.Fronts.{has_slots as slots_rule, tokens_rise as tokens_rule, file_front_at};
ghost use Rattle.record_frames.specs.Sheeted.{ram_of};

use crate::pages::{is_frame_number, page_of};
use crate::seen::Seen;
use crate::session_frame::{SLOTS_AT, has_head};
use crate::slot_reading::{ReadFile, SLOT_BYTES, file_slot};
use ho_base::bytes::get_u64;
use ho_base::limits::{FILES, SESSION_FILES};
use phys_frames::Frames;
use std::alloc::{AllocError, Global};

/// Whether a file frame has as many slots as the session has files, and the files are not too many in the session and,
/// with `before` files of other sessions, in all.
fn has_slots(count: u64, before: u64, files: u64) -> bool
    requires { before ≤ FILES }
    ensures exact { result ≡ slots_rule count before files }
    ensures few { IsTrue result → before + files ≤ FILES }
    ensures some { IsTrue result → files ≤ 31 }
{
    count == files && files <= u64::from(SESSION_FILES) && before + files <= u64::from(FILES)
}

/// Whether the tokens rise.
fn tokens_rise(slots: &[ReadFile]) -> bool
    ensures { result ≡ tokens_rule (map file_view slots.now) }
{
    match slots {
        [first, rest @ ..] => match rest.first() {
            Some(second) => first.token < second.token && tokens_rise(rest),
            None => true,
        },
        [] => true,
    }
}

/// So many file slots, where each keeps its rules.
fn file_slots(
    alloc: Global,
    bytes: &[u8],
    count: usize,
) -> Result<Option<Vec<ReadFile>>, AllocError>
    requires { 128 * count ≤ length bytes.now }
    ensures kept { IfOk result (λ r. Gives (λ v. map file_view v.items) r (items_at 128 file_kept count bytes.now)) }
    ensures orders { IfOk result (λ r. IfSome r (λ v. All (λ f. f.order ≤ MAX_ORDER) v.items)) }
{
    let mut slots = Vec::new(alloc);
    for i in 0..count {
        let at = SLOT_BYTES * i;
        let Some(slot) = file_slot(&bytes[at..at + SLOT_BYTES]) else {
            return Ok(None);
        };
        slots.push(slot)?;
    }
    Ok(Some(slots))
}

/// So many file slots in rising tokens, where each keeps its rules.
fn rising_slots(
    alloc: Global,
    bytes: &[u8],
    count: usize,
) -> Result<Option<Vec<ReadFile>>, AllocError>
    requires { 128 * count ≤ length bytes.now }
    ensures kept { IfOk result (λ r. Gives (λ v. map file_view v.items) r (kept_if tokens_rule (items_at 128 file_kept count bytes.now))) }
    ensures orders { IfOk result (λ r. IfSome r (λ v. All (λ f. f.order ≤ MAX_ORDER) v.items)) }
{
    match file_slots(alloc, bytes, count)? {
        None => Ok(None),
        Some(slots) => Ok(if tokens_rise(&slots) {
            Some(slots)
        } else {
            None
        }),
    }
}

/// Reads the slots of the file frame of a session with so many files, in their order, after `before` files of other
/// sessions.
///
/// `Ok(None)`: the frame breaks a rule. Its number isn't that of a frame from 1 on, it was read before, another frame
/// follows, bytes without a meaning aren't zero, it hasn't as many slots as the session has files, these are too many
/// for a session or, with those before, in all, a slot breaks a rule as in [`crate::reading::file_slot`], or the tokens
/// don't rise. `Err`: out of memory.
#[tactic(auto, using(crate::proofs::FileTests::no_frame, crate::proofs::FileTests::was_read, crate::proofs::FileTests::no_head, crate::proofs::FileTests::no_slots))]
pub fn file_front(
    alloc: Global,
    frames: &Frames,
    seen: &Seen,
    before: u64,
    files: u64,
    at: u64,
) -> Result<Option<Vec<ReadFile>>, AllocError>
    requires home { AllHome frames.now }
    requires count { seen.now.count ≡ length frames.now.pages }
    requires before { before ≤ FILES }
    ensures front { IfOk result (λ r. Gives (λ v. map file_view v.items) r (file_front_at (ram_of frames.now) before files seen.now.numbers at)) }
    ensures orders { IfOk result (λ r. IfSome r (λ v. All (λ f. f.order ≤ MAX_ORDER) v.items)) }
    ensures within { IfOk result (λ r. IfSome r (λ v. (0 < at) × (at < seen.now.count) × (before + files ≤ FILES))) }
{
    if !is_frame_number(frames, at) {
        return Ok(None);
    }
    if seen.has(at) {
        return Ok(None);
    }
    let page = page_of(frames, at);
    if !has_head(page) {
        return Ok(None);
    }
    if !has_slots(get_u64(page, 8), before, files) {
        return Ok(None);
    }
    rising_slots(alloc, &page[SLOTS_AT..], files as usize)
}
