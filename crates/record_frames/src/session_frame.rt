//! Session frames, read from any bytes. In version 1 no other frame follows one.

ghost use Rattle.std.specs.Prelude.{◌≡◌, ◌*◌, ◌<◌, ◌≤◌, IfOk, IfSome, length, map};
ghost use Rattle.ho_base.specs.declared.limits.TheConstants.{PAGE_BYTES};
ghost use Rattle.phys_frames.specs.Memory.{AllHome};
ghost use Rattle.record_frames.specs.Rules.{bytes_before};
ghost use Rattle.record_frames.specs.Reading.{items_at};
ghost use Rattle.record_frames.specs.Slots.{Gives, session_view, session_kept};
ghost use Rattle.record_frames.specs.Fronts.{has_head as head_rule, names_rise as names_rule, session_front_at};
ghost use Rattle.record_frames.specs.Sheeted.{ram_of};

use crate::pages::{is_frame_number, page_of};
use crate::slot_reading::{ReadSession, SLOT_BYTES, are_zero, session_slot};
use ho_base::bytes::get_u64;
use ho_base::limits::OUT_SLOTS;
use phys_frames::Frames;
use std::alloc::{AllocError, Global};

/// Where the slots of a frame begin.
pub(crate) const SLOTS_AT: usize = 128;

/// Whether no frame follows, and the bytes before the slots that have no meaning are zero.
pub(crate) fn has_head(page: &[u8]) -> bool
    requires { length page.now ≡ PAGE_BYTES }
    ensures { result ≡ head_rule page.now }
{
    get_u64(page, 0) == 0 && are_zero(&page[16..SLOTS_AT])
}

/// Whether one name stands before another in the order of bytes.
fn is_before(one: &[u8], other: &[u8]) -> bool
    ensures { result ≡ bytes_before one.now other.now }
{
    match other.split_first() {
        None => false,
        Some((b, others)) => match one.split_first() {
            None => true,
            Some((a, ones)) => *a < *b || (*a == *b && is_before(ones, others)),
        },
    }
}

/// Whether the names rise.
fn names_rise(slots: &[ReadSession]) -> bool
    ensures { result ≡ names_rule (map session_view slots.now) }
{
    match slots {
        [first, rest @ ..] => match rest.first() {
            Some(second) => is_before(first.name.as_bytes(), second.name.as_bytes())
                && names_rise(rest),
            None => true,
        },
        [] => true,
    }
}

/// So many session slots, where each keeps its rules.
fn session_slots(
    alloc: Global,
    bytes: &[u8],
    count: usize,
) -> Result<Option<Vec<ReadSession>>, AllocError>
    requires { 128 * count ≤ length bytes.now }
    ensures { IfOk result (λ r. Gives (λ v. map session_view v.items) r (items_at 128 session_kept count bytes.now)) }
{
    let mut slots = Vec::new(alloc);
    for i in 0..count {
        let at = SLOT_BYTES * i;
        let Some(slot) = session_slot(&bytes[at..at + SLOT_BYTES]) else {
            return Ok(None);
        };
        slots.push(slot)?;
    }
    Ok(Some(slots))
}

/// Reads the slots of the session frame, in their order.
///
/// `Ok(None)`: the frame breaks a rule. Its number isn't that of a frame from 1 on, another frame follows, bytes without
/// a meaning aren't zero, it has more slots than there may be sessions, a slot breaks a rule as in
/// [`crate::reading::session_slot`], or the names don't rise. `Err`: out of memory.
#[tactic(auto, using(crate::proofs::FrontTests::no_frame, crate::proofs::FrontTests::no_head, crate::proofs::FrontTests::with_count))]
pub fn session_front(
    alloc: Global,
    frames: &Frames,
    at: u64,
) -> Result<Option<Vec<ReadSession>>, AllocError>
    requires home { AllHome frames.now }
    ensures front { IfOk result (λ r. Gives (λ v. map session_view v.items) r (session_front_at (ram_of frames.now) at)) }
    ensures within { IfOk result (λ r. IfSome r (λ v. at < length frames.now.pages)) }
{
    if !is_frame_number(frames, at) {
        return Ok(None);
    }
    let page = page_of(frames, at);
    if !has_head(page) {
        return Ok(None);
    }
    let count = get_u64(page, 8);
    if count > u64::from(OUT_SLOTS) {
        return Ok(None);
    }
    match session_slots(alloc, &page[SLOTS_AT..], count as usize)? {
        None => Ok(None),
        Some(slots) => Ok(if names_rise(&slots) {
            Some(slots)
        } else {
            None
        }),
    }
}
