//! What frames carry, or the first place whose rules break.

ghost use Rattle.std.specs.Prelude.{◌≡◌, IfErr, IfOk, IsTrue};
ghost use Rattle.std.specs.List.{range_with_len};
ghost use Rattle.ho_events.specs.Lists.{firsts};
ghost use Rattle.phys_frames.specs.Memory.{AllHome};
ghost use Rattle.record_frames.specs.Sheets.{record_numbers};
ghost use Rattle.record_frames.specs.Sessions.{records_view};
ghost use Rattle.record_frames.specs.Kept.{sessions_of};
ghost use Rattle.record_frames.specs.Owners.{first_ill};
ghost use Rattle.record_frames.specs.Carries.{Carries};
ghost use Rattle.record_frames.specs.Reading.{BreakAt};
ghost use Rattle.record_frames.specs.Sheeted.{ram_of};
ghost use Rattle.record_frames.specs.State.{state_in};
ghost use Rattle.kho_records.specs.Owned.{frame_number};
ghost use Rattle.kho_records.specs.Survey.{kept_of, all_within, HasWorking, IsRefused};

use crate::carrying::carried;
use crate::owners::first_ill_frame;
use crate::pages::hold_pages;
use crate::reading::{FramesRead, read_frames};
use crate::users::{single_frames, used_runs};
use ho_base::numbers::Pfn;
use phys_frames::Frames;
use record_frames::laws::law_of_keeping;
use record_frames::{Carried, ImagePlace};
use std::alloc::{AllocError, Global};

/// Why frames were not read.
#[derive(Clone, Copy, Debug, PartialEq)]
pub enum SurveyError {
    /// The frames carry nothing; the first place whose rules break.
    BadImage(ImagePlace),
    /// Out of memory.
    Memory,
}

/// The least of `count` frames that breaks the owners' rule; none where all keep it. `Err`: out of memory.
fn first_ill_of(
    alloc: Global,
    count: u32,
    entry: Pfn,
    read: &FramesRead,
) -> Result<Option<Pfn>, AllocError>
    requires limits { IsTrue (all_within (sessions_of (kept_of entry.0 read.now))) }
    requires numbers { firsts read.now.records.numbers.items ≡ record_numbers (records_view read.now.records) }
    ensures { IfOk result (λ r. frame_number r ≡ first_ill (kept_of entry.0 read.now) (range_with_len 0 count)) }
{
    let frames = single_frames(alloc, entry, &read.records.numbers, &read.bounds)?;
    let users = used_runs(alloc, &frames, &read.records.sessions)?;
    let ill = first_ill_frame(alloc, count, &read.handover.shape, &users, &read.chunks)?;
    Ok(ill)
}

/// What frames carry, or the first place whose rules break. `Err`: out of memory.
fn survey_frames(
    alloc: Global,
    frames: &Frames,
    entry: u64,
) -> Result<Result<Carried, ImagePlace>, AllocError>
    requires home { AllHome frames.now }
    ensures carries { IfOk result (λ r. IfOk r (λ c. Carries (ram_of frames.now) entry (state_in (ram_of frames.now) c))) }
    ensures working { IfOk result (λ r. IfOk r (HasWorking (ram_of frames.now) entry)) }
    ensures refused { IfOk result (λ r. IfErr r (BreakAt (ram_of frames.now) entry)) }
{
    let count = frames.count();
    let read = match read_frames(alloc, frames, entry)? {
        Ok(read) => read,
        Err(place) => return Ok(Err(place)),
    };
    let first = Pfn(entry as u32);
    if let Some(p) = first_ill_of(alloc, count, first, &read)? {
        return Ok(Err(ImagePlace::Owner(p)));
    }
    hold_pages(frames);
    law_of_keeping();
    let answer = carried(alloc, first, read)?;
    Ok(Ok(answer))
}

/// Reads what frames carry, from the entry frame's number on: the entry frame, the chunk frames, the session, file and
/// list frames, the bound records, and then who uses each frame.
///
/// `BadImage`: the frames carry nothing, and this is the first place in that order whose rules break. `Memory`: out of
/// memory. It costs the bytes of the frames that are read, and what [`first_ill_frame`] costs.
pub fn survey(alloc: Global, frames: &Frames, entry: u64) -> Result<Carried, SurveyError>
    requires home { AllHome frames.now }
    ensures carries { IfOk result (λ c. Carries (ram_of frames.now) entry (state_in (ram_of frames.now) c)) }
    ensures working { IfOk result (HasWorking (ram_of frames.now) entry) }
    ensures refused { IfErr result (IsRefused (ram_of frames.now) entry) }
{
    match survey_frames(alloc, frames, entry) {
        Ok(answer) => match answer {
            Ok(carried) => Ok(carried),
            Err(place) => Err(SurveyError::BadImage(place)),
        },
        Err(_) => Err(SurveyError::Memory),
    }
}
