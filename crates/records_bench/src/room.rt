//! Tests at run time that folios have room for a state.

ghost use Rattle.std.specs.Prelude.{◌≡◌, ◌+◌, IfSome, IsTrue, Some};
ghost use Rattle.ho_base.specs.BitmapCount.{chunk_frames};
ghost use Rattle.std.specs.List.{sum_by};
ghost use Rattle.record_frames.specs.State.{list_frames, session_frames};
ghost use Rattle.kho_writer.specs.Folios.{HasRoom, front_count};
ghost use Rattle.records_bench.specs.Tests.{EndsWithin, past_runs as past_runs_of, past_files as past_files_of, past_sessions as past_sessions_of, past_folios as past_folios_of, scratch_end as scratch_end_of, last_end as last_end_of};

use crate::checks::can_carry;
use folio_bitmaps::chunk_count;
use ho_base::limits::MAX_ORDER;
use ho_base::numbers::{Order, Pfn};
use ho_base::shape::Area;
use phys_frames::Folio;
use record_frames::{Carried, CarriedFile, CarriedSession};

/// How many numbers a list frame has room for.
const LISTED: usize = 510;

/// How many of so many frames are left where the list frames of files are taken. None where there are too few.
fn after_files(count: usize, files: &[CarriedFile]) -> Option<usize>
    ensures { IfSome result (λ left. left + sum_by list_frames files.now ≡ count) }
{
    let mut left = count;
    for file in files {
        let lists = file.runs.len().div_ceil(LISTED);
        if left < lists {
            return None;
        }
        left -= lists;
    }
    Some(left)
}

/// How many of so many frames are left where the file frames and list frames of sessions are taken. None where there
/// are too few.
fn after_sessions(count: usize, sessions: &[CarriedSession]) -> Option<usize>
    ensures { IfSome result (λ left. left + sum_by session_frames sessions.now ≡ count) }
{
    let mut left = count;
    for session in sessions {
        let files = session.files.as_slice();
        let frames = usize::from(!files.is_empty());
        if left < frames {
            return None;
        }
        let Some(rest) = after_files(left - frames, files) else {
            return None;
        };
        left = rest;
    }
    Some(left)
}

/// Whether so many frames are as many as the entry, the records and the chunk frames take.
#[tactic(auto, using(crate::proofs::RoomSteps::front_is))]
fn has_count(carried: &Carried, count: usize) -> bool
    ensures { IsTrue result → count ≡ front_count carried.now + chunk_frames carried.now.shape.frames }
{
    match after_sessions(count, carried.sessions.as_slice()) {
        None => false,
        Some(left) => 2 <= left && left - 2 == chunk_count(carried.shape.frames()) as usize,
    }
}

/// The frame behind the last of runs, where each begins where the one before it ends, or behind it, and the first at a
/// frame or behind it. None where that isn't so.
#[tactic(auto, unfolding(crate::specs::Tests::past_runs))]
fn past_runs(from: u64, order: Order, runs: &[Pfn]) -> Option<u64>
    ensures { IfSome result (λ end. past_runs_of order.0 from runs.now ≡ Some end) }
{
    if order.0 > MAX_ORDER {
        return None;
    }
    let mut at = from;
    for run in runs {
        let first = u64::from(run.0);
        if first < at {
            return None;
        }
        at = first + (1u64 << order.0);
    }
    Some(at)
}

/// The same for the runs of files.
#[tactic(auto, unfolding(crate::specs::Tests::past_files))]
fn past_files(from: u64, files: &[CarriedFile]) -> Option<u64>
    ensures { IfSome result (λ end. past_files_of from files.now ≡ Some end) }
{
    let mut at = from;
    for file in files {
        let Some(end) = past_runs(at, file.order, file.runs.as_slice()) else {
            return None;
        };
        at = end;
    }
    Some(at)
}

/// The same for the runs of the files of sessions.
#[tactic(auto, unfolding(crate::specs::Tests::past_sessions))]
fn past_sessions(from: u64, sessions: &[CarriedSession]) -> Option<u64>
    ensures { IfSome result (λ end. past_sessions_of from sessions.now ≡ Some end) }
{
    let mut at = from;
    for session in sessions {
        let Some(end) = past_files(at, session.files.as_slice()) else {
            return None;
        };
        at = end;
    }
    Some(at)
}

/// The same for folios. None also where one has more than one frame.
#[tactic(auto, unfolding(crate::specs::Tests::past_folios))]
fn past_folios(from: u64, folios: &[Folio]) -> Option<u64>
    ensures { IfSome result (λ end. past_folios_of from folios.now ≡ Some end) }
{
    let mut at = from;
    for folio in folios {
        let first = u64::from(folio.first().0);
        if folio.order().0 != 0 || first < at {
            return None;
        }
        at = first + 1;
    }
    Some(at)
}

/// The frame behind all scratch areas.
#[tactic(auto, using(crate::proofs::RoomSteps::scratch_some), unfolding(crate::specs::Tests::scratch_end))]
fn scratch_end(areas: &[Area]) -> u64
    ensures { result ≡ scratch_end_of areas.now }
{
    let mut end = 1u64;
    for area in areas {
        end = end.max(u64::from(area.first.0) + u64::from(area.count));
    }
    end
}

/// The frame behind the last folio, where the files' runs stand in order behind the scratch areas, and the folios in
/// order behind these.
fn last_end(carried: &Carried, folios: &[Folio]) -> Option<u64>
    ensures { IfSome result (λ end. last_end_of carried.now folios.now ≡ Some end) }
{
    let start = scratch_end(carried.shape.scratch());
    match past_sessions(start, carried.sessions.as_slice()) {
        None => None,
        Some(end) => past_folios(end, folios),
    }
}

/// Whether the files' runs and the folios stand in order within the frames of the machine.
fn are_in_order(carried: &Carried, folios: &[Folio]) -> bool
    ensures { IsTrue result → EndsWithin carried.now.shape.frames (last_end_of carried.now folios.now) }
{
    match last_end(carried, folios) {
        None => false,
        Some(end) => end <= u64::from(carried.shape.frames()),
    }
}

/// Whether a state of memfds alone can be written into these folios: it can be carried, the folios are as many as it
/// takes, and the files' runs and the folios stand in order. It costs the number of runs and folios.
pub(crate) fn has_room(carried: &Carried, folios: &[Folio]) -> bool
    ensures { IsTrue result → HasRoom carried.now folios.now }
{
    if !can_carry(carried) {
        return false;
    }
    if !has_count(carried, folios.len()) {
        return false;
    }
    are_in_order(carried, folios)
}
