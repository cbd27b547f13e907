//! The runs of frames that have to be marked: those of the entry frame, the record frames, the bound records and the files.

ghost use Rattle.std.specs.Prelude.{◌≡◌, ◌∷◌, ◌++◌, ◌≤◌, IfOk, IsTrue, map};
ghost use Rattle.std.specs.List.{All, flat_map, list_all};
ghost use Rattle.ho_base.specs.declared.limits.TheConstants.{MAX_ORDER};
ghost use Rattle.ho_events.specs.Lists.{firsts};
ghost use Rattle.record_frames.specs.Kept.{files_of, bound_frames};
ghost use Rattle.record_frames.specs.Owners.{single, given, file_runs};
ghost use Rattle.record_frames.specs.Files.{file_record};
ghost use Rattle.record_frames.specs.Sessions.{session_record};
ghost use Rattle.record_frames.specs.Bounds.{bound_view};
ghost use Rattle.kho_records.specs.Owned.{run_view};
ghost use Rattle.kho_records.specs.Survey.{is_within, all_within};
ghost use Rattle.kho_records.specs.Users.{run_from, frame_of};

use crate::owners::UsedRun;
use ho_base::numbers::Pfn;
use record_frames::CarriedBound;
use record_frames::reading::{FileRead, SessionRead};
use std::alloc::{AllocError, Global};

/// Adds the frame of a bound record, if there is one.
fn add_bound_frame(frames: &mut Vec<Pfn>, bound: &Option<CarriedBound>) -> Result<(), AllocError>
    ensures { IfOk result (λ _. firsts frames.new.items ≡ firsts frames.old.items ++ frame_of bound.now) }
{
    if let Some(bound) = bound {
        frames.push(bound.frame)?;
        return Ok(());
    }
    Ok(())
}

/// The frames that are used by themselves: the entry frame, the record frames with these numbers, and the frames of the
/// bound records, in this order. `Err`: out of memory.
pub(crate) fn single_frames(
    alloc: Global,
    entry: Pfn,
    numbers: &[Pfn],
    bounds: &[Option<CarriedBound>; 4],
) -> Result<Vec<Pfn>, AllocError>
    ensures { IfOk result (λ v. firsts v.items ≡ entry.0 ∷ (firsts numbers.now ++ given (bound_frames (map bound_view bounds.now)))) }
{
    let mut frames = Vec::new(alloc);
    frames.push(entry)?;
    frames.extend_from_slice(numbers)?;
    for bound in bounds {
        add_bound_frame(&mut frames, bound)?;
    }
    Ok(frames)
}

/// Adds the runs of an order that begin at these frames.
fn add_runs(users: &mut Vec<UsedRun>, order: u8, runs: &[Pfn]) -> Result<(), AllocError>
    ensures { IfOk result (λ _. map run_view users.new.items ≡ map run_view users.old.items ++ map (run_from order) (firsts runs.now)) }
{
    for run in runs {
        users.push(UsedRun { first: *run, order })?;
    }
    Ok(())
}

/// Adds the runs of a file.
fn add_file(users: &mut Vec<UsedRun>, file: &FileRead) -> Result<(), AllocError>
    requires { file.now.slot.order ≤ MAX_ORDER }
    ensures { IfOk result (λ _. map run_view users.new.items ≡ map run_view users.old.items ++ file_runs (file_record file.now)) }
{
    let order = file.slot.order as u8;
    for sheet in &file.lists {
        add_runs(users, order, &sheet.runs)?;
    }
    Ok(())
}

/// Adds the runs of files.
fn add_files(users: &mut Vec<UsedRun>, files: &[FileRead]) -> Result<(), AllocError>
    requires { IsTrue (list_all is_within (map file_record files.now)) }
    ensures { IfOk result (λ _. map run_view users.new.items ≡ map run_view users.old.items ++ flat_map file_runs (map file_record files.now)) }
{
    for file in files {
        add_file(users, file)?;
    }
    Ok(())
}

/// All runs that have to be marked: frames by themselves, and the runs of the sessions' files. `Err`: out of memory.
pub(crate) fn used_runs(
    alloc: Global,
    frames: &[Pfn],
    sessions: &[SessionRead],
) -> Result<Vec<UsedRun>, AllocError>
    requires { IsTrue (all_within (map session_record sessions.now)) }
    ensures users { IfOk result (λ v. map run_view v.items ≡ map single (firsts frames.now) ++ flat_map file_runs (flat_map files_of (map session_record sessions.now))) }
    ensures orders { IfOk result (λ v. All (λ u. u.order ≤ MAX_ORDER) v.items) }
{
    let mut users = Vec::new(alloc);
    add_runs(&mut users, 0, frames)?;
    for session in sessions {
        add_files(&mut users, &session.files)?;
    }
    Ok(users)
}
