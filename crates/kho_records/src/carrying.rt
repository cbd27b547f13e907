//! What is carried, from what was read.

ghost use Rattle.std.specs.Prelude.{◌≡◌, ◌∷◌, ◌++◌, ◌^◌, ◌<◌, ◌≤◌, IfOk, IsTrue, map};
ghost use Rattle.std.specs.List.{All, list_all};
ghost use Rattle.ho_base.specs.declared.limits.TheConstants.{MAX_ORDER, FILE_BYTES};
ghost use Rattle.ho_events.specs.Lists.{firsts};
ghost use Rattle.record_frames.specs.Ram.{Ram};
ghost use Rattle.record_frames.specs.Sheets.{items_of, numbers_of};
ghost use Rattle.record_frames.specs.Kept.{devices, carried_file as file_rule, carried_session as session_rule, carried as carried_rule, sessions_of};
ghost use Rattle.record_frames.specs.Lists.{sheet_views};
ghost use Rattle.record_frames.specs.Files.{file_record};
ghost use Rattle.record_frames.specs.Sessions.{session_record};
ghost use Rattle.record_frames.specs.Bounds.{bound_view};
ghost use Rattle.record_frames.specs.State.{file_in, session_in, bound_among, state_in};
ghost use Rattle.kho_records.specs.Chunks.{chunk_views};
ghost use Rattle.kho_records.specs.Survey.{kept_of, is_within, all_within};
ghost use Rattle.kho_records.specs.Users.{of_kind};

use crate::chain::ChunkSheet;
use crate::reading::FramesRead;
use ho_base::Items;
use ho_base::numbers::{Kind, Order, Pfn, Token};
use record_frames::reading::{FileRead, ListSheet, SessionRead};
use record_frames::{Carried, CarriedBound, CarriedFile, CarriedSession};
use std::alloc::{AllocError, Global};

/// The runs of a file, in order of its bytes.
fn carried_runs(alloc: Global, lists: &[ListSheet]) -> Result<Items<Pfn>, AllocError>
    ensures { IfOk result (λ v. firsts v ≡ items_of (sheet_views lists.now)) }
{
    let mut runs = Vec::new(alloc);
    for sheet in lists {
        runs.extend_from_slice(&sheet.runs)?;
    }
    Ok(Items::from_vec(runs))
}

/// A file.
fn carried_file(alloc: Global, file: &FileRead) -> Result<CarriedFile, AllocError>
    requires order { file.now.slot.order ≤ MAX_ORDER }
    requires size { file.now.slot.size ≤ FILE_BYTES }
    requires position { file.now.slot.position ≤ FILE_BYTES }
    ensures { IfOk result (λ f. (ram : Ram) → file_in ram f ≡ file_rule ram (file_record file.now)) }
{
    let slot = file.slot;
    let runs = carried_runs(alloc, &file.lists)?;
    Ok(CarriedFile {
        token: Token(slot.token),
        kind: slot.kind,
        order: Order(slot.order as u8),
        size: slot.size as u32,
        position: slot.position as u32,
        handle: slot.handle,
        runs,
    })
}

/// The files of a session.
fn carried_files(alloc: Global, files: &[FileRead]) -> Result<Items<CarriedFile>, AllocError>
    requires { IsTrue (list_all is_within (map file_record files.now)) }
    ensures { IfOk result (λ v. (ram : Ram) → map (file_in ram) v ≡ map (file_rule ram) (map file_record files.now)) }
{
    let mut carried = Vec::new(alloc);
    for file in files {
        let one = carried_file(alloc, file)?;
        carried.push(one)?;
    }
    Ok(Items::from_vec(carried))
}

/// The sessions.
fn carried_sessions(
    alloc: Global,
    sessions: &[SessionRead],
) -> Result<Items<CarriedSession>, AllocError>
    requires { IsTrue (all_within (map session_record sessions.now)) }
    ensures { IfOk result (λ v. (ram : Ram) → map (session_in ram) v ≡ map (session_rule ram) (map session_record sessions.now)) }
{
    let mut carried = Vec::new(alloc);
    for session in sessions {
        let files = carried_files(alloc, &session.files)?;
        carried.push(CarriedSession {
            name: session.name,
            files,
        })?;
    }
    Ok(Items::from_vec(carried))
}

/// Adds the bound record of a kind, if there is one.
fn add_bound(
    bounds: &mut Vec<CarriedBound>,
    kind: Kind,
    bound: &Option<CarriedBound>,
) -> Result<(), AllocError>
    ensures { IfOk result (λ _. bounds.new.items ≡ bounds.old.items ++ of_kind kind bound.now) }
{
    if let Some(given) = bound {
        bounds.push(CarriedBound {
            kind,
            frame: given.frame,
            bound: given.bound,
        })?;
        return Ok(());
    }
    Ok(())
}

/// The bound records that are there, in order of kinds.
fn carried_bounds(
    alloc: Global,
    given: &[Option<CarriedBound>; 4],
) -> Result<Items<CarriedBound>, AllocError>
    ensures { IfOk result (λ v. map (bound_among v) devices ≡ map bound_view given.now) }
{
    let mut bounds = Vec::new(alloc);
    add_bound(&mut bounds, Kind::Dev0, &given[0])?;
    add_bound(&mut bounds, Kind::Dev1, &given[1])?;
    add_bound(&mut bounds, Kind::Dev2, &given[2])?;
    add_bound(&mut bounds, Kind::Dev3, &given[3])?;
    Ok(Items::from_vec(bounds))
}

/// The frames of the records themselves: the entry frame, the record frames with these numbers, and the chunk frames.
fn working_frames(
    alloc: Global,
    entry: Pfn,
    numbers: &[Pfn],
    chunks: &[ChunkSheet],
) -> Result<Items<Pfn>, AllocError>
    requires { All (λ s. s.at < 2 ^ 32) chunks.now }
    ensures { IfOk result (λ v. firsts v ≡ entry.0 ∷ (firsts numbers.now ++ numbers_of (chunk_views chunks.now))) }
{
    let mut working = Vec::new(alloc);
    working.push(entry)?;
    working.extend_from_slice(numbers)?;
    for chunk in chunks {
        working.push(Pfn(chunk.at as u32))?;
    }
    Ok(Items::from_vec(working))
}

/// What is carried, from all that was read; the entry frame's number is `entry`. `Err`: out of memory.
pub(crate) fn carried(alloc: Global, entry: Pfn, read: FramesRead) -> Result<Carried, AllocError>
    requires limits { IsTrue (all_within (sessions_of (kept_of entry.0 read))) }
    requires chunks { All (λ s. s.at < 2 ^ 32) read.chunks.items }
    ensures state { IfOk result (λ c. (ram : Ram) → state_in ram c ≡ carried_rule ram (kept_of entry.0 read)) }
    ensures working { IfOk result (λ c. firsts c.working ≡ entry.0 ∷ (firsts read.records.numbers.items ++ numbers_of (chunk_views read.chunks.items))) }
{
    let sessions = carried_sessions(alloc, &read.records.sessions)?;
    let bounds = carried_bounds(alloc, &read.bounds)?;
    let working = working_frames(alloc, entry, &read.records.numbers, &read.chunks)?;
    let number = read.handover.luo.number;
    Ok(Carried {
        shape: read.handover.shape,
        number,
        sessions,
        bounds,
        working,
    })
}
