//! The files of a session with their list frames, read from any bytes.

ghost use Rattle.std.specs.Prelude.{◌≡◌, ◌≤◌, IfOk, length};
ghost use Rattle.std.specs.List.{All};
ghost use Rattle.ho_base.specs.declared.limits.TheConstants.{MAX_ORDER};
ghost use Rattle.phys_frames.specs.Memory.{AllHome};
ghost use Rattle.record_frames.specs.Sheeted.{ram_of};
ghost use Rattle.record_frames.specs.Files.{TellsFile, ToldFiles};

use crate::lists::{ListSheet, list_chain};
use crate::seen::Seen;
use crate::slot_reading::ReadFile;
use phys_frames::Frames;
use std::alloc::{AllocError, Global};

/// A file with its list frames.
#[derive(Debug, Drop)]
pub struct FileRead {
    /// What its slot says.
    pub slot: ReadFile,
    /// Its list frames in the order of their chain; none where it has no runs.
    pub lists: Vec<ListSheet>,
}

/// Reads the list frames of a file, and notes each in `seen`.
///
/// `Ok(Err(at))`: `at` is the first number along the chain that breaks a rule, as in [`list_chain`]. `Err`: out of
/// memory. A file without runs has no list frame, and none is read. The slot's order is in range; its other rules are
/// those of [`crate::reading::file_slot`].
#[tactic(auto, unfolding(crate::specs::Reading::file_at))]
pub fn read_file(
    alloc: Global,
    frames: &Frames,
    seen: &mut Seen,
    slot: ReadFile,
) -> Result<Result<FileRead, u64>, AllocError>
    requires home { AllHome frames.now }
    requires order { slot.order ≤ MAX_ORDER }
    requires count { seen.old.count ≡ length frames.now.pages }
    ensures count { seen.new.count ≡ seen.old.count }
    ensures read { IfOk result (λ r. TellsFile (ram_of frames.now) seen.old.numbers seen.new.numbers slot r) }
{
    if slot.folios == 0 {
        let lists = Vec::new(alloc);
        return Ok(Ok(FileRead { slot, lists }));
    }
    match list_chain(
        alloc,
        frames,
        slot.order as u8,
        slot.folios,
        seen,
        slot.first,
    )? {
        Ok(lists) => Ok(Ok(FileRead { slot, lists })),
        Err(at) => Ok(Err(at)),
    }
}

/// Reads the list frames of several files in turn, and notes each in `seen`.
///
/// `Ok(Err(at))`: `at` is the first number that breaks a rule, as in [`read_file`]. `Err`: out of memory.
pub fn read_files(
    alloc: Global,
    frames: &Frames,
    seen: &mut Seen,
    slots: &[ReadFile],
) -> Result<Result<Vec<FileRead>, u64>, AllocError>
    requires home { AllHome frames.now }
    requires orders { All (λ f. f.order ≤ MAX_ORDER) slots.now }
    requires count { seen.old.count ≡ length frames.now.pages }
    ensures count { seen.new.count ≡ seen.old.count }
    ensures read { IfOk result (λ r. ToldFiles (λ v. v.items) (ram_of frames.now) seen.old.numbers seen.new.numbers slots.now r) }
{
    let mut files = Vec::new(alloc);
    for slot in slots {
        match read_file(alloc, frames, seen, *slot)? {
            Ok(file) => files.push(file)?,
            Err(at) => return Ok(Err(at)),
        }
    }
    Ok(Ok(files))
}
