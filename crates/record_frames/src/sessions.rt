//! Sessions with their files, and all records, read from any bytes.

ghost use Rattle.std.specs.Prelude.{◌≡◌, ◌+◌, ◌≤◌, IfOk, length};
ghost use Rattle.ho_events.specs.Lists.{firsts};
ghost use Rattle.phys_frames.specs.Memory.{AllHome};
ghost use Rattle.record_frames.specs.Sheets.{record_numbers};
ghost use Rattle.record_frames.specs.Rules.{version_1};
ghost use Rattle.record_frames.specs.Reading.{records_at};
ghost use Rattle.record_frames.specs.Slots.{Tells};
ghost use Rattle.record_frames.specs.Sheeted.{ram_of};
ghost use Rattle.record_frames.specs.Sessions.{TellsSession, ToldSessions, records_view};

use crate::file_frame::file_front;
use crate::files::{FileRead, read_files};
use crate::seen::Seen;
use crate::session_frame::session_front;
use crate::slot_reading::ReadSession;
use ho_base::limits::FILES;
use ho_base::name::Name;
use ho_base::numbers::Pfn;
use phys_frames::Frames;
use std::alloc::{AllocError, Global};

/// A session with its files.
#[derive(Debug, Drop)]
pub struct SessionRead {
    /// Its name.
    pub name: Name,
    /// The number of its file frame, or 0 where it has no files.
    pub at: u64,
    /// Its files, in rising tokens.
    pub files: Vec<FileRead>,
}

/// All records.
#[derive(Debug, Drop)]
pub struct RecordsRead {
    /// The number of the session frame.
    pub at: u64,
    /// The sessions, in rising names.
    pub sessions: Vec<SessionRead>,
    /// The numbers of the session frame, the file frames and the list frames, in reading order.
    pub numbers: Vec<Pfn>,
}

/// Reads the file frame of a session and the list frames of its files, and notes each in `seen`; `before` files of other
/// sessions were read.
///
/// `Ok(Err(at))`: `at` is the first number that breaks a rule, as in [`file_front`] and
/// [`crate::reading::read_file`]. `Err`: out of memory.
fn read_session(
    alloc: Global,
    frames: &Frames,
    seen: &mut Seen,
    before: u64,
    slot: &ReadSession,
) -> Result<Result<SessionRead, u64>, AllocError>
    requires home { AllHome frames.now }
    requires before { before ≤ FILES }
    requires count { seen.old.count ≡ length frames.now.pages }
    ensures count { seen.new.count ≡ seen.old.count }
    ensures read { IfOk result (λ r. TellsSession (ram_of frames.now) seen.old.numbers seen.new.numbers before slot.now r) }
    ensures few { IfOk result (λ r. IfOk r (λ s. before + slot.now.files ≤ FILES)) }
{
    let name = slot.name;
    if slot.files == 0 {
        let files = Vec::new(alloc);
        return Ok(Ok(SessionRead { name, at: 0, files }));
    }
    let at = slot.first;
    let Some(slots) = file_front(alloc, frames, seen, before, slot.files, at)? else {
        return Ok(Err(at));
    };
    seen.push(at)?;
    match read_files(alloc, frames, seen, &slots)? {
        Ok(files) => Ok(Ok(SessionRead { name, at, files })),
        Err(at) => Ok(Err(at)),
    }
}

/// Reads several sessions in turn.
fn read_sessions(
    alloc: Global,
    frames: &Frames,
    seen: &mut Seen,
    slots: &[ReadSession],
) -> Result<Result<Vec<SessionRead>, u64>, AllocError>
    requires home { AllHome frames.now }
    requires count { seen.old.count ≡ length frames.now.pages }
    ensures count { seen.new.count ≡ seen.old.count }
    ensures read { IfOk result (λ r. ToldSessions (λ v. v.items) (ram_of frames.now) seen.old.numbers seen.new.numbers slots.now r) }
{
    let mut sessions = Vec::new(alloc);
    let mut before = 0;
    for slot in slots {
        match read_session(alloc, frames, seen, before, slot)? {
            Ok(session) => {
                before += slot.files;
                sessions.push(session)?;
            }
            Err(at) => return Ok(Err(at)),
        }
    }
    Ok(Ok(sessions))
}

/// Reads all records from the number of the session frame on: the session frame, and for each session its file frame
/// and the list frames of its files. Each frame is read once.
///
/// `Ok(Err(at))`: `at` is the first number in this order that breaks a rule, as in
/// [`crate::reading::session_front`], [`file_front`] and [`crate::reading::read_file`]. `Err`: out of memory.
pub fn read_records(
    alloc: Global,
    frames: &Frames,
    header: u64,
) -> Result<Result<RecordsRead, u64>, AllocError>
    requires home { AllHome frames.now }
    ensures read { IfOk result (λ r. Tells records_view r (records_at version_1 (ram_of frames.now) header)) }
    ensures numbers { IfOk result (λ r. IfOk r (λ records. firsts records.numbers.items ≡ record_numbers (records_view records))) }
{
    let Some(slots) = session_front(alloc, frames, header)? else {
        return Ok(Err(header));
    };
    let mut seen = Seen::none(alloc, frames.count())?;
    seen.push(header)?;
    match read_sessions(alloc, frames, &mut seen, &slots)? {
        Ok(sessions) => {
            let numbers = seen.into_numbers();
            Ok(Ok(RecordsRead {
                at: header,
                sessions,
                numbers,
            }))
        }
        Err(at) => Ok(Err(at)),
    }
}
