//! The session frame and the frames of all sessions, written.

ghost use Rattle.std.specs.Prelude.{◌≡◌, ◌≤◌, ℕ, List, length, map};
ghost use Rattle.std.specs.List.{All, flat_map};
ghost use Rattle.ho_base.specs.declared.limits.TheConstants.{MAX_FRAMES, OUT_SLOTS, SESSION_FILES};
ghost use Rattle.record_frames.specs.Sheets.{list_pages, session_slot, session_slot_bytes, sheet_bytes};
ghost use Rattle.record_frames.specs.Writing.{file_frames as frames_of_session, file_pages, file_records, files_in, files_of_sessions, frames_of, holding, lists_of_files, lists_of_sessions, session_records, with_pages};

use crate::carried::CarriedSession;
use crate::writing::file_frames::write_file_frame;
use crate::writing::frame::{begin_frame, first_number};
use crate::writing::list_frames::write_lists_of_files;
use crate::writing::slots::{SLOT_BYTES, SLOTS_AT, put_session_slot};
use phys_frames::Folio;

/// How many file frames a session has.
pub(crate) fn file_frames(session: &CarriedSession) -> usize
    ensures value { result ≡ frames_of_session session.now }
    ensures few { result ≤ 1 }
{
    usize::from(!session.files.as_slice().is_empty())
}

/// Writes the session frame. The file frames of the sessions are `files`, in order.
pub(crate) fn write_session_frame(sessions: &[CarriedSession], files: &[Folio], folio: &mut Folio)
    requires few { length sessions.now ≤ OUT_SLOTS }
    requires order { folio.old.order.0 ≡ 0 }
    ensures { (lists : List ℕ) → folio.new ≡ holding folio.old (sheet_bytes 128 session_slot_bytes 0 (map session_slot (session_records (frames_of files.now) lists sessions.now))) }
{
    begin_frame(folio, 0, sessions.len() as u64);
    let mut at = 0;
    for i in 0..sessions.len() {
        let session = &sessions[i];
        let count = file_frames(session);
        let first = first_number(files, at, count);
        put_session_slot(folio, SLOTS_AT + SLOT_BYTES * i, session, first);
        at += count;
    }
}

/// Writes the file frames of sessions, in order: one for each that has files. Their list frames are `lists`, in order.
pub(crate) fn write_file_frames(sessions: &[CarriedSession], lists: &[Folio], files: &mut [Folio])
    requires few { All (λ s. length s.files ≤ SESSION_FILES) sessions.now }
    requires runs { All (λ s. All (λ f. length f.runs ≤ MAX_FRAMES) s.files) sessions.now }
    requires lists { lists_of_sessions sessions.now ≤ length lists.now }
    requires enough { files_of_sessions sessions.now ≤ length files.old }
    requires orders { All (λ f. f.order.0 ≡ 0) files.old }
    ensures { files.new ≡ with_pages files.old (file_pages (session_records (frames_of files.old) (frames_of lists.now) sessions.now)) }
{
    let mut at = 0;
    let mut list = 0;
    for i in 0..sessions.len() {
        let session = &sessions[i];
        let own = session.files.as_slice();
        if own.is_empty() {
            continue;
        }
        list += write_file_frame(own, &lists[list..], &mut files[at]);
        at += 1;
    }
}

/// Writes the list frames of all files of sessions, in order.
pub(crate) fn write_list_frames(sessions: &[CarriedSession], lists: &mut [Folio])
    requires runs { All (λ s. All (λ f. length f.runs ≤ MAX_FRAMES) s.files) sessions.now }
    requires enough { lists_of_files (files_in sessions.now) ≤ length lists.old }
    requires orders { All (λ f. f.order.0 ≡ 0) lists.old }
    ensures { lists.new ≡ with_pages lists.old (flat_map list_pages (file_records (frames_of lists.old) (files_in sessions.now))) }
{
    let end = lists.len();
    let mut list = 0;
    for i in 0..sessions.len() {
        let session = &sessions[i];
        let files = session.files.as_slice();
        list += write_lists_of_files(files, &mut lists[list..end]);
    }
}
