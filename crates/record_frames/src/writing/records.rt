//! All record frames of a state, written in their order of use.

ghost use Rattle.std.specs.Prelude.{◌≡◌, ◌+◌, ◌≤◌, length};
ghost use Rattle.std.specs.List.{All};
ghost use Rattle.ho_base.specs.declared.limits.TheConstants.{MAX_FRAMES, OUT_SLOTS, SESSION_FILES};
ghost use Rattle.record_frames.specs.Writing.{files_in, files_of_sessions, frames_of, lists_of_files, pages_in_use, with_pages};

use crate::carried::CarriedSession;
use crate::writing::session_frames::{
    file_frames, write_file_frames, write_list_frames, write_session_frame,
};
use phys_frames::Folio;

/// How many file frames sessions have.
fn all_file_frames(sessions: &[CarriedSession]) -> usize
    requires { length sessions.now ≤ OUT_SLOTS }
    ensures { result ≡ files_of_sessions sessions.now }
{
    let mut count = 0;
    for i in 0..sessions.len() {
        let session = &sessions[i];
        count += file_frames(session);
    }
    count
}

/// Writes the records of sessions into folios of one frame, as many as they need, in the order of use: the session
/// frame, a file frame for each session that has files, and the list frames of each file. Each folio holds exactly the
/// bytes of its frame, with zeros behind them; its frame, order and home stay. It takes no memory, and costs the bytes
/// of the folios.
pub fn write_records(sessions: &[CarriedSession], folios: &mut [Folio])
    requires sessions { length sessions.now ≤ OUT_SLOTS }
    requires files { All (λ s. length s.files ≤ SESSION_FILES) sessions.now }
    requires runs { All (λ s. All (λ f. length f.runs ≤ MAX_FRAMES) s.files) sessions.now }
    requires count { length folios.old ≡ 1 + files_of_sessions sessions.now + lists_of_files (files_in sessions.now) }
    requires orders { All (λ f. f.order.0 ≡ 0) folios.old }
    ensures { folios.new ≡ with_pages folios.old (pages_in_use (frames_of folios.old) sessions.now) }
{
    let (first, rest) = folios.split_at_mut(1);
    let (files, lists) = rest.split_at_mut(all_file_frames(sessions));
    write_session_frame(sessions, files, &mut first[0]);
    write_file_frames(sessions, lists, files);
    write_list_frames(sessions, lists);
}
