//! The end of a label's hold on a file.

ghost use Rattle.std.specs.Prelude.{◌≡◌, ◌+◌, ◌<◌, ◌≤◌, ◌^◌, ◌++◌, ◌∷◌, ◌||◌, [], true, false, None, Some, MatchOption, IsTrue, is_some, length, vec_len, vec_capacity};
ghost use Rattle.phys_frames.specs.Homes.{HomeId};
ghost use Rattle.ho_events.specs.History.{last_stamp, file_from};
ghost use Rattle.ho_events.specs.Places.{object_at};
ghost use Rattle.ho_events.specs.Slips.{entry_at, reply_runs};
ghost use Rattle.ho_events.specs.File.{file_step, runs_of};
ghost use Rattle.ho_events.specs.declared.event.Event.TheVariants.{FileCloseFd};
ghost use Rattle.memfd_file.specs.Files.{FileHas, IsCloseFdAnswer, given_up};
ghost use Rattle.memfd_file.specs.FileShown.{IsKept, shown};

use crate::file::{FileObject, place};
use file_folios::FileFolios;
use ho_base::numbers::Pfn;
use ho_events::append::append_turn;
use ho_events::event::Event;
use ho_events::reply::Reply;
use ho_events::slip::{Slip, Turned};
use phys_frames::Folio;

impl FileObject {
    /// Ends the label's hold. Where an outgoing or an incoming session has the file, it is kept; else it is absent
    /// afterwards, all its runs are reported by index, and its folios are put at the end of the caller's.
    pub fn close_fd(&mut self, slip: Slip, given: &mut Vec<Folio>) -> Turned<Reply>
        requires opened { FileHas self.old (λ f. f.opened ≡ true) }
        requires given { FileHas self.old (λ f. vec_len given.old + length (runs_of f) ≤ vec_capacity given.old) }
        requires slip_numbers { FileHas self.old (λ f. length (runs_of f) ≤ slip.room.reply_numbers) }
        requires room { 0 < self.old.room }
        requires agent_stamp { slip.at.last < 2 ^ 63 }
        requires object_stamp { last_stamp self.old.history < 2 ^ 63 }
        ensures exact { FileHas self.old (λ f. IsCloseFdAnswer f result.value) }
        ensures few { length (reply_runs result.value) ≤ slip.room.reply_numbers }
        ensures given { FileHas self.old (λ f. given.new.items ≡ given.old.items ++ given_up self.old.home f result.value) }
        ensures told { result.entry ≡ entry_at slip.at (last_stamp self.old.history) (object_at self.old.number) FileCloseFd result.value }
        ensures kept { self.new.history ≡ self.old.history ++ result.entry ∷ [] }
        ensures number { self.new.number ≡ self.old.number }
        ensures start { self.new.start ≡ self.old.start }
        ensures home { self.new.home ≡ self.old.home }
        ensures room { self.new.room + 1 ≡ self.old.room }
        ensures run { IsTrue (is_some (file_from self.new.start self.new.history)) }
    {
        let (at, own, copy, value) = slip.open();
        let reply = close_fd(&mut self.file, own.reply_runs, given);
        append_turn(
            &mut self.history,
            self.number,
            at,
            Event::FileCloseFd,
            reply,
            copy,
            value,
        )
    }
}

/// Ends the label's hold. Where an outgoing or an incoming session has the file, it is kept; else it is gone with its
/// runs, and its folios are given up.
fn close_fd(file: &mut Option<FileFolios>, runs: Vec<Pfn>, given: &mut Vec<Folio>) -> Reply
    requires opened { MatchOption file.old ⊥ (λ v. v.state.opened ≡ true) }
    requires empty { runs.items ≡ [] }
    requires room { MatchOption file.old ⊥ (λ v. length (runs_of v.state) ≤ vec_capacity runs) }
    requires given { MatchOption file.old ⊥ (λ v. vec_len given.old + length (runs_of v.state) ≤ vec_capacity given.old) }
    ensures answer { MatchOption file.old ⊥ (λ v. IsCloseFdAnswer v.state result) }
    ensures step { file_step (shown file.old) FileCloseFd result ≡ Some (shown file.new) }
    ensures kept { (home : HomeId) → IsKept home file.old → IsKept home file.new }
    ensures given { MatchOption file.old ⊥ (λ v. given.new.items ≡ given.old.items ++ given_up v.home v.state result) }
{
    match file.take() {
        None => unreachable!(),
        Some(held) => {
            let facts = held.facts();
            if facts.pin || facts.hold {
                keep(file, held)
            } else {
                Reply::Gone(held.give_up(runs, given))
            }
        }
    }
}

/// Puts a file back that no label has any more.
fn keep(file: &mut Option<FileFolios>, mut held: FileFolios) -> Reply
    requires empty_place { file.old ≡ None }
    requires opened { held.state.opened ≡ true }
    requires kept { (held.state.pin || held.state.hold) ≡ true }
    ensures answer { IsCloseFdAnswer held.state result }
    ensures step { file_step (Some held.state) FileCloseFd result ≡ Some (shown file.new) }
    ensures kept { (home : HomeId) → IsKept home (Some held) → IsKept home file.new }
    ensures given { given_up held.home held.state result ≡ [] }
{
    held.set_opened(false);
    place(file, held);
    Reply::Kept
}
