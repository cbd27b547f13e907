//! An incoming session's hold on a file: a label that gets it too, and the end of the hold.

ghost use Rattle.std.specs.Prelude.{◌≡◌, ◌+◌, ◌<◌, ◌≤◌, ◌^◌, ◌++◌, ◌∷◌, ◌||◌, [], true, false, None, Some, MatchOption, IsTrue, is_some, length, vec_len, vec_capacity};
ghost use Rattle.phys_frames.specs.Homes.{HomeId};
ghost use Rattle.ho_events.specs.History.{last_stamp, file_from};
ghost use Rattle.ho_events.specs.Places.{object_at};
ghost use Rattle.ho_events.specs.Slips.{entry_at, reply_runs};
ghost use Rattle.ho_events.specs.File.{file_step, runs_of};
ghost use Rattle.ho_events.specs.declared.event.Event.TheVariants.{FileOpenHeld, FileFinish};
ghost use Rattle.ho_events.specs.declared.reply.Reply.TheVariants.{Ok};
ghost use Rattle.memfd_file.specs.Files.{FileHas, IsFinishAnswer, given_up};
ghost use Rattle.memfd_file.specs.FileShown.{IsKept, shown};

use crate::file::{FileObject, place};
use file_folios::FileFolios;
use ho_base::numbers::Pfn;
use ho_events::append::{append_plain_turn, append_turn};
use ho_events::event::Event;
use ho_events::reply::Reply;
use ho_events::slip::{Slip, Turned};
use phys_frames::Folio;

impl FileObject {
    /// A label gets the file too, which an incoming session has and no label.
    pub fn open_held(&mut self, slip: Slip) -> Turned<()>
        requires held { FileHas self.old (λ f. (f.hold ≡ true) × (f.opened ≡ false)) }
        requires room { 0 < self.old.room }
        requires agent_stamp { slip.at.last < 2 ^ 63 }
        requires object_stamp { last_stamp self.old.history < 2 ^ 63 }
        ensures told { result.entry ≡ entry_at slip.at (last_stamp self.old.history) (object_at self.old.number) FileOpenHeld Ok }
        ensures kept { self.new.history ≡ self.old.history ++ result.entry ∷ [] }
        ensures number { self.new.number ≡ self.old.number }
        ensures start { self.new.start ≡ self.old.start }
        ensures home { self.new.home ≡ self.old.home }
        ensures room { self.new.room + 1 ≡ self.old.room }
        ensures run { IsTrue (is_some (file_from self.new.start self.new.history)) }
    {
        match &mut self.file {
            None => unreachable!(),
            Some(file) => file.set_opened(true),
        }
        let Turned { entry, value: _ } = append_plain_turn(
            &mut self.history,
            self.number,
            slip,
            Event::FileOpenHeld,
            Reply::Ok,
        );
        Turned { entry, value: () }
    }

    /// Ends the incoming session's hold. Where a label or an outgoing session has the file, it is kept; else it is absent
    /// afterwards, all its runs are reported by index, and its folios are put at the end of the caller's.
    pub fn finish(&mut self, slip: Slip, given: &mut Vec<Folio>) -> Turned<Reply>
        requires held { FileHas self.old (λ f. f.hold ≡ true) }
        requires given { FileHas self.old (λ f. vec_len given.old + length (runs_of f) ≤ vec_capacity given.old) }
        requires slip_numbers { FileHas self.old (λ f. length (runs_of f) ≤ slip.room.reply_numbers) }
        requires room { 0 < self.old.room }
        requires agent_stamp { slip.at.last < 2 ^ 63 }
        requires object_stamp { last_stamp self.old.history < 2 ^ 63 }
        ensures exact { FileHas self.old (λ f. IsFinishAnswer f result.value) }
        ensures few { length (reply_runs result.value) ≤ slip.room.reply_numbers }
        ensures given { FileHas self.old (λ f. given.new.items ≡ given.old.items ++ given_up self.old.home f result.value) }
        ensures told { result.entry ≡ entry_at slip.at (last_stamp self.old.history) (object_at self.old.number) FileFinish result.value }
        ensures kept { self.new.history ≡ self.old.history ++ result.entry ∷ [] }
        ensures number { self.new.number ≡ self.old.number }
        ensures start { self.new.start ≡ self.old.start }
        ensures home { self.new.home ≡ self.old.home }
        ensures room { self.new.room + 1 ≡ self.old.room }
        ensures run { IsTrue (is_some (file_from self.new.start self.new.history)) }
    {
        let (at, own, copy, value) = slip.open();
        let reply = finish(&mut self.file, own.reply_runs, given);
        append_turn(
            &mut self.history,
            self.number,
            at,
            Event::FileFinish,
            reply,
            copy,
            value,
        )
    }
}

/// Ends an incoming session's hold. Where a label or an outgoing session has the file, it is kept; else it is gone with
/// its runs, and its folios are given up.
fn finish(file: &mut Option<FileFolios>, runs: Vec<Pfn>, given: &mut Vec<Folio>) -> Reply
    requires held { MatchOption file.old ⊥ (λ v. v.state.hold ≡ true) }
    requires empty { runs.items ≡ [] }
    requires room { MatchOption file.old ⊥ (λ v. length (runs_of v.state) ≤ vec_capacity runs) }
    requires given { MatchOption file.old ⊥ (λ v. vec_len given.old + length (runs_of v.state) ≤ vec_capacity given.old) }
    ensures answer { MatchOption file.old ⊥ (λ v. IsFinishAnswer v.state result) }
    ensures step { file_step (shown file.old) FileFinish result ≡ Some (shown file.new) }
    ensures kept { (home : HomeId) → IsKept home file.old → IsKept home file.new }
    ensures given { MatchOption file.old ⊥ (λ v. given.new.items ≡ given.old.items ++ given_up v.home v.state result) }
{
    match file.take() {
        None => unreachable!(),
        Some(held) => {
            let facts = held.facts();
            if facts.opened || facts.pin {
                keep(file, held)
            } else {
                Reply::Gone(held.give_up(runs, given))
            }
        }
    }
}

/// Puts a file back that no incoming session has any more.
fn keep(file: &mut Option<FileFolios>, mut held: FileFolios) -> Reply
    requires empty_place { file.old ≡ None }
    requires held_by { held.state.hold ≡ true }
    requires kept { (held.state.opened || held.state.pin) ≡ true }
    ensures answer { IsFinishAnswer held.state result }
    ensures step { file_step (Some held.state) FileFinish result ≡ Some (shown file.new) }
    ensures kept { (home : HomeId) → IsKept home (Some held) → IsKept home file.new }
    ensures given { given_up held.home held.state result ≡ [] }
{
    held.set_hold(false);
    place(file, held);
    Reply::Kept
}
