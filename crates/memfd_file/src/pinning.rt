//! An outgoing session's hold on a file.

ghost use Rattle.std.specs.Prelude.{◌≡◌, ◌+◌, ◌<◌, ◌≤◌, ◌^◌, ◌++◌, ◌∷◌, ◌||◌, [], true, false, None, Some, IsSome, MatchOption, IsTrue, is_some, length, vec_len, vec_capacity};
ghost use Rattle.phys_frames.specs.Homes.{HomeId};
ghost use Rattle.ho_events.specs.History.{last_stamp, file_from};
ghost use Rattle.ho_events.specs.Places.{object_at};
ghost use Rattle.ho_events.specs.Slips.{entry_at, reply_runs};
ghost use Rattle.ho_events.specs.File.{file_step, holes, index_bytes, indexes, runs_of};
ghost use Rattle.ho_events.specs.Lists.{pieces};
ghost use Rattle.ho_events.specs.declared.event.Event.TheVariants.{FilePin, FileUnpin};
ghost use Rattle.phys_frames.specs.Memory.{first_frames};
ghost use Rattle.file_folios.specs.FileAnswers.{AreFillsOf, IsPinAnswer, pin_left, pin_used};
ghost use Rattle.memfd_file.specs.Files.{FileHas, IsUnpinAnswer, given_up};
ghost use Rattle.memfd_file.specs.FileValues.{FileIs};
ghost use Rattle.memfd_file.specs.FileShown.{IsKept, shown};

use crate::file::{FileObject, place};
use file_folios::FileFolios;
use ho_base::Items;
use ho_base::numbers::Pfn;
use ho_events::append::append_turn;
use ho_events::event::Event;
use ho_events::reply::Reply;
use ho_events::slip::{Slip, Turned};
use phys_frames::Folio;

impl FileObject {
    /// Pins the file: `NotFinished` exactly where an incoming session has it; else `AlreadyPinned` exactly where an outgoing
    /// one has it; else `NoFramesOf` exactly where it has holes below its size and no folio came. Then nothing changes and
    /// the folios stay with the caller. Else the folios fill all holes, in rising index, and all runs are reported by index.
    /// A memfd has no refusal of the caller's.
    pub fn pin(&mut self, slip: Slip, fills: &mut Vec<Folio>, lost: Option<Reply>) -> Turned<Reply>
        requires present { FileIs self.old IsSome }
        requires lost { lost ≡ None }
        requires fills { FileHas self.old (λ f. AreFillsOf self.old.home f.order fills.old.items) }
        requires fills_count { 0 < vec_len fills.old → FileHas self.old (λ f. vec_len fills.old ≡ length (holes f (indexes f))) }
        requires slip_fills { vec_len fills.old ≤ slip.room.event_numbers }
        requires slip_runs { FileHas self.old (λ f. pieces (length f.bytes) (index_bytes f) ≤ slip.room.reply_numbers) }
        requires room { 0 < self.old.room }
        requires agent_stamp { slip.at.last < 2 ^ 63 }
        requires object_stamp { last_stamp self.old.history < 2 ^ 63 }
        ensures exact { FileHas self.old (λ f. FileHas self.new (λ g. IsPinAnswer f (vec_len fills.old) g result.value)) }
        ensures few { length (reply_runs result.value) ≤ slip.room.reply_numbers }
        ensures fills { fills.new.items ≡ pin_left result.value fills.old.items }
        ensures told { result.entry ≡ entry_at slip.at (last_stamp self.old.history) (object_at self.old.number) (FilePin (first_frames (pin_used result.value fills.old.items))) result.value }
        ensures kept { self.new.history ≡ self.old.history ++ result.entry ∷ [] }
        ensures number { self.new.number ≡ self.old.number }
        ensures start { self.new.start ≡ self.old.start }
        ensures home { self.new.home ≡ self.old.home }
        ensures room { self.new.room + 1 ≡ self.old.room }
        ensures run { IsTrue (is_some (file_from self.new.start self.new.history)) }
    {
        let (at, own, copy, value) = slip.open();
        let mut used = own.event_runs;
        let reply = match &mut self.file {
            None => unreachable!(),
            Some(file) => file.pin(fills, &mut used, own.reply_runs),
        };
        let event = Event::FilePin(Items::from_vec(used));
        append_turn(
            &mut self.history,
            self.number,
            at,
            event,
            reply,
            copy,
            value,
        )
    }

    /// Ends the pin, and reports all runs by index. Where a label or an incoming session has the file, it is kept; else it is
    /// absent afterwards, and its folios are put at the end of the caller's.
    pub fn unpin(&mut self, slip: Slip, given: &mut Vec<Folio>) -> Turned<Reply>
        requires pinned { FileHas self.old (λ f. f.pin ≡ true) }
        requires given { FileHas self.old (λ f. vec_len given.old + length (runs_of f) ≤ vec_capacity given.old) }
        requires slip_numbers { FileHas self.old (λ f. length (runs_of f) ≤ slip.room.reply_numbers) }
        requires room { 0 < self.old.room }
        requires agent_stamp { slip.at.last < 2 ^ 63 }
        requires object_stamp { last_stamp self.old.history < 2 ^ 63 }
        ensures exact { FileHas self.old (λ f. IsUnpinAnswer f result.value) }
        ensures few { length (reply_runs result.value) ≤ slip.room.reply_numbers }
        ensures given { FileHas self.old (λ f. given.new.items ≡ given.old.items ++ given_up self.old.home f result.value) }
        ensures told { result.entry ≡ entry_at slip.at (last_stamp self.old.history) (object_at self.old.number) FileUnpin result.value }
        ensures kept { self.new.history ≡ self.old.history ++ result.entry ∷ [] }
        ensures number { self.new.number ≡ self.old.number }
        ensures start { self.new.start ≡ self.old.start }
        ensures home { self.new.home ≡ self.old.home }
        ensures room { self.new.room + 1 ≡ self.old.room }
        ensures run { IsTrue (is_some (file_from self.new.start self.new.history)) }
    {
        let (at, own, copy, value) = slip.open();
        let reply = unpin(&mut self.file, own.reply_runs, given);
        append_turn(
            &mut self.history,
            self.number,
            at,
            Event::FileUnpin,
            reply,
            copy,
            value,
        )
    }
}

/// Ends the pin. Where a label or an incoming session has the file, it is kept and its runs are reported; else it is gone,
/// and its folios are given up.
fn unpin(file: &mut Option<FileFolios>, runs: Vec<Pfn>, given: &mut Vec<Folio>) -> Reply
    requires pinned { MatchOption file.old ⊥ (λ v. v.state.pin ≡ true) }
    requires empty { runs.items ≡ [] }
    requires room { MatchOption file.old ⊥ (λ v. length (runs_of v.state) ≤ vec_capacity runs) }
    requires given { MatchOption file.old ⊥ (λ v. vec_len given.old + length (runs_of v.state) ≤ vec_capacity given.old) }
    ensures answer { MatchOption file.old ⊥ (λ v. IsUnpinAnswer v.state result) }
    ensures step { file_step (shown file.old) FileUnpin result ≡ Some (shown file.new) }
    ensures kept { (home : HomeId) → IsKept home file.old → IsKept home file.new }
    ensures given { MatchOption file.old ⊥ (λ v. given.new.items ≡ given.old.items ++ given_up v.home v.state result) }
{
    match file.take() {
        None => unreachable!(),
        Some(held) => {
            let facts = held.facts();
            if facts.opened || facts.hold {
                keep(file, held, runs)
            } else {
                Reply::Gone(held.give_up(runs, given))
            }
        }
    }
}

/// Puts a file back without its pin, and reports its runs.
fn keep(file: &mut Option<FileFolios>, mut held: FileFolios, runs: Vec<Pfn>) -> Reply
    requires empty_place { file.old ≡ None }
    requires pinned { held.state.pin ≡ true }
    requires kept { (held.state.opened || held.state.hold) ≡ true }
    requires empty { runs.items ≡ [] }
    requires room { length (runs_of held.state) ≤ vec_capacity runs }
    ensures answer { IsUnpinAnswer held.state result }
    ensures step { file_step (Some held.state) FileUnpin result ≡ Some (shown file.new) }
    ensures kept { (home : HomeId) → IsKept home (Some held) → IsKept home file.new }
    ensures given { given_up held.home held.state result ≡ [] }
{
    held.set_pin(false);
    let told = held.runs(runs);
    place(file, held);
    Reply::KeptRuns(told)
}
