//! The size and the position of a file.

ghost use Rattle.std.specs.Prelude.{◌≡◌, ◌+◌, ◌<◌, ◌≤◌, ◌^◌, ◌++◌, ◌∷◌, [], IsSome, IsTrue, is_some, length, vec_len, vec_capacity};
ghost use Rattle.ho_events.specs.History.{last_stamp, file_from};
ghost use Rattle.ho_events.specs.File.{cut_runs};
ghost use Rattle.ho_events.specs.Places.{object_at};
ghost use Rattle.ho_events.specs.Slips.{entry_at, reply_runs};
ghost use Rattle.ho_events.specs.declared.event.Event.TheVariants.{FileTruncate, FileSeek, FileTell};
ghost use Rattle.ho_events.specs.declared.reply.Reply.TheVariants.{OkAt};
ghost use Rattle.file_folios.specs.FileAnswers.{IsTruncateAnswer, seek_answer, truncate_given, wanted_indexes};
ghost use Rattle.memfd_file.specs.Files.{FileHas};
ghost use Rattle.memfd_file.specs.FileValues.{FileIs};

use crate::file::FileObject;
use ho_events::append::append_turn;
use ho_events::event::Event;
use ho_events::reply::Reply;
use ho_events::slip::{Slip, Turned};
use phys_frames::Folio;

impl FileObject {
    /// Changes the size. `TooBig` exactly past [`FILE_BYTES`](ho_base::limits::FILE_BYTES); else `SizeFrozen` exactly where
    /// another size is asked for and a session has the file. Then nothing changes. Else the bytes are cut, or extended with
    /// zeros, the position is at most the size, and the folios of the indexes past it are put at the end of the caller's,
    /// in rising index, and their runs are reported.
    pub fn truncate(&mut self, slip: Slip, size: u32, given: &mut Vec<Folio>) -> Turned<Reply>
        requires present { FileIs self.old IsSome }
        requires given { FileHas self.old (λ f. vec_len given.old + length (cut_runs f size) ≤ vec_capacity given.old) }
        requires indexes { FileHas self.old (λ f. wanted_indexes f size ≤ self.old.indexes) }
        requires slip_numbers { FileHas self.old (λ f. length (cut_runs f size) ≤ slip.room.reply_numbers) }
        requires room { 0 < self.old.room }
        requires agent_stamp { slip.at.last < 2 ^ 63 }
        requires object_stamp { last_stamp self.old.history < 2 ^ 63 }
        ensures exact { FileHas self.old (λ f. IsTruncateAnswer f size result.value) }
        ensures few { length (reply_runs result.value) ≤ slip.room.reply_numbers }
        ensures given { FileHas self.old (λ f. given.new.items ≡ given.old.items ++ truncate_given f self.old.home size result.value) }
        ensures told { result.entry ≡ entry_at slip.at (last_stamp self.old.history) (object_at self.old.number) (FileTruncate size) result.value }
        ensures kept { self.new.history ≡ self.old.history ++ result.entry ∷ [] }
        ensures number { self.new.number ≡ self.old.number }
        ensures start { self.new.start ≡ self.old.start }
        ensures home { self.new.home ≡ self.old.home }
        ensures room { self.new.room + 1 ≡ self.old.room }
        ensures run { IsTrue (is_some (file_from self.new.start self.new.history)) }
    {
        let (at, own, copy, value) = slip.open();
        let reply = match &mut self.file {
            None => unreachable!(),
            Some(file) => file.truncate(size, own.reply_runs, given),
        };
        append_turn(
            &mut self.history,
            self.number,
            at,
            Event::FileTruncate(size),
            reply,
            copy,
            value,
        )
    }

    /// Moves the position: `PastEnd` exactly where it would be past the size, and then nothing changes.
    pub fn seek(&mut self, slip: Slip, to: u32) -> Turned<Reply>
        requires present { FileIs self.old IsSome }
        requires room { 0 < self.old.room }
        requires agent_stamp { slip.at.last < 2 ^ 63 }
        requires object_stamp { last_stamp self.old.history < 2 ^ 63 }
        ensures exact { FileHas self.old (λ f. result.value ≡ seek_answer f to) }
        ensures told { result.entry ≡ entry_at slip.at (last_stamp self.old.history) (object_at self.old.number) (FileSeek to) result.value }
        ensures kept { self.new.history ≡ self.old.history ++ result.entry ∷ [] }
        ensures number { self.new.number ≡ self.old.number }
        ensures start { self.new.start ≡ self.old.start }
        ensures home { self.new.home ≡ self.old.home }
        ensures room { self.new.room + 1 ≡ self.old.room }
        ensures run { IsTrue (is_some (file_from self.new.start self.new.history)) }
    {
        let (at, _own, copy, value) = slip.open();
        let reply = match &mut self.file {
            None => unreachable!(),
            Some(file) => file.seek(to),
        };
        append_turn(
            &mut self.history,
            self.number,
            at,
            Event::FileSeek(to),
            reply,
            copy,
            value,
        )
    }

    /// Reports the position. The file stays as it is.
    pub fn tell(&mut self, slip: Slip) -> Turned<Reply>
        requires present { FileIs self.old IsSome }
        requires room { 0 < self.old.room }
        requires agent_stamp { slip.at.last < 2 ^ 63 }
        requires object_stamp { last_stamp self.old.history < 2 ^ 63 }
        ensures exact { FileHas self.old (λ f. result.value ≡ OkAt f.position) }
        ensures told { result.entry ≡ entry_at slip.at (last_stamp self.old.history) (object_at self.old.number) FileTell result.value }
        ensures kept { self.new.history ≡ self.old.history ++ result.entry ∷ [] }
        ensures number { self.new.number ≡ self.old.number }
        ensures start { self.new.start ≡ self.old.start }
        ensures home { self.new.home ≡ self.old.home }
        ensures room { self.new.room + 1 ≡ self.old.room }
        ensures run { IsTrue (is_some (file_from self.new.start self.new.history)) }
    {
        let (at, _own, copy, value) = slip.open();
        let reply = match &self.file {
            None => unreachable!(),
            Some(file) => file.tell(),
        };
        append_turn(
            &mut self.history,
            self.number,
            at,
            Event::FileTell,
            reply,
            copy,
            value,
        )
    }
}
