//! Bytes that are put into a file.

ghost use Rattle.std.specs.Prelude.{◌≡◌, ◌+◌, ◌<◌, ◌≤◌, ◌^◌, ◌++◌, ◌∷◌, [], IsSome, IsTrue, is_some, length, vec_len};
ghost use Rattle.ho_events.specs.History.{last_stamp, file_from};
ghost use Rattle.ho_events.specs.File.{touched_holes};
ghost use Rattle.ho_events.specs.Places.{object_at};
ghost use Rattle.ho_events.specs.Slips.{entry_at};
ghost use Rattle.ho_events.specs.declared.event.Event.TheVariants.{FileWrite, FileFill};
ghost use Rattle.phys_frames.specs.Memory.{first_frames};
ghost use Rattle.file_folios.specs.FileAnswers.{AreFillsOf, fills_left, fills_used, wanted_indexes, write_answer};
ghost use Rattle.memfd_file.specs.Files.{FileHas};
ghost use Rattle.memfd_file.specs.FileValues.{FileIs};

use crate::file::FileObject;
use ho_base::Items;
use ho_events::append::append_turn;
use ho_events::event::Event;
use ho_events::reply::Reply;
use ho_events::slip::{Slip, Turned};
use phys_frames::Folio;

impl FileObject {
    /// Writes bytes at an offset, at a cost of the bytes and of the indexes that they touch or that are new. `TooBig`
    /// exactly where they end past [`FILE_BYTES`](ho_base::limits::FILE_BYTES); else `SizeFrozen` exactly where they end
    /// past the size and a session has the file; else `NoFramesOf` exactly where they touch holes and no folio came. Then
    /// nothing changes and the folios stay with the caller. Else the bytes are written, and the folios fill the holes, in
    /// rising index.
    pub fn write(
        &mut self,
        slip: Slip,
        off: u32,
        bytes: &[u8],
        fills: &mut Vec<Folio>,
    ) -> Turned<Reply>
        requires present { FileIs self.old IsSome }
        requires some { 0 < length bytes.now }
        requires fills { FileHas self.old (λ f. AreFillsOf self.old.home f.order fills.old.items) }
        requires fills_count { 0 < vec_len fills.old → FileHas self.old (λ f. vec_len fills.old ≡ length (touched_holes f off (length bytes.now))) }
        requires indexes { FileHas self.old (λ f. wanted_indexes f (off + length bytes.now) ≤ self.old.indexes) }
        requires slip_numbers { vec_len fills.old ≤ slip.room.event_numbers }
        requires slip_bytes { length bytes.now ≤ slip.room.event_bytes }
        requires room { 0 < self.old.room }
        requires agent_stamp { slip.at.last < 2 ^ 63 }
        requires object_stamp { last_stamp self.old.history < 2 ^ 63 }
        ensures exact { FileHas self.old (λ f. result.value ≡ write_answer f off (length bytes.now) (vec_len fills.old)) }
        ensures fills { fills.new.items ≡ fills_left result.value fills.old.items }
        ensures told { result.entry ≡ entry_at slip.at (last_stamp self.old.history) (object_at self.old.number) (FileWrite off bytes.now (first_frames (fills_used result.value fills.old.items))) result.value }
        ensures kept { self.new.history ≡ self.old.history ++ result.entry ∷ [] }
        ensures number { self.new.number ≡ self.old.number }
        ensures start { self.new.start ≡ self.old.start }
        ensures home { self.new.home ≡ self.old.home }
        ensures room { self.new.room + 1 ≡ self.old.room }
        ensures run { IsTrue (is_some (file_from self.new.start self.new.history)) }
    {
        let (at, own, copy, value) = slip.open();
        let mut runs = own.event_runs;
        let mut text = own.event_bytes;
        text.extend_from_slice(bytes).unwrap();
        let reply = match &mut self.file {
            None => unreachable!(),
            Some(file) => file.write(off, bytes, fills, &mut runs),
        };
        let event = Event::FileWrite(off, Items::from_vec(text), Items::from_vec(runs));
        append_turn(
            &mut self.history,
            self.number,
            at,
            event,
            reply,
            copy,
            value,
        )
    }

    /// Writes the same byte as often as asked for, at an offset: as [`FileObject::write`] of so many bytes, without a list
    /// of them.
    pub fn fill(
        &mut self,
        slip: Slip,
        off: u32,
        len: u32,
        byte: u8,
        fills: &mut Vec<Folio>,
    ) -> Turned<Reply>
        requires present { FileIs self.old IsSome }
        requires some { 0 < len }
        requires fills { FileHas self.old (λ f. AreFillsOf self.old.home f.order fills.old.items) }
        requires fills_count { 0 < vec_len fills.old → FileHas self.old (λ f. vec_len fills.old ≡ length (touched_holes f off len)) }
        requires indexes { FileHas self.old (λ f. wanted_indexes f (off + len) ≤ self.old.indexes) }
        requires slip_numbers { vec_len fills.old ≤ slip.room.event_numbers }
        requires room { 0 < self.old.room }
        requires agent_stamp { slip.at.last < 2 ^ 63 }
        requires object_stamp { last_stamp self.old.history < 2 ^ 63 }
        ensures exact { FileHas self.old (λ f. result.value ≡ write_answer f off len (vec_len fills.old)) }
        ensures fills { fills.new.items ≡ fills_left result.value fills.old.items }
        ensures told { result.entry ≡ entry_at slip.at (last_stamp self.old.history) (object_at self.old.number) (FileFill off len byte (first_frames (fills_used result.value fills.old.items))) result.value }
        ensures kept { self.new.history ≡ self.old.history ++ result.entry ∷ [] }
        ensures number { self.new.number ≡ self.old.number }
        ensures start { self.new.start ≡ self.old.start }
        ensures home { self.new.home ≡ self.old.home }
        ensures room { self.new.room + 1 ≡ self.old.room }
        ensures run { IsTrue (is_some (file_from self.new.start self.new.history)) }
    {
        let (at, own, copy, value) = slip.open();
        let mut runs = own.event_runs;
        let reply = match &mut self.file {
            None => unreachable!(),
            Some(file) => file.fill(off, len, byte, fills, &mut runs),
        };
        let event = Event::FileFill(off, len, byte, Items::from_vec(runs));
        append_turn(
            &mut self.history,
            self.number,
            at,
            event,
            reply,
            copy,
            value,
        )
    }
}
