//! Bytes that a command puts into a file.

ghost use Rattle.std.specs.Prelude.{◌≡◌, ◌+◌, ◌<◌, ◌≤◌, ◌^◌, ◌++◌, ◌∷◌, [], IsSome, IsTrue, is_some, length, vec_len};
ghost use Rattle.ho_events.specs.File.{touched_holes};
ghost use Rattle.ho_events.specs.History.{last_stamp, file_from};
ghost use Rattle.ho_events.specs.Places.{object_at};
ghost use Rattle.ho_events.specs.Slips.{entry_at};
ghost use Rattle.phys_frames.specs.Memory.{first_frames};
ghost use Rattle.file_folios.specs.FileAnswers.{AreFillsOf, fills_left, fills_used, wanted_indexes, write_answer};
ghost use Rattle.memfd_file.specs.FileValues.{FileIs};
ghost use Rattle.memfd_file.specs.Files.{FileHas};
ghost use Rattle.luo_calls.specs.Puts.{put_event, put_len, put_text};

use ho_base::Items;
use ho_events::reply::Reply;
use ho_events::slip::{Slip, Turned};
use memfd_file::FileObject;
use phys_frames::folio::Folio;

/// What is put into a file.
#[derive(Clone, Copy)]
pub enum Put<'a> {
    /// These bytes.
    Bytes(&'a Items<u8>),
    /// The same byte as often as told.
    Same(u32, u8),
}

impl Put<'_> {
    /// How many bytes are put.
    pub fn len(self) -> u32
        requires { put_len self < 2 ^ 32 }
        ensures { result ≡ put_len self.entry }
    {
        match self {
            Put::Bytes(bytes) => bytes.len() as u32,
            Put::Same(len, _) => len,
        }
    }

    /// How many bytes the event lists.
    pub fn text(self) -> u32
        requires { put_len self < 2 ^ 32 }
        ensures { result ≡ put_text self.entry }
    {
        match self {
            Put::Bytes(bytes) => bytes.len() as u32,
            Put::Same(_, _) => 0,
        }
    }
}

/// Puts bytes into a file at an offset, with folios for the holes that they touch: as [`FileObject::write`].
pub fn put_into(
    object: &mut FileObject,
    slip: Slip,
    off: u32,
    put: Put<'_>,
    fills: &mut Vec<Folio>,
) -> Turned<Reply>
    requires present { FileIs object.old IsSome }
    requires some { 0 < put_len put }
    requires fills { FileHas object.old (λ f. AreFillsOf object.old.home f.order fills.old.items) }
    requires fills_count { 0 < vec_len fills.old → FileHas object.old (λ f. vec_len fills.old ≡ length (touched_holes f off (put_len put))) }
    requires indexes { FileHas object.old (λ f. wanted_indexes f (off + put_len put) ≤ object.old.indexes) }
    requires slip_numbers { vec_len fills.old ≤ slip.room.event_numbers }
    requires slip_bytes { put_text put ≤ slip.room.event_bytes }
    requires room { 0 < object.old.room }
    requires agent_stamp { slip.at.last < 2 ^ 63 }
    requires object_stamp { last_stamp object.old.history < 2 ^ 63 }
    ensures exact { FileHas object.old (λ f. result.value ≡ write_answer f off (put_len put.entry) (vec_len fills.old)) }
    ensures fills { fills.new.items ≡ fills_left result.value fills.old.items }
    ensures told { result.entry ≡ entry_at slip.at (last_stamp object.old.history) (object_at object.old.number) (put_event put.entry off (first_frames (fills_used result.value fills.old.items))) result.value }
    ensures kept { object.new.history ≡ object.old.history ++ result.entry ∷ [] }
    ensures number { object.new.number ≡ object.old.number }
    ensures start { object.new.start ≡ object.old.start }
    ensures home { object.new.home ≡ object.old.home }
    ensures run { IsTrue (is_some (file_from object.new.start object.new.history)) }
{
    match put {
        Put::Bytes(bytes) => object.write(slip, off, bytes.as_slice(), fills),
        Put::Same(len, byte) => object.fill(slip, off, len, byte, fills),
    }
}
