//! The words of replies.

ghost use Rattle.std.specs.Prelude.{◌≡◌, [], ◌∷◌, codes, decimal, OnOk};
ghost use Rattle.ho_events.specs.Appended.{puts};
ghost use Rattle.ho_events.specs.Text.{hex_word, reply_words};

use crate::reply::Reply;
use crate::text::forms::{
    put_with_file, put_with_hex, put_with_marked, put_with_number, put_with_numbers, put_with_runs,
    put_with_token,
};
use crate::text::words::{put_hex, put_word};
use std::alloc::AllocError;

/// Puts the words of a reply.
pub fn put_reply(out: &mut Vec<u8>, reply: &Reply) -> Result<(), AllocError>
    ensures { OnOk result (out.new.items ≡ puts out.old.items (reply_words reply.now)) }
{
    match reply {
        Reply::Ok => put_word(out, b"Ok"),
        Reply::OkFile(file) => put_with_file(out, b"Ok", *file),
        Reply::OkSlot(slot) => put_with_marked(out, b"Ok", b"s", u64::from(slot.0)),
        Reply::OkBytes(bytes) => put_with_hex(out, b"Ok", bytes.as_slice()),
        Reply::OkAt(position) => put_with_marked(out, b"Ok", b"@", u64::from(*position)),
        Reply::OkRuns(runs) => put_with_runs(out, b"Ok", runs.as_slice()),
        Reply::OkHandle(handle, bound) => put_ok_handle(out, *handle, bound.as_bytes()),
        Reply::OkBound(bound) => put_with_hex(out, b"Ok", bound.as_bytes()),
        Reply::Kept => put_word(out, b"Kept"),
        Reply::KeptRuns(runs) => put_with_runs(out, b"Kept", runs.as_slice()),
        Reply::Gone(runs) => put_with_runs(out, b"Gone", runs.as_slice()),
        Reply::Got(runs) => put_with_runs(out, b"Got", runs.as_slice()),
        Reply::NoFrames => put_word(out, b"NoFrames"),
        Reply::NoFramesOf(wanted) => put_with_number(out, b"NoFrames", u64::from(*wanted)),
        Reply::Last(frame) => put_with_runs(out, b"Last", &[*frame]),
        Reply::Failed(faults) => put_with_number(out, b"Failed", *faults),
        Reply::FilesFull => put_word(out, b"FilesFull"),
        Reply::NameTaken => put_word(out, b"NameTaken"),
        Reply::SessionsFull => put_word(out, b"SessionsFull"),
        Reply::NoSession => put_word(out, b"NoSession"),
        Reply::AlreadyOpen => put_word(out, b"AlreadyOpen"),
        Reply::TooBig => put_word(out, b"TooBig"),
        Reply::SizeFrozen => put_word(out, b"SizeFrozen"),
        Reply::PastEnd => put_word(out, b"PastEnd"),
        Reply::NotFinished => put_word(out, b"NotFinished"),
        Reply::AlreadyPinned => put_word(out, b"AlreadyPinned"),
        Reply::HandlerFailed => put_word(out, b"HandlerFailed"),
        Reply::SessionFull => put_word(out, b"SessionFull"),
        Reply::TokenTaken => put_word(out, b"TokenTaken"),
        Reply::NoToken => put_word(out, b"NoToken"),
        Reply::AlreadyTaken => put_word(out, b"AlreadyTaken"),
        Reply::BadFd => put_word(out, b"BadFd"),
        Reply::ScratchSmall(need, have) => put_with_numbers(
            out,
            b"ScratchSmall",
            u64::from(*need),
            u64::from(*have),
        ),
        Reply::FreezeFailed(session, token) => put_with_token(
            out,
            b"FreezeFailed",
            session,
            *token,
        ),
    }
}

/// Puts the words of a preservation's success: its handle, and the bound bytes.
fn put_ok_handle(out: &mut Vec<u8>, handle: u64, bound: &[u8]) -> Result<(), AllocError>
    ensures { OnOk result (out.new.items ≡ puts out.old.items (codes "Ok" ∷ decimal handle ∷ hex_word bound.now ∷ [])) }
{
    put_with_number(out, b"Ok", handle)?;
    put_hex(out, bound)
}
