//! The text of a history: one line an entry, in the order of the entries. A line has the words
//! `KERNEL STAMP AGENT COMMAND OBJECT EVENT = REPLY`, each but the first behind one blank, and ends in a
//! line feed.

ghost use Rattle.std.specs.Prelude.{◌≡◌, ◌++◌, IfOk, OnOk, decimal};
ghost use Rattle.ho_events.specs.Appended.{put, puts};
ghost use Rattle.ho_events.specs.Text.{line_of, line_words, object_word, place_word, text_of, turn_words};

mod event;
mod forms;
mod reply;
mod words;

use crate::entry::{Entry, Place};
use crate::text::event::put_event;
use crate::text::reply::put_reply;
use crate::text::words::{extend_number, put_marked, put_number, put_word};
use ho_base::numbers::{FileNo, NoMemory, ObjectNo, SlotNo};
use std::alloc::{AllocError, Global};

/// The number of the first handler: the handlers follow the registry.
const FIRST_HANDLER: u16 = ObjectNo::REGISTRY.0 + 1;

/// The text of these entries, in their order. It takes time and memory linear in the text.
///
/// # Errors
///
/// [`NoMemory`] where the memory for the text can't be had.
pub fn text(alloc: Global, entries: &[Entry]) -> Result<Vec<u8>, NoMemory>
    ensures { IfOk result (λ v. v.items ≡ text_of entries.now) }
{
    let mut out = Vec::new(alloc);
    match extend_lines(&mut out, entries) {
        Ok(()) => Ok(out),
        Err(_) => Err(NoMemory),
    }
}

/// Appends the lines of entries.
fn extend_lines(out: &mut Vec<u8>, entries: &[Entry]) -> Result<(), AllocError>
    ensures { OnOk result (out.new.items ≡ out.old.items ++ text_of entries.now) }
{
    for entry in entries {
        extend_line(out, entry)?;
    }
    Ok(())
}

/// Appends the line of an entry.
#[tactic(auto, using(crate::proofs::Written::line_is))]
fn extend_line(out: &mut Vec<u8>, entry: &Entry) -> Result<(), AllocError>
    ensures { OnOk result (out.new.items ≡ out.old.items ++ line_of entry.now) }
{
    extend_head(out, entry)?;
    put_event(out, &entry.event)?;
    put_word(out, b"=")?;
    put_reply(out, &entry.reply)?;
    out.push(b'\n')?;
    Ok(())
}

/// Appends an entry's kernel, and puts its stamp, agent, command and place.
fn extend_head(out: &mut Vec<u8>, entry: &Entry) -> Result<(), AllocError>
    ensures { OnOk result (out.new.items ≡ puts (out.old.items ++ decimal entry.now.kernel) (turn_words entry.now)) }
{
    extend_number(out, u64::from(entry.kernel))?;
    put_number(out, entry.stamp)?;
    put_number(out, u64::from(entry.agent.0))?;
    put_number(out, u64::from(entry.command))?;
    put_place(out, entry.object)
}

/// Puts where an event was.
fn put_place(out: &mut Vec<u8>, place: Place) -> Result<(), AllocError>
    ensures { OnOk result (out.new.items ≡ put out.old.items (place_word place)) }
{
    match place {
        Place::Own => put_word(out, b"self"),
        Place::Object(object) => put_object(out, object.0),
    }
}

/// Puts the word of an object's number.
fn put_object(out: &mut Vec<u8>, number: u16) -> Result<(), AllocError>
    ensures { OnOk result (out.new.items ≡ put out.old.items (object_word number)) }
{
    let first_session = ObjectNo::of_session(SlotNo(0)).0;
    let first_file = ObjectNo::of_file(FileNo(0)).0;
    if number == ObjectNo::POOL.0 {
        put_word(out, b"pool")
    } else if number == ObjectNo::REGISTRY.0 {
        put_word(out, b"reg")
    } else if number < first_session {
        put_marked(out, b"dev", u64::from(number - FIRST_HANDLER))
    } else if number < first_file {
        put_marked(out, b"s", u64::from(number - first_session))
    } else {
        put_marked(out, b"f", u64::from(number - first_file))
    }
}
