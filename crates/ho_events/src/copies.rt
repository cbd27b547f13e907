//! Copies of entries into memory that was taken before.

ghost use Rattle.std.specs.Prelude.{◌≡◌, ◌+◌, ◌<◌, ◌≤◌, ◌^◌, length, max, [], vec_capacity};
ghost use Rattle.ho_events.specs.Slips.{HasRoomFor, HasReplyRoomFor, entry_at, event_runs, event_bytes, reply_runs, reply_bytes};

use crate::entry::{Entry, Place};
use crate::event::Event;
use crate::reply::Reply;
use crate::slip::{At, Lists, ReplyLists, Turned};
use ho_base::Items;
use ho_base::numbers::Pfn;

/// Puts a copy of the items into an empty vector that has room for them. It takes no memory.
fn copied<T: Copy>(mut to: Vec<T>, from: &Items<T>) -> Items<T>
    requires empty { to.items ≡ [] }
    requires room { length from.now ≤ vec_capacity to }
    ensures { result ≡ from.now }
{
    to.extend_from_slice(from.as_slice()).unwrap();
    Items::from_vec(to)
}

/// A copy of an event in lists that have room for what it lists. It takes no memory.
pub fn event_copy(event: &Event, runs: Vec<Pfn>, bytes: Vec<u8>) -> Event
    requires no_runs { runs.items ≡ [] }
    requires no_bytes { bytes.items ≡ [] }
    requires runs_room { length (event_runs event.now) ≤ vec_capacity runs }
    requires bytes_room { length (event_bytes event.now) ≤ vec_capacity bytes }
    ensures { result ≡ event.now }
{
    match event {
        Event::PoolTake(order, first) => Event::PoolTake(*order, *first),
        Event::PoolGive(order, items) => Event::PoolGive(*order, copied(runs, items)),
        Event::PoolMark(order, items) => Event::PoolMark(*order, copied(runs, items)),
        Event::PoolUnmark(order, items) => Event::PoolUnmark(*order, copied(runs, items)),
        Event::RegNewFile => Event::RegNewFile,
        Event::RegFreeFile(file) => Event::RegFreeFile(*file),
        Event::RegDropName(name) => Event::RegDropName(*name),
        Event::RegDropIn(name) => Event::RegDropIn(*name),
        Event::RegCreate(name) => Event::RegCreate(*name),
        Event::RegFindOut(name) => Event::RegFindOut(*name),
        Event::RegFindIn(name) => Event::RegFindIn(*name),
        Event::RegOpen(name) => Event::RegOpen(*name),
        Event::FileInit(kind, order, first, items) => Event::FileInit(
            *kind,
            *order,
            *first,
            copied(runs, items),
        ),
        Event::FileWrite(first, text, items) => Event::FileWrite(
            *first,
            copied(bytes, text),
            copied(runs, items),
        ),
        Event::FileFill(first, second, byte, items) => Event::FileFill(
            *first,
            *second,
            *byte,
            copied(runs, items),
        ),
        Event::FileRead(first, second) => Event::FileRead(*first, *second),
        Event::FileTruncate(first) => Event::FileTruncate(*first),
        Event::FileSeek(first) => Event::FileSeek(*first),
        Event::FileTell => Event::FileTell,
        Event::FileCloseFd => Event::FileCloseFd,
        Event::FilePin(items) => Event::FilePin(copied(runs, items)),
        Event::FileUnpin => Event::FileUnpin,
        Event::FileOpenHeld => Event::FileOpenHeld,
        Event::FileFinish => Event::FileFinish,
        Event::SessionBegin(name) => Event::SessionBegin(*name),
        Event::SessionOpen(name) => Event::SessionOpen(*name),
        Event::SessionAdd(name, token, file, handle) => Event::SessionAdd(
            *name, *token, *file, *handle,
        ),
        Event::SessionClose(name) => Event::SessionClose(*name),
        Event::SessionTake(name, token) => Event::SessionTake(*name, *token),
        Event::SessionFinish(name) => Event::SessionFinish(*name),
        Event::HandlerPreserve(file, frame) => Event::HandlerPreserve(*file, *frame),
        Event::HandlerUnpreserve(file, handle) => Event::HandlerUnpreserve(*file, *handle),
        Event::HandlerFinish(file, handle) => Event::HandlerFinish(*file, *handle),
        Event::HandlerFreeze(file, handle) => Event::HandlerFreeze(*file, *handle),
        Event::HandlerCanFinish(file, handle) => Event::HandlerCanFinish(*file, *handle),
        Event::HandlerUnfreeze(file, handle) => Event::HandlerUnfreeze(*file, *handle),
        Event::HandlerRetrieve(file, handle) => Event::HandlerRetrieve(*file, *handle),
        Event::SelfDone => Event::SelfDone,
    }
}

/// A copy of a reply in lists that have room for what it lists. It takes no memory.
pub fn reply_copy(reply: &Reply, runs: Vec<Pfn>, bytes: Vec<u8>) -> Reply
    requires no_runs { runs.items ≡ [] }
    requires no_bytes { bytes.items ≡ [] }
    requires runs_room { length (reply_runs reply.now) ≤ vec_capacity runs }
    requires bytes_room { length (reply_bytes reply.now) ≤ vec_capacity bytes }
    ensures { result ≡ reply.now }
{
    match reply {
        Reply::Ok => Reply::Ok,
        Reply::OkFile(file) => Reply::OkFile(*file),
        Reply::OkSlot(slot) => Reply::OkSlot(*slot),
        Reply::OkBytes(text) => Reply::OkBytes(copied(bytes, text)),
        Reply::OkAt(first) => Reply::OkAt(*first),
        Reply::OkRuns(items) => Reply::OkRuns(copied(runs, items)),
        Reply::OkHandle(handle, bound) => Reply::OkHandle(*handle, *bound),
        Reply::OkBound(bound) => Reply::OkBound(*bound),
        Reply::Kept => Reply::Kept,
        Reply::KeptRuns(items) => Reply::KeptRuns(copied(runs, items)),
        Reply::Gone(items) => Reply::Gone(copied(runs, items)),
        Reply::Got(items) => Reply::Got(copied(runs, items)),
        Reply::NoFrames => Reply::NoFrames,
        Reply::NoFramesOf(first) => Reply::NoFramesOf(*first),
        Reply::Last(frame) => Reply::Last(*frame),
        Reply::Failed(handle) => Reply::Failed(*handle),
        Reply::FilesFull => Reply::FilesFull,
        Reply::NameTaken => Reply::NameTaken,
        Reply::SessionsFull => Reply::SessionsFull,
        Reply::NoSession => Reply::NoSession,
        Reply::AlreadyOpen => Reply::AlreadyOpen,
        Reply::TooBig => Reply::TooBig,
        Reply::SizeFrozen => Reply::SizeFrozen,
        Reply::PastEnd => Reply::PastEnd,
        Reply::NotFinished => Reply::NotFinished,
        Reply::AlreadyPinned => Reply::AlreadyPinned,
        Reply::HandlerFailed => Reply::HandlerFailed,
        Reply::SessionFull => Reply::SessionFull,
        Reply::TokenTaken => Reply::TokenTaken,
        Reply::NoToken => Reply::NoToken,
        Reply::AlreadyTaken => Reply::AlreadyTaken,
        Reply::BadFd => Reply::BadFd,
        Reply::ScratchSmall(first, second) => Reply::ScratchSmall(*first, *second),
        Reply::FreezeFailed(name, token) => Reply::FreezeFailed(*name, *token),
    }
}

/// The entry of a turn twice, for the object's history and for the agent's log, and its reply again as the
/// turn's answer. It takes no memory.
pub fn turn(
    at: At,
    last: u64,
    object: Place,
    event: Event,
    reply: Reply,
    copy: Lists,
    value: ReplyLists,
) -> (Entry, Turned<Reply>)
    requires agent_stamp { at.last < 2 ^ 63 }
    requires object_stamp { last < 2 ^ 63 }
    requires copy { HasRoomFor event reply copy }
    requires value { HasReplyRoomFor reply value }
    ensures kept { result.0 ≡ entry_at at last object event reply }
    ensures told { result.1.entry ≡ entry_at at last object event reply }
    ensures value { result.1.value ≡ reply }
{
    let stamp = 1 + at.last.max(last);
    let told = Entry {
        kernel: at.kernel,
        stamp,
        agent: at.agent,
        command: at.command,
        object,
        event: event_copy(&event, copy.event_runs, copy.event_bytes),
        reply: reply_copy(&reply, copy.reply_runs, copy.reply_bytes),
    };
    let answer = reply_copy(&reply, value.runs, value.bytes);
    let kept = Entry {
        kernel: at.kernel,
        stamp,
        agent: at.agent,
        command: at.command,
        object,
        event,
        reply,
    };
    (
        kept,
        Turned {
            entry: told,
            value: answer,
        },
    )
}
