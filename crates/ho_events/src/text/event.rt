//! The words of events.

ghost use Rattle.std.specs.Prelude.{◌≡◌, [], ◌∷◌, codes, decimal, OnOk};
ghost use Rattle.std.specs.Option.{option_to_list};
ghost use Rattle.ho_events.specs.Appended.{puts};
ghost use Rattle.ho_events.specs.Text.{event_words, file_word, hex_word, kind_word, runs_word};

use crate::event::Event;
use crate::text::forms::{
    put_with_file, put_with_handle, put_with_name, put_with_number, put_with_numbers,
    put_with_order_and_runs, put_with_runs, put_with_token,
};
use crate::text::words::{put_hex, put_kind, put_marked, put_number, put_runs, put_word};
use ho_base::name::Name;
use ho_base::numbers::{FileNo, Kind, Order, Pfn, Token};
use std::alloc::AllocError;

/// Puts the words of an event.
pub fn put_event(out: &mut Vec<u8>, event: &Event) -> Result<(), AllocError>
    ensures { OnOk result (out.new.items ≡ puts out.old.items (event_words event.now)) }
{
    match event {
        Event::PoolTake(order, count) => put_with_numbers(
            out,
            b"take",
            u64::from(order.0),
            u64::from(*count),
        ),
        Event::PoolGive(order, runs) => put_with_order_and_runs(
            out,
            b"give",
            *order,
            runs.as_slice(),
        ),
        Event::PoolMark(order, runs) => put_with_order_and_runs(
            out,
            b"mark",
            *order,
            runs.as_slice(),
        ),
        Event::PoolUnmark(order, runs) => put_with_order_and_runs(
            out,
            b"unmark",
            *order,
            runs.as_slice(),
        ),
        Event::RegNewFile => put_word(out, b"new_file"),
        Event::RegFreeFile(file) => put_with_file(out, b"free_file", *file),
        Event::RegDropName(name) => put_with_name(out, b"drop_name", name),
        Event::RegDropIn(name) => put_with_name(out, b"drop_in", name),
        Event::RegCreate(name) => put_with_name(out, b"create", name),
        Event::RegFindOut(name) => put_with_name(out, b"find_out", name),
        Event::RegFindIn(name) => put_with_name(out, b"find_in", name),
        Event::RegOpen(name) => put_with_name(out, b"open", name),
        Event::FileInit(kind, order, size, runs) => put_init(
            out,
            *kind,
            *order,
            *size,
            runs.as_slice(),
        ),
        Event::FileWrite(offset, bytes, fills) => put_write(
            out,
            *offset,
            bytes.as_slice(),
            fills.as_slice(),
        ),
        Event::FileFill(offset, len, byte, fills) => put_fill(
            out,
            *offset,
            *len,
            *byte,
            fills.as_slice(),
        ),
        Event::FileRead(offset, len) => put_with_numbers(
            out,
            b"read",
            u64::from(*offset),
            u64::from(*len),
        ),
        Event::FileTruncate(size) => put_with_number(out, b"truncate", u64::from(*size)),
        Event::FileSeek(position) => put_with_number(out, b"seek", u64::from(*position)),
        Event::FileTell => put_word(out, b"tell"),
        Event::FileCloseFd => put_word(out, b"close_fd"),
        Event::FilePin(fills) => put_with_runs(out, b"pin", fills.as_slice()),
        Event::FileUnpin => put_word(out, b"unpin"),
        Event::FileOpenHeld => put_word(out, b"open_held"),
        Event::FileFinish => put_word(out, b"finish"),
        Event::SessionBegin(name) => put_with_name(out, b"begin", name),
        Event::SessionOpen(name) => put_with_name(out, b"open", name),
        Event::SessionAdd(name, token, file, handle) => put_add(out, name, *token, *file, *handle),
        Event::SessionClose(name) => put_with_name(out, b"close", name),
        Event::SessionTake(name, token) => put_with_token(out, b"take", name, *token),
        Event::SessionFinish(name) => put_with_name(out, b"finish", name),
        Event::HandlerPreserve(file, frame) => put_preserve(out, *file, *frame),
        Event::HandlerUnpreserve(file, handle) => put_with_handle(
            out,
            b"unpreserve",
            *file,
            *handle,
        ),
        Event::HandlerFinish(file, handle) => put_with_handle(out, b"finish", *file, *handle),
        Event::HandlerFreeze(file, handle) => put_with_handle(out, b"freeze", *file, *handle),
        Event::HandlerCanFinish(file, handle) => put_with_handle(
            out,
            b"can_finish",
            *file,
            *handle,
        ),
        Event::HandlerUnfreeze(file, handle) => put_with_handle(out, b"unfreeze", *file, *handle),
        Event::HandlerRetrieve(file, handle) => put_with_handle(out, b"retrieve", *file, *handle),
        Event::SelfDone => put_word(out, b"done"),
    }
}

/// Puts the words of a file's beginning.
fn put_init(
    out: &mut Vec<u8>,
    kind: Kind,
    order: Order,
    size: u32,
    runs: &[Pfn],
) -> Result<(), AllocError>
    ensures { OnOk result (out.new.items ≡ puts out.old.items
        (codes "init" ∷ kind_word kind ∷ decimal order.0 ∷ decimal size ∷ runs_word runs.now ∷ [])) }
{
    put_word(out, b"init")?;
    put_kind(out, kind)?;
    put_number(out, u64::from(order.0))?;
    put_number(out, u64::from(size))?;
    put_runs(out, runs)
}

/// Puts the words of a write.
fn put_write(out: &mut Vec<u8>, offset: u32, bytes: &[u8], fills: &[Pfn]) -> Result<(), AllocError>
    ensures { OnOk result (out.new.items ≡ puts out.old.items
        (codes "write" ∷ decimal offset ∷ hex_word bytes.now ∷ runs_word fills.now ∷ [])) }
{
    put_with_number(out, b"write", u64::from(offset))?;
    put_hex(out, bytes)?;
    put_runs(out, fills)
}

/// Puts the words of a fill.
fn put_fill(
    out: &mut Vec<u8>,
    offset: u32,
    len: u32,
    byte: u8,
    fills: &[Pfn],
) -> Result<(), AllocError>
    ensures { OnOk result (out.new.items ≡ puts out.old.items
        (codes "fill" ∷ decimal offset ∷ decimal len ∷ decimal byte ∷ runs_word fills.now ∷ [])) }
{
    put_with_numbers(out, b"fill", u64::from(offset), u64::from(len))?;
    put_number(out, u64::from(byte))?;
    put_runs(out, fills)
}

/// Puts the words of an adding.
fn put_add(
    out: &mut Vec<u8>,
    session: &Name,
    token: Token,
    file: FileNo,
    handle: u64,
) -> Result<(), AllocError>
    ensures { OnOk result (out.new.items ≡ puts out.old.items
        (codes "add" ∷ session.now ∷ decimal token.0 ∷ file_word file ∷ decimal handle ∷ [])) }
{
    put_with_token(out, b"add", session, token)?;
    put_marked(out, b"f", u64::from(file.0))?;
    put_number(out, handle)
}

/// Puts the words of a preservation: the list has the frame of the bound record, if there is one.
fn put_preserve(out: &mut Vec<u8>, file: FileNo, frame: Option<Pfn>) -> Result<(), AllocError>
    ensures { OnOk result (out.new.items ≡ puts out.old.items
        (codes "preserve" ∷ file_word file ∷ runs_word (option_to_list frame) ∷ [])) }
{
    put_with_file(out, b"preserve", file)?;
    match frame {
        None => put_runs(out, &[]),
        Some(frame) => put_runs(out, &[frame]),
    }
}
