//! The events: what an object can be asked. Each touches one object.

use ho_base::Items;
use ho_base::name::Name;
use ho_base::numbers::{FileNo, Kind, Order, Pfn, Token};

/// One event of the pool, the registry, a file, a session, a handler, or the agent itself.
#[derive(Drop)]
pub enum Event {
    /// Takes as many runs of an order.
    PoolTake(Order, u32),
    /// Gives runs of an order back.
    PoolGive(Order, Items<Pfn>),
    /// Pins the frames of owned runs.
    PoolMark(Order, Items<Pfn>),
    /// Lets the frames of pinned runs go.
    PoolUnmark(Order, Items<Pfn>),
    /// Takes the least file number that isn't in use.
    RegNewFile,
    /// Gives a file number back.
    RegFreeFile(FileNo),
    /// Ends an outgoing name.
    RegDropName(Name),
    /// Ends an opened name.
    RegDropIn(Name),
    /// Makes an outgoing name.
    RegCreate(Name),
    /// Finds the slot of an outgoing name.
    RegFindOut(Name),
    /// Finds the slot of an opened name.
    RegFindIn(Name),
    /// Opens a waiting name.
    RegOpen(Name),
    /// Becomes a file of this kind, order and size with these runs.
    FileInit(Kind, Order, u32, Items<Pfn>),
    /// Writes bytes at an offset; the runs fill the touched holes.
    FileWrite(u32, Items<u8>, Items<Pfn>),
    /// Writes equal bytes: offset, length, byte; the runs fill the touched holes.
    FileFill(u32, u32, u8, Items<Pfn>),
    /// Reads: offset and length.
    FileRead(u32, u32),
    /// Sets the size.
    FileTruncate(u32),
    /// Sets the position.
    FileSeek(u32),
    /// Gives the position.
    FileTell,
    /// Ends the label's hold on the file.
    FileCloseFd,
    /// Pins the file; the runs fill its holes.
    FilePin(Items<Pfn>),
    /// Ends the pin.
    FileUnpin,
    /// Opens a held file.
    FileOpenHeld,
    /// Ends the hold of an incoming session.
    FileFinish,
    /// Becomes the outgoing session of a name.
    SessionBegin(Name),
    /// Opens an incoming session.
    SessionOpen(Name),
    /// Adds a file under a token: session, token, file and handle.
    SessionAdd(Name, Token, FileNo, u64),
    /// Ends an outgoing session.
    SessionClose(Name),
    /// Gives a token's file, once.
    SessionTake(Name, Token),
    /// Ends an incoming session.
    SessionFinish(Name),
    /// Preserves a device file; the first one of a kind brings the frame of the bound record.
    HandlerPreserve(FileNo, Option<Pfn>),
    /// Ends a preservation: file and handle.
    HandlerUnpreserve(FileNo, u64),
    /// Ends an incoming file: file and handle.
    HandlerFinish(FileNo, u64),
    /// Freezes a preserved file: file and handle.
    HandlerFreeze(FileNo, u64),
    /// Asks whether an incoming file can be ended: file and handle.
    HandlerCanFinish(FileNo, u64),
    /// Unfreezes a file: file and handle.
    HandlerUnfreeze(FileNo, u64),
    /// Retrieves an incoming file: file and handle.
    HandlerRetrieve(FileNo, u64),
    /// The agent's command is done.
    SelfDone,
}
