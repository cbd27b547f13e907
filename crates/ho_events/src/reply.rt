//! The replies to events.

use ho_base::Items;
use ho_base::bound::Bound;
use ho_base::name::Name;
use ho_base::numbers::{FileNo, Pfn, SlotNo, Token};

/// What an event was answered.
#[derive(Drop)]
pub enum Reply {
    Ok,
    OkFile(FileNo),
    OkSlot(SlotNo),
    OkBytes(Items<u8>),
    /// A position in bytes.
    OkAt(u32),
    OkRuns(Items<Pfn>),
    /// A handle and the bound bytes.
    OkHandle(u64, Bound),
    OkBound(Bound),
    /// Something else still holds it.
    Kept,
    KeptRuns(Items<Pfn>),
    /// Nothing holds it any more; these were its runs.
    Gone(Items<Pfn>),
    Got(Items<Pfn>),
    NoFrames,
    /// As many frames or runs were wanted.
    NoFramesOf(u32),
    /// It was the last one; this was the bound record's frame.
    Last(Pfn),
    /// The handler failed; its count of faults afterwards.
    Failed(u64),
    FilesFull,
    NameTaken,
    SessionsFull,
    NoSession,
    AlreadyOpen,
    TooBig,
    SizeFrozen,
    PastEnd,
    NotFinished,
    AlreadyPinned,
    HandlerFailed,
    SessionFull,
    TokenTaken,
    NoToken,
    AlreadyTaken,
    BadFd,
    /// The frames that scratch area 0 would need, and those that it has.
    ScratchSmall(u32, u32),
    /// The session and token of the file whose handler failed.
    FreezeFailed(Name, Token),
}
