//! The memory of a turn, taken before the turn, so that the turn itself takes none.

ghost use Rattle.std.specs.Prelude.{◌≡◌, IfOk};
ghost use Rattle.ho_events.specs.Slips.{HasRoom, HasReplyRoom};

use crate::entry::Entry;
use ho_base::numbers::{AgentNo, NoMemory, Pfn};
use std::alloc::{AllocError, Global};
use std::marker::Model;

/// Who does a command in which kernel, and the agent's last stamp.
#[derive(Clone, Copy, Debug)]
pub struct At {
    pub kernel: u8,
    pub agent: AgentNo,
    pub command: u32,
    /// The stamp of the agent's last entry, or the greatest one of the kernel as its block began.
    pub last: u64,
}

/// At most how many numbers and bytes the event and the reply of an entry list.
#[derive(Clone, Copy, Debug)]
pub struct Listed {
    pub event_numbers: u32,
    pub event_bytes: u32,
    pub reply_numbers: u32,
    pub reply_bytes: u32,
}

/// Empty lists with memory for what an entry lists.
#[derive(Drop)]
pub struct Lists {
    pub event_runs: Vec<Pfn>,
    pub event_bytes: Vec<u8>,
    pub reply_runs: Vec<Pfn>,
    pub reply_bytes: Vec<u8>,
}

/// Empty lists with memory for what a reply lists.
#[derive(Drop)]
pub struct ReplyLists {
    pub runs: Vec<Pfn>,
    pub bytes: Vec<u8>,
}

/// Memory for one entry, its copy and one more copy of its reply, seen as what it was made for. Where nothing is
/// listed it takes no memory.
#[derive(Drop)]
pub struct Room {
    listed: Listed,
    own: Lists,
    copy: Lists,
    value: ReplyLists,
}

impl Model for Room {
    ghost use Rattle.ho_events.specs.Slips.{HasRoom, HasReplyRoom};
    ghost use Rattle.ho_events.specs.declared.slip.Listed.{Listed};

    ghost Value = { Listed };

    ghost view = { λ r. r.listed };

    ghost invariant = { λ r. HasRoom r.listed r.own × HasRoom r.listed r.copy × HasReplyRoom r.listed r.value };
}

/// Who takes a turn, and the memory for its entry.
#[derive(Drop)]
pub struct Slip {
    pub at: At,
    pub room: Room,
}

/// What a turn gives: its entry, and what was answered.
#[derive(Drop)]
pub struct Turned<T> {
    pub entry: Entry,
    pub value: T,
}

impl Listed {
    /// Nothing is listed.
    pub fn nothing() -> Listed
        ensures { result ≡ record { event_numbers = 0; event_bytes = 0; reply_numbers = 0; reply_bytes = 0 } }
    {
        Listed {
            event_numbers: 0,
            event_bytes: 0,
            reply_numbers: 0,
            reply_bytes: 0,
        }
    }

    /// The event lists so many numbers and bytes, the reply none.
    pub fn in_event(numbers: u32, bytes: u32) -> Listed
        ensures { result ≡ record { event_numbers = numbers; event_bytes = bytes; reply_numbers = 0; reply_bytes = 0 } }
    {
        Listed {
            event_numbers: numbers,
            event_bytes: bytes,
            reply_numbers: 0,
            reply_bytes: 0,
        }
    }

    /// The reply lists so many numbers and bytes, the event none.
    pub fn in_reply(numbers: u32, bytes: u32) -> Listed
        ensures { result ≡ record { event_numbers = 0; event_bytes = 0; reply_numbers = numbers; reply_bytes = bytes } }
    {
        Listed {
            event_numbers: 0,
            event_bytes: 0,
            reply_numbers: numbers,
            reply_bytes: bytes,
        }
    }
}

impl Lists {
    /// Empty lists with memory for so much each.
    fn make(alloc: Global, listed: Listed) -> Result<Lists, AllocError>
        ensures { IfOk result (λ l. HasRoom listed l) }
    {
        Ok(Lists {
            event_runs: Vec::with_capacity(alloc, listed.event_numbers as usize)?,
            event_bytes: Vec::with_capacity(alloc, listed.event_bytes as usize)?,
            reply_runs: Vec::with_capacity(alloc, listed.reply_numbers as usize)?,
            reply_bytes: Vec::with_capacity(alloc, listed.reply_bytes as usize)?,
        })
    }
}

impl ReplyLists {
    /// Empty lists with memory for so much each.
    fn make(alloc: Global, listed: Listed) -> Result<ReplyLists, AllocError>
        ensures { IfOk result (λ l. HasReplyRoom listed l) }
    {
        Ok(ReplyLists {
            runs: Vec::with_capacity(alloc, listed.reply_numbers as usize)?,
            bytes: Vec::with_capacity(alloc, listed.reply_bytes as usize)?,
        })
    }
}

impl Slip {
    /// A slip with memory for an entry that lists at most so much.
    pub fn make(alloc: Global, at: At, listed: Listed) -> Result<Slip, NoMemory>
        ensures at { IfOk result (λ s. s.at ≡ at) }
        ensures room { IfOk result (λ s. s.room ≡ listed) }
    {
        match Room::make(alloc, listed) {
            Ok(room) => Ok(Slip { at, room }),
            Err(_) => Err(NoMemory),
        }
    }

    /// The slip's parts: lists for the entry that the turn keeps, for its copy, and for the answer.
    pub fn open(self) -> (At, Lists, Lists, ReplyLists)
        ensures at { result.0 ≡ self.at }
        ensures own { HasRoom self.room result.1 }
        ensures copy { HasRoom self.room result.2 }
        ensures value { HasReplyRoom self.room result.3 }
    {
        let Slip { at, room } = self;
        let Room {
            listed: _,
            own,
            copy,
            value,
        } = room;
        (at, own, copy, value)
    }
}

impl Room {
    fn make(alloc: Global, listed: Listed) -> Result<Room, AllocError>
        ensures { IfOk result (λ r. r ≡ listed) }
    {
        Ok(Room {
            listed,
            own: Lists::make(alloc, listed)?,
            copy: Lists::make(alloc, listed)?,
            value: ReplyLists::make(alloc, listed)?,
        })
    }
}
