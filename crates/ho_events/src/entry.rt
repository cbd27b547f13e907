//! The entries of a history.

use crate::event::Event;
use crate::reply::Reply;
use ho_base::numbers::{AgentNo, ObjectNo};

/// Where an event was: on an object, or in the agent's own log.
#[derive(Clone, Copy, Debug, PartialEq)]
pub enum Place {
    Object(ObjectNo),
    Own,
}

/// One event with its reply: who did it for which command, where, and when.
#[derive(Drop)]
pub struct Entry {
    /// The kernel's number, from 0 on.
    pub kernel: u8,
    /// One more than the last stamps of the agent and of the object.
    pub stamp: u64,
    pub agent: AgentNo,
    /// The command's number among all commands of this agent, from 1 on.
    pub command: u32,
    pub object: Place,
    pub event: Event,
    pub reply: Reply,
}
