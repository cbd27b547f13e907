//! The facts of a file.

use ho_base::numbers::{Kind, Order};

/// A file's kind and order, its size and position in bytes, and what has it.
#[derive(Clone, Copy, Debug, PartialEq)]
pub struct Facts {
    pub kind: Kind,
    pub order: Order,
    /// The size in bytes.
    pub size: u32,
    /// The position in bytes, at most the size.
    pub position: u32,
    /// Whether a label has the file.
    pub opened: bool,
    /// Whether an outgoing session has it.
    pub pin: bool,
    /// Whether an incoming session has it.
    pub hold: bool,
}
