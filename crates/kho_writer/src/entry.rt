//! The blob of the handover tree, written straight into the entry frame.

mod bounds;
mod entry;
mod parts;
mod put;
mod tokens;

pub use crate::entry::entry::write_entry;
