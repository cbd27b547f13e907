//! The first scratch area: what a new kernel uses before its page allocator opens, and what it is handed.
#![tactic(auto)]

mod blob;
mod early;
mod handoff;

pub use blob::{load_blob, scratch_need};
pub use early::EarlyAlloc;
pub use handoff::Handoff;
