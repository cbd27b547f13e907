//! Preserved bitmaps: which runs of a machine's frames are marked, and the chain of chunk frames that hands this on from
//! one kernel to the next.
#![tactic(auto)]

mod bitmaps;
mod chain;
mod chunks;
pub mod laws;
mod read;
mod reading;
mod tracker;

pub use bitmaps::chunk_count;
pub use chain::{Chain, ChainError};
pub use read::read_chain;
pub use tracker::Tracker;
