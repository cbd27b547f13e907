//! The buddy allocator: hands out runs of frames, each of `2^order` frames, from a machine's free frames.
#![tactic(auto)]

mod blocks;
mod buddy;
mod page_map;
mod passes;

pub use buddy::Buddy;
