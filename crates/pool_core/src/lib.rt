//! The pool: which frames of a machine are owned and which are pinned, and the history of that.
#![tactic(auto)]

mod adopting;
mod asking;
mod frames;
mod pool;

pub use frames::PoolFrames;
pub use pool::Pool;
