//! The frames of a pool: which runs of them are owned, of every order, and which are pinned.

mod adopting;
mod asking;
mod marking;
mod pool;
mod runs;
mod table;
#[cfg(test)]
mod tests;
mod usable;

pub use pool::PoolFrames;
