//! Whole commands: each does a whole sequence of its acts, or stops in the middle.

pub mod command;
pub mod finish;
mod finish_files;
pub mod open;
pub mod retrieve;
