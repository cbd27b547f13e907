//! Whole commands: each does a whole sequence of its acts, or stops in the middle.

pub mod close;
pub mod close_fd;
pub mod close_files;
pub mod command;
pub mod create;
pub mod memfd;
pub mod preserve;
pub mod query;
pub mod truncate;
pub mod write;
