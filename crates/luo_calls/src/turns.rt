//! The turns of which commands are made.

pub mod done;
pub mod file;
pub mod memfd;
pub mod open;
pub mod pin;
pub mod pool;
pub mod put;
pub mod query;
pub mod registry;
pub mod resume;
pub mod session;
pub mod truncate;
pub mod write;
