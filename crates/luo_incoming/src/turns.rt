//! The turns of which the commands on incoming sessions are made.

pub mod file;
pub mod registry;
pub mod session;
