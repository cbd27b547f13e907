//! Session slots: a named container of files under tokens, with the history of all turns on it.
#![tactic(auto)]

mod carried;
mod incoming;
mod opening;
mod session;

pub use session::SessionObject;
