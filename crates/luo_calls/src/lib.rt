//! What the commands of an agent do, turn by turn, over any reach.
#![tactic(auto)]

pub mod commands;
mod stuck;
pub mod turns;

pub use commands::command::{Outcome, do_command};
pub use stuck::{Stopped, Stuck, empty_handed, release};
