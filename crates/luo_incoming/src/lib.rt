//! What the commands on incoming sessions do, turn by turn, over any reach.
#![tactic(auto)]

pub mod commands;
pub mod turns;

pub use commands::command::do_command;
