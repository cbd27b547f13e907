//! Scripts, and the history that a run of one leaves: entries, their text, and what makes them legal.
#![tactic(auto)]

pub mod append;
pub mod by_name;
pub mod chronicle;
pub mod command;
pub mod copies;
pub mod entry;
pub mod event;
pub mod line;
pub mod reply;
pub mod script;
pub mod slip;
pub mod text;
