//! Objects that threads take turns with, each object for itself. In the end what every agent did stands in the
//! objects' histories and in the agents' logs, alike, however the threads ran.
#![tactic(auto)]

mod book;
mod bring;
mod logs;
mod pass;
mod rows;
mod rule;
mod turns;

pub use pass::Pass;
pub use turns::Turns;
