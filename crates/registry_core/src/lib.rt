//! The registry: which names have which session slots, and which file numbers are in use, with the history of that.
#![tactic(auto)]

mod carried;
mod incoming;
mod numbers;
mod outgoing;
mod parts;
mod registry;

pub use registry::Registry;
