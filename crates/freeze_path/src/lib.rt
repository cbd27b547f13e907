//! A kernel is frozen into frames, and these are handed on.
#![tactic(auto)]

mod freezing;
mod ready;
mod taking;

pub use freezing::{Freezing, Frozen, freeze, kexec};
