//! Laws of what is written: frames that hold it carry the state.
#![tactic(auto)]

pub mod carrying;
pub mod owners;
pub mod records;
pub mod tree;
