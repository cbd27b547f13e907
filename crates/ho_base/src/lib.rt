//! Base values of the machine: frames, orders, names, numbers, shapes and limits.
#![tactic(auto)]

pub mod bound;
pub mod bytes;
pub mod items;
pub mod limits;
pub mod name;
pub mod numbers;
pub mod shape;

pub use items::Items;
