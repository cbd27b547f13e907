//! The kernel's objects, and how an agent reaches them one turn at a time.
#![tactic(auto)]

mod building;
mod cold;
mod gathering;
mod halt;
mod kernel;
mod labels;
mod memory;
mod object;
mod places;
mod plain;
mod reach;
mod scrap;
mod views;

pub use halt::{Halt, LATE};
pub use kernel::Kernel;
pub use labels::Labels;
pub use memory::Places;
pub use object::Object;
pub use plain::PlainReach;
pub use reach::Reach;
