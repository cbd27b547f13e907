//! Files of any order over folios, with holes.
#![tactic(auto)]

mod facts;
mod file;
mod going_home;
mod holding;
mod same_byte;
mod sized;
mod slots;
mod whole;

pub use facts::Facts;
pub use file::FileFolios;
