//! Laws of the world in which a kernel begins after a kexec: what its objects are made of is what `next` says, and what is
//! written into scratch areas before it begins changes nothing that is carried.
#![tactic(auto)]

pub mod begins;
pub mod follows;
pub mod scratch;

pub use scratch::law_of_scratch;
