//! The writer of what a kexec carries: the entry frame, the records and the chain of chunk frames.
#![tactic(auto)]

mod bounds;
mod bytes;
mod chains;
mod entry;
mod fronts;
pub mod laws;
mod marks;
mod prepared;
mod writer;

pub use entry::write_entry;
pub use marks::tracker_of;
pub use prepared::Prepared;
pub use writer::write;
