//! Files, with the history of all turns on each. So far each file is a memfd, of any order and up to
//! [`FILE_BYTES`](ho_base::limits::FILE_BYTES) bytes, with holes.
#![tactic(auto)]

mod closing;
mod file;
mod finishing;
mod holding;
mod laws;
mod pinning;
mod sizing;
mod writing;

pub use file::FileObject;
pub use file_folios::Facts;
pub use laws::law_of_writing;
