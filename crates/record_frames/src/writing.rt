//! The writer of records: the frames that hand a state on, byte by byte.

mod file_frames;
mod frame;
pub mod laws;
mod list_frames;
mod records;
mod session_frames;
mod slots;

pub use records::write_records;
