//! The owners' rule of frames: each frame has at most one user, frame 0 has none, and just the runs of users are marked.

mod marked;
mod owned;
mod owner;
mod table;

pub use crate::owners::owned::{UsedRun, first_ill_frame};
