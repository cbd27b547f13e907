//! Records: which bytes of frames carry what a kexec carries.
#![tactic(auto)]

mod bounds;
mod carried;
mod entry;
mod file_frame;
mod files;
mod handover;
pub mod laws;
mod lists;
mod pages;
mod place;
pub mod reading;
mod seen;
mod session_frame;
mod sessions;
mod slot_reading;
pub mod writing;

pub use carried::{Carried, CarriedBound, CarriedFile, CarriedSession, need};
pub use place::ImagePlace;
