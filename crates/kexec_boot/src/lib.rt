//! How a kernel boots from what an earlier one handed over.
#![tactic(auto)]

mod boots;
mod files;
mod holding;
mod images;
mod loading;
mod prepared;
mod reading;
mod waiting;

pub use boots::boot;
pub use images::boot_image;
pub use reading::BootError;
