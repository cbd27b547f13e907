//! What a kexec carries of a kernel, gathered from the kernel's objects; and what is known of all its files.
#![tactic(auto)]

mod files;
mod gathering;

pub use files::has_no_devices;
pub use gathering::carried_of;
