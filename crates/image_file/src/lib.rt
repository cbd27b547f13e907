//! Images of a machine's frames as files: written to any sink, and read from bytes.
#![tactic(auto)]

mod blocks;
mod header;
mod laws;
mod loader;
mod reader;
mod writer;

pub use laws::law_of_images;
pub use loader::{LoadError, load_image};
pub use reader::{ImageError, read_image};
pub use writer::write_image;
