//! Devicetree blobs, read and written exactly (Devicetree Specification v0.4, chapter 5, version 17).
#![tactic(auto)]

mod blocks;
mod doubles;
mod format;
mod items;
pub mod laws;
mod names;
mod places;
mod profile;
pub mod reader;
mod reading;
mod shape;
mod strings;
mod structure;
pub mod tree;
mod walk;
pub mod writer;

pub use profile::valid;
pub use reader::{OpenError, Reader};
pub use tree::{FdtPlace, Node, NodeAt, Prop};
pub use writer::{WriteError, write};
