//! The numbers of the format (5.2, 5.4) and of this crate's profile of it.

/// The first word of a blob.
pub(crate) const MAGIC: u32 = 0xd00d_feed;

/// The version of the format.
pub(crate) const VERSION: u32 = 17;

/// The last version that this one is compatible with.
pub(crate) const COMPATIBLE: u32 = 16;

/// The token that begins a node; its name follows.
pub(crate) const BEGIN_NODE: u32 = 1;

/// The token that ends a node.
pub(crate) const END_NODE: u32 = 2;

/// The token of a property; the value's length, the name's place and the value follow.
pub(crate) const PROP: u32 = 3;

/// The token that says nothing.
pub(crate) const NOP: u32 = 4;

/// The token that ends the structure block.
pub(crate) const END: u32 = 9;

/// The most levels of a tree, counted from the root as 1.
pub(crate) const LEVELS: u32 = 16;
