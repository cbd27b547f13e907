//! How much of an image is read or written at a time.

/// The frames of a block.
pub(crate) const BLOCK_FRAMES: u32 = 16;

/// Their bytes.
pub(crate) const BLOCK_BYTES: usize = 65_536;
