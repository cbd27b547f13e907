//! Chunk frames as they are read.

/// An element of a chunk frame: the bitmap of an order, from a base on.
#[derive(Debug, Drop)]
pub struct ElementRead {
    /// The first frame for which the bitmap speaks.
    pub base: u64,
    /// The order of the runs for which its bits stand.
    pub order: u64,
    /// The bitmap: 512 bytes.
    pub bits: Vec<u8>,
}

/// A chunk frame with its elements.
#[derive(Debug, Drop)]
pub struct ChunkSheet {
    /// The frame's number.
    pub at: u64,
    /// Its elements, from 1 to 7.
    pub items: Vec<ElementRead>,
}
