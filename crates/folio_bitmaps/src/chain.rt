//! What a chain of chunk frames says.

use crate::tracker::Tracker;
use ho_base::numbers::Pfn;

/// A chain that was read: the runs that it marks, and its chunk frames in order.
#[derive(Debug, Drop)]
pub struct Chain {
    /// The runs that it marks.
    pub tracker: Tracker,
    /// Its chunk frames, from the first one on.
    pub chunks: Vec<Pfn>,
}

/// Why no chain was read.
#[derive(Clone, Copy, Debug, PartialEq)]
pub enum ChainError {
    /// The first number along the chain that breaks a rule: it isn't that of a frame from 1 on, it stands in the chain
    /// already, or what its frame holds isn't a chunk that goes on from those before it.
    BadChain(u64),
    /// Memory that was asked for could not be had.
    Memory,
}
