//! The places of frames that carry nothing.

use fdt_blob::FdtPlace;
use ho_base::numbers::{Kind, Pfn};

/// The first place whose rules break, in the order in which frames are read.
#[derive(Clone, Copy, Debug, PartialEq)]
pub enum ImagePlace {
    /// The number of the entry frame: it is 0, or not below the number of frames.
    Entry,
    /// The entry frame's bytes spell no tree; the part of the blob whose rules break first.
    Tree(FdtPlace),
    /// The properties of the tree's root, or its children.
    Root,
    /// The root's child `luo`: its properties, or that it has children.
    Luo,
    /// The number of a chunk frame: the first along the chain that breaks a rule.
    Chain(u64),
    /// The number of a session, file or list frame: the first in reading order that breaks a rule.
    Record(u64),
    /// The bound record of this kind, the first in order of kinds.
    Bound(Kind),
    /// The least frame that has not just the users and marks that it should have.
    Owner(Pfn),
}
