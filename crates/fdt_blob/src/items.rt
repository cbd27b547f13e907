//! What a structure block consists of, without its NOPs.

/// A part of a tree. Its bytes are the blob's.
#[derive(Clone, Copy, Debug)]
pub enum Item<'a> {
    /// A node with this name begins.
    Begins(&'a [u8]),
    /// The node that began last has a property.
    Holds {
        /// The property's name.
        name: &'a [u8],
        /// The property's value.
        value: &'a [u8],
    },
    /// The node that began last, of those that have not ended, ends.
    Ends,
}
