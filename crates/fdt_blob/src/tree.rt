//! Trees of named nodes, and the places of a blob.

/// A property: its name and its value.
#[derive(Debug, Drop)]
pub struct Prop {
    /// 1 to 31 bytes of `0-9 a-z A-Z , . _ + ? # -`.
    pub name: Vec<u8>,
    /// Any bytes.
    pub value: Vec<u8>,
}

/// A node, with all below it.
#[derive(Debug, Drop)]
pub struct Node {
    /// The root's is empty, and another node's has 1 to 31 bytes of `0-9 a-z A-Z , . _ + -`.
    pub name: Vec<u8>,
    /// The properties in order. No name stands twice.
    pub props: Vec<Prop>,
    /// The nodes below this one, in order. No name stands twice.
    pub children: Vec<Node>,
}

/// A node of an opened blob, named by its place there.
#[derive(Clone, Copy, Debug, PartialEq)]
pub struct NodeAt(pub u32);

/// The part of a blob whose rules break.
#[derive(Clone, Copy, Debug, PartialEq)]
pub enum FdtPlace {
    /// The header, or where the blocks lie (5.2).
    Header,
    /// The memory reservation block (5.3).
    Reservations,
    /// The structure block with the names of the properties (5.4, 5.5).
    Structure,
}
