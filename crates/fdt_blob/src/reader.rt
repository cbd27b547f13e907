//! Reading a blob that others may have written.

ghost use Rattle.std.specs.Prelude.{◌≡◌, ◌↔◌, IfOk, Err, length};
ghost use Rattle.std.specs.Option.{option_map};
ghost use Rattle.fdt_blob.specs.Trees.{Tree, properties_of, children_of, value_in, count_of};
ghost use Rattle.fdt_blob.specs.Blob.{Spells, BreaksAt};
ghost use Rattle.fdt_blob.specs.Reading.{Gives};
ghost use Rattle.fdt_blob.specs.Places.{Carries, IsTreeAt, IsNodeAt, IsChildAt};

use crate::blocks::{first_broken, strings_of, structure_of};
use crate::items::Item;
use crate::places::{child_at, counts_at, value_at};
use crate::structure::items_of_tree;
use crate::tree::{FdtPlace, NodeAt};
use std::alloc::{AllocError, Global};
use std::marker::Model;

/// Why a blob is not opened.
#[derive(Clone, Copy, Debug, PartialEq)]
pub enum OpenError {
    /// The bytes spell no tree; the place is the first whose rules break.
    BadFdt(FdtPlace),
    /// Memory ran out.
    Memory,
}

impl From<AllocError> for OpenError {
    ghost use Rattle.std.specs.Prelude.{◌≡◌};
    ghost use Rattle.fdt_blob.specs.declared.reader.OpenError.TheVariants.{Memory};

    ghost from_gives = { λ _ e. e ≡ Memory };

    fn from(_: AllocError) -> OpenError {
        OpenError::Memory
    }
}

/// A blob that was opened. It keeps a list of the tree's parts, which point into the blob: at most one for each four
/// bytes of the structure block.
#[derive(Debug, Drop)]
pub struct Reader<'a> {
    items: Vec<Item<'a>>,
}

impl<'a> Model for Reader<'a> {
    ghost use Rattle.std.specs.Prelude.{List, length, ◌<◌, ◌^◌};
    ghost use Rattle.fdt_blob.specs.Tokens.{Item};
    ghost use Rattle.fdt_blob.specs.Items.{item_views};

    ghost Value = { List Item };

    ghost view = { λ r. item_views r.items.items };

    ghost invariant = { λ r. length r.items.items < 2 ^ 32 };
}

impl<'a> Reader<'a> {
    /// Opens a blob (5). Bytes behind its total are not looked at, nor are the reservation entries and the boot
    /// processor. It goes over the blob once, and over each node's items once a level for doubles among its names,
    /// which it sorts; it takes memory for the list of the tree's parts and of the names of one node.
    pub fn open(alloc: Global, bytes: &'a [u8]) -> Result<Reader<'a>, OpenError>
        // What is opened is the tree that the bytes spell.
        ensures found { IfOk result (λ reader. (t : Tree) × Spells bytes.now t × Carries reader t) }
        // The first place whose rules break is told, the first two even where memory is short.
        ensures header { (result ≡ Err (OpenError.BadFdt FdtPlace.Header)) ↔ BreaksAt bytes.now FdtPlace.Header }
        ensures reservations { (result ≡ Err (OpenError.BadFdt FdtPlace.Reservations)) ↔ BreaksAt bytes.now FdtPlace.Reservations }
        ensures structure { result ≡ Err (OpenError.BadFdt FdtPlace.Structure) → BreaksAt bytes.now FdtPlace.Structure }
    {
        if let Some(place) = first_broken(bytes) {
            return Err(OpenError::BadFdt(place));
        }
        let items = items_of_tree(alloc, strings_of(bytes), structure_of(bytes))?;
        match items {
            Some(items) => Ok(Reader { items }),
            None => Err(OpenError::BadFdt(FdtPlace::Structure)),
        }
    }

    /// The root.
    pub fn root(&self) -> NodeAt
        ensures { (t : Tree) → Carries self.now t → IsTreeAt self.now result.0 t }
    {
        NodeAt(0)
    }

    /// The value of the node's property with this name. It is a part of the blob.
    pub fn prop(&self, node: NodeAt, name: &[u8]) -> Option<&'a [u8]>
        requires { IsNodeAt self.now node.0 }
        ensures { (t : Tree) → IsTreeAt self.now node.0 t → Gives (λ value. value.now) result (value_in name.now (properties_of t)) }
    {
        value_at(&self.items, node, name)
    }

    /// The node's child with this name.
    pub fn child(&self, node: NodeAt, name: &[u8]) -> Option<NodeAt>
        requires { IsNodeAt self.now node.0 }
        ensures { (t : Tree) → IsTreeAt self.now node.0 t → IsChildAt self.now name.now (children_of t) (option_map (λ n. n.0) result) }
    {
        child_at(&self.items, node, name)
    }

    /// The numbers of the node's properties and of its children.
    pub fn counts(&self, node: NodeAt) -> (u32, u32)
        requires { IsNodeAt self.now node.0 }
        ensures properties { (t : Tree) → IsTreeAt self.now node.0 t → result.0 ≡ length (properties_of t) }
        ensures children { (t : Tree) → IsTreeAt self.now node.0 t → result.1 ≡ count_of (children_of t) }
    {
        counts_at(&self.items, node)
    }
}
