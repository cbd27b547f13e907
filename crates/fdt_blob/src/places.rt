//! Nodes named by the place of their items.

ghost use Rattle.std.specs.Prelude.{◌≡◌, ◌+◌, ◌^◌, ◌<◌, drop, length};
ghost use Rattle.std.specs.Option.{option_map};
ghost use Rattle.fdt_blob.specs.Trees.{Tree, properties_of, children_of, value_in, count_of};
ghost use Rattle.fdt_blob.specs.Items.{item_views};
ghost use Rattle.fdt_blob.specs.Reading.{Gives};
ghost use Rattle.fdt_blob.specs.Places.{IsTreeAt, IsNodeAt, IsChildAt};

use crate::items::Item;
use crate::tree::NodeAt;
use crate::walk::{child_count, child_of, property_count, value_of};

/// What stands behind the node's begin.
fn inner<'s, 'a>(items: &'s [Item<'a>], node: NodeAt) -> &'s [Item<'a>]
    requires { IsNodeAt (item_views items.now) node.0 }
    ensures { result.now ≡ drop (node.0 + 1) items.now }
{
    &items[node.0 as usize + 1..]
}

/// The value of the node's property with this name.
pub(crate) fn value_at<'a>(items: &[Item<'a>], node: NodeAt, name: &[u8]) -> Option<&'a [u8]>
    requires { IsNodeAt (item_views items.now) node.0 }
    ensures { (t : Tree) → IsTreeAt (item_views items.now) node.0 t → Gives (λ value. value.now) result (value_in name.now (properties_of t)) }
{
    value_of(inner(items, node), name)
}

/// The node's child with this name.
pub(crate) fn child_at(items: &[Item], node: NodeAt, name: &[u8]) -> Option<NodeAt>
    requires node { IsNodeAt (item_views items.now) node.0 }
    requires few { length items.now < 2 ^ 32 }
    ensures { (t : Tree) → IsTreeAt (item_views items.now) node.0 t → IsChildAt (item_views items.now) name.now (children_of t) (option_map (λ n. n.0) result) }
{
    match child_of(inner(items, node), name) {
        None => None,
        Some(at) => Some(NodeAt(node.0 + 1 + at as u32)),
    }
}

/// The numbers of the node's properties and of its children.
pub(crate) fn counts_at(items: &[Item], node: NodeAt) -> (u32, u32)
    requires node { IsNodeAt (item_views items.now) node.0 }
    requires few { length items.now < 2 ^ 32 }
    ensures properties { (t : Tree) → IsTreeAt (item_views items.now) node.0 t → result.0 ≡ length (properties_of t) }
    ensures children { (t : Tree) → IsTreeAt (item_views items.now) node.0 t → result.1 ≡ count_of (children_of t) }
{
    let behind = inner(items, node);
    (property_count(behind) as u32, child_count(behind) as u32)
}
