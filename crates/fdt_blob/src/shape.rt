//! Whether items are those of a tree.

ghost use Rattle.std.specs.Prelude.{◌≡◌, false};
ghost use Rattle.fdt_blob.specs.Items.{item_views};
ghost use Rattle.fdt_blob.specs.Shape.{is_shape as shape, goes_on as goes_on_spec};

use crate::format::LEVELS;
use crate::items::Item;
use crate::names::{is_node_name, is_property_name};

/// Whether the items are those of a tree whose names and levels keep the rules.
pub(crate) fn is_shape(items: &[Item]) -> bool
    ensures { result ≡ shape (item_views items.now) }
{
    match items {
        [Item::Begins(name), rest @ ..] => name.is_empty() && goes_on(rest),
        _ => false,
    }
}

/// Whether the items are the rest of a tree, behind the root's begin.
#[tactic(auto, unfolding(crate::specs::Shape::goes_on))]
fn goes_on(items: &[Item]) -> bool
    ensures { result ≡ goes_on_spec 1 false (item_views items.now) }
{
    let mut depth = 1;
    let mut has_child = false;
    for item in items {
        if depth == 0 {
            return false;
        }
        match item {
            Item::Begins(name) => {
                if depth >= LEVELS || !is_node_name(name) {
                    return false;
                }
                depth += 1;
                has_child = false;
            }
            Item::Holds { name, .. } => {
                if has_child || !is_property_name(name) {
                    return false;
                }
            }
            Item::Ends => {
                depth -= 1;
                has_child = true;
            }
        }
    }
    depth == 0
}
