//! Whether a name stands twice.

ghost use Rattle.std.specs.Prelude.{◌≡◌, ◌+◌, ◌<◌, map, not, length, IfOk};
ghost use Rattle.std.specs.List.{IsAllAdjacentAnswer};
ghost use Rattle.fdt_blob.specs.Items.{item_views};
ghost use Rattle.fdt_blob.specs.Trees.{all_apart as all_apart_spec, same_name};
ghost use Rattle.fdt_blob.specs.Shape.{has_names_apart as names_apart_spec};

use crate::items::Item;
use crate::walk::{child_names, property_names};
use std::alloc::{AllocError, Global};

/// Whether each name differs from the next.
fn neighbours_differ(names: &[&[u8]]) -> bool
    ensures { IsAllAdjacentAnswer (λ x y b. b ≡ not (same_name x.now y.now)) names.now result }
{
    names.is_sorted_by(
        |a: &&[u8], b: &&[u8]| -> bool
            ensures { result ≡ not (same_name a.now.now b.now.now) }
        { *a != *b },
    )
}

/// Whether no name stands twice. It puts the names in order and compares neighbours.
fn all_apart(names: &mut Vec<&[u8]>) -> bool
    ensures { result ≡ all_apart_spec (map (λ n. n.now) names.old.items) }
{
    names.sort_unstable();
    neighbours_differ(names)
}

/// Whether no name stands twice among one node's properties or among its children, for each node. For each node it
/// goes over the items of that node, so over each item at most once a level.
#[tactic(auto, unfolding(crate::specs::Shape::has_names_apart))]
pub(crate) fn has_names_apart(alloc: Global, items: &[Item]) -> Result<bool, AllocError>
    ensures { IfOk result (λ apart. apart ≡ names_apart_spec (item_views items.now)) }
{
    let mut names = Vec::new(alloc);
    for (at, item) in items.iter().enumerate() {
        if let Item::Begins(_) = item {
            let inner = &items[at + 1..];
            property_names(inner, &mut names)?;
            if !all_apart(&mut names) {
                return Ok(false);
            }
            child_names(inner, &mut names)?;
            if !all_apart(&mut names) {
                return Ok(false);
            }
        }
    }
    Ok(true)
}
