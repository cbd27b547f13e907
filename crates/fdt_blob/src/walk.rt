//! Walks over the items behind the begin of a node.

ghost use Rattle.std.specs.Prelude.{◌≡◌, ◌≤◌, ◌<◌, length, map, IfSome, OnOk};
ghost use Rattle.fdt_blob.specs.Items.{item_views};
ghost use Rattle.fdt_blob.specs.Reading.{Gives};
ghost use Rattle.fdt_blob.specs.Shape.{property_names as property_names_spec, child_names as child_names_spec};
ghost use Rattle.fdt_blob.specs.Places.{value_from, child_from};

use crate::items::Item;
use std::alloc::AllocError;

/// The value of the node's property with this name.
#[tactic(auto, unfolding(crate::specs::Places::value_from))]
pub(crate) fn value_of<'a>(items: &[Item<'a>], name: &[u8]) -> Option<&'a [u8]>
    ensures { Gives (λ v. v.now) result (value_from name.now (item_views items.now)) }
{
    for item in items {
        match *item {
            Item::Holds { name: held, value } => {
                if held == name {
                    return Some(value);
                }
            }
            _ => return None,
        }
    }
    None
}

/// The place of the node's child with this name.
#[tactic(auto, unfolding(crate::specs::Places::child_from))]
pub(crate) fn child_of(items: &[Item], name: &[u8]) -> Option<usize>
    ensures place { result ≡ child_from name.now 0 0 (item_views items.now) }
    ensures within { IfSome result (λ at. at < length items.now) }
{
    let mut depth: usize = 0;
    for (at, item) in items.iter().enumerate() {
        match *item {
            Item::Begins(other) => {
                if depth == 0 && other == name {
                    return Some(at);
                }
                depth += 1;
            }
            Item::Holds { .. } => {}
            Item::Ends => {
                if depth == 0 {
                    return None;
                }
                depth -= 1;
            }
        }
    }
    None
}

/// The number of the node's properties.
#[tactic(auto, unfolding(crate::specs::Shape::property_names))]
pub(crate) fn property_count(items: &[Item]) -> usize
    ensures count { result ≡ length (property_names_spec (item_views items.now)) }
    ensures within { result ≤ length items.now }
{
    let mut count = 0;
    for item in items {
        match item {
            Item::Holds { .. } => count += 1,
            _ => return count,
        }
    }
    count
}

/// The number of the node's children.
#[tactic(auto, unfolding(crate::specs::Shape::child_names))]
pub(crate) fn child_count(items: &[Item]) -> usize
    ensures count { result ≡ length (child_names_spec 0 (item_views items.now)) }
    ensures within { result ≤ length items.now }
{
    let mut count = 0;
    let mut depth: usize = 0;
    for item in items {
        match item {
            Item::Begins(_) => {
                if depth == 0 {
                    count += 1;
                }
                depth += 1;
            }
            Item::Holds { .. } => {}
            Item::Ends => {
                if depth == 0 {
                    return count;
                }
                depth -= 1;
            }
        }
    }
    count
}

/// Puts the names of the node's properties into `names`, in place of what was there.
#[tactic(auto, unfolding(crate::specs::Shape::property_names))]
pub(crate) fn property_names<'a>(
    items: &[Item<'a>],
    names: &mut Vec<&'a [u8]>,
) -> Result<(), AllocError>
    ensures { OnOk result (map (λ n. n.now) names.new.items ≡ property_names_spec (item_views items.now)) }
{
    names.clear();
    for item in items {
        match *item {
            Item::Holds { name, .. } => names.push(name)?,
            _ => return Ok(()),
        }
    }
    Ok(())
}

/// Puts the names of the node's children into `names`, in place of what was there.
#[tactic(auto, unfolding(crate::specs::Shape::child_names))]
pub(crate) fn child_names<'a>(
    items: &[Item<'a>],
    names: &mut Vec<&'a [u8]>,
) -> Result<(), AllocError>
    ensures { OnOk result (map (λ n. n.now) names.new.items ≡ child_names_spec 0 (item_views items.now)) }
{
    names.clear();
    let mut depth: usize = 0;
    for item in items {
        match *item {
            Item::Begins(name) => {
                if depth == 0 {
                    names.push(name)?;
                }
                depth += 1;
            }
            Item::Holds { .. } => {}
            Item::Ends => {
                if depth == 0 {
                    return Ok(());
                }
                depth -= 1;
            }
        }
    }
    Ok(())
}
