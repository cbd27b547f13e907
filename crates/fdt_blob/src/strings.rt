//! The names of a tree's properties, each once, in order of first use: what the strings block consists of
//! (Devicetree Specification v0.4, 5.5).

ghost use Rattle.std.specs.Prelude.{◌≡◌, ◌≤◌, length, map, OnOk};
ghost use Rattle.std.specs.List.{list_any};
ghost use Rattle.fdt_blob.specs.Trees.{same_name};
ghost use Rattle.fdt_blob.specs.Nodes.{property_view, tree_view};
ghost use Rattle.fdt_blob.specs.Tokens.{property_item, tree_items, trees_items};
ghost use Rattle.fdt_blob.specs.Spelling.{with_name, strings_of, place_in};
ghost use Rattle.fdt_blob.specs.Writing.{texts, trees_of, names_after};

use crate::profile::is_same;
use crate::tree::{Node, Prop};
use crate::writer::BLOB_BYTES;
use std::alloc::AllocError;

/// Adds the names of a node's properties and of those below it, as far as they aren't there.
#[cycle(list)]
#[tactic(auto, using(std::proofs::lemmas::Grind::common_steps, crate::proofs::NameLemmas::names_of_node))]
pub(crate) fn list_node<'a>(names: &mut Vec<&'a [u8]>, node: &'a Node) -> Result<(), AllocError>
    ensures { OnOk result (texts names.new.items ≡ names_after (texts names.old.items) (tree_items (tree_view node.now))) }
{
    list_properties(names, &node.props)?;
    list_nodes(names, &node.children)
}

/// Adds the names of the properties of these nodes and of those below them.
#[cycle(list)]
#[tactic(auto, using(std::proofs::lemmas::Grind::common_steps, crate::proofs::NameLemmas::names_after_nodes, crate::proofs::NameLemmas::names_after_none))]
fn list_nodes<'a>(names: &mut Vec<&'a [u8]>, nodes: &'a [Node]) -> Result<(), AllocError>
    ensures { OnOk result (texts names.new.items ≡ names_after (texts names.old.items) (trees_items (trees_of nodes.now))) }
{
    for node in nodes {
        list_node(names, node)?;
    }
    Ok(())
}

/// Adds the names of these properties.
#[tactic(auto, using(std::proofs::lemmas::Grind::common_steps, crate::proofs::NameLemmas::names_after_properties, crate::proofs::NameLemmas::names_after_none))]
fn list_properties<'a>(names: &mut Vec<&'a [u8]>, props: &'a [Prop]) -> Result<(), AllocError>
    ensures { OnOk result (texts names.new.items
        ≡ names_after (texts names.old.items) (map property_item (map property_view props.now))) }
{
    for prop in props {
        list_name(names, &prop.name)?;
    }
    Ok(())
}

/// Adds a name, unless it is there.
#[tactic(auto, using(std::proofs::lemmas::Grind::common_steps, crate::proofs::NameLemmas::texts_push))]
fn list_name<'a>(names: &mut Vec<&'a [u8]>, name: &'a [u8]) -> Result<(), AllocError>
    ensures { OnOk result (texts names.new.items ≡ with_name (texts names.old.items) name.now) }
{
    if !is_listed(names, name) {
        names.push(name)?;
    }
    Ok(())
}

/// Whether a name is among these.
#[tactic(auto, using(std::proofs::lemmas::Grind::common_steps, crate::proofs::NameLemmas::texts_more))]
fn is_listed(names: &[&[u8]], name: &[u8]) -> bool
    ensures { result ≡ list_any (same_name name.now) (texts names.now) }
{
    for n in names {
        if is_same(name, n) {
            return true;
        }
    }
    false
}

/// The place of a name in the strings block of these names.
#[tactic(auto, using(std::proofs::lemmas::Grind::common_steps, crate::proofs::NameLemmas::place_more, crate::proofs::NameLemmas::strings_more))]
pub(crate) fn place_of(names: &[&[u8]], name: &[u8]) -> usize
    requires { length (strings_of (texts names.now)) ≤ BLOB_BYTES }
    ensures place { result ≡ place_in (texts names.now) name.now }
    ensures within { result ≤ BLOB_BYTES }
{
    let mut place = 0;
    for n in names {
        if is_same(n, name) {
            return place;
        }
        place += n.len() + 1;
    }
    place
}
