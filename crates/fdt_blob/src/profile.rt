//! Which trees keep to the profile.

ghost use Rattle.std.specs.Prelude.{◌≡◌, map, length};
ghost use Rattle.std.specs.List.{list_all, list_any};
ghost use Rattle.fdt_blob.specs.Trees as trees;
ghost use Rattle.fdt_blob.specs.Nodes.{property_view, tree_view};
ghost use Rattle.fdt_blob.specs.Writing.{trees_of};

use crate::format::LEVELS;
use crate::names::{is_node_name, is_property_name};
use crate::tree::{Node, Prop};

/// Whether a tree keeps to the profile: the root's name is empty, each other name has 1 to 31 bytes of its set
/// (Devicetree Specification v0.4, 2.2.1 and 2.2.4), no name stands twice among the properties of a node or
/// among its children, and there are at most [`LEVELS`]. It takes no memory.
#[tactic(auto, using(std::proofs::lemmas::Grind::common_steps, crate::proofs::NodeLemmas::is_valid_is))]
pub fn valid(root: &Node) -> bool
    ensures { result ≡ trees.is_valid (tree_view root.now) }
{
    root.name.is_empty() && is_within_levels(root, LEVELS) && has_names(root) && has_no_double(root)
}

/// Whether there are at most so many levels from this node down. It goes down no further.
#[tactic(auto, using(std::proofs::lemmas::Grind::common_steps, crate::proofs::NodeLemmas::within_levels_is))]
fn is_within_levels(node: &Node, levels: u32) -> bool
    ensures { result ≡ trees.within_levels levels (tree_view node.now) }
{
    if levels == 0 {
        return false;
    }
    for child in &node.children {
        if !is_within_levels(child, levels - 1) {
            return false;
        }
    }
    true
}

/// Whether the names of the properties and of the nodes below this one are within their sets.
#[tactic(auto, using(std::proofs::lemmas::Grind::common_steps, crate::proofs::NodeLemmas::has_names_is, crate::proofs::NodeLemmas::have_names_more))]
fn has_names(node: &Node) -> bool
    ensures { result ≡ trees.has_names (tree_view node.now) }
{
    if !have_property_names(&node.props) {
        return false;
    }
    for child in &node.children {
        if !is_node_name(&child.name) {
            return false;
        }
        if !has_names(child) {
            return false;
        }
    }
    true
}

/// Whether each property's name is within its set.
fn have_property_names(props: &[Prop]) -> bool
    ensures { result ≡ list_all trees.is_property_name (trees.names_of_properties (map property_view props.now)) }
{
    for prop in props {
        if !is_property_name(&prop.name) {
            return false;
        }
    }
    true
}

/// Whether no name stands twice among the properties of a node or among its children, from this node down.
#[tactic(auto, using(std::proofs::lemmas::Grind::common_steps, crate::proofs::NodeLemmas::has_no_double_is))]
fn has_no_double(node: &Node) -> bool
    ensures { result ≡ trees.has_no_double (tree_view node.now) }
{
    if !are_properties_apart(&node.props) || !are_nodes_apart(&node.children) {
        return false;
    }
    for child in &node.children {
        if !has_no_double(child) {
            return false;
        }
    }
    true
}

/// Whether no two properties have one name.
fn are_properties_apart(props: &[Prop]) -> bool
    ensures { result ≡ trees.all_apart (trees.names_of_properties (map property_view props.now)) }
{
    for (i, prop) in props.iter().enumerate() {
        if has_property(&props[i + 1..], &prop.name) {
            return false;
        }
    }
    true
}

/// Whether no two nodes have one name.
#[tactic(auto, using(std::proofs::lemmas::Grind::common_steps, crate::proofs::NodeLemmas::node_names_more))]
fn are_nodes_apart(nodes: &[Node]) -> bool
    ensures { result ≡ trees.all_apart (trees.names_of (trees_of nodes.now)) }
{
    for (i, node) in nodes.iter().enumerate() {
        if has_node(&nodes[i + 1..], &node.name) {
            return false;
        }
    }
    true
}

/// Whether a property has this name.
#[tactic(auto, using(std::proofs::lemmas::Grind::common_steps, crate::proofs::NodeLemmas::property_names_more))]
fn has_property(props: &[Prop], name: &[u8]) -> bool
    ensures { result ≡ list_any (trees.same_name name.now) (trees.names_of_properties (map property_view props.now)) }
{
    for prop in props {
        if is_same(name, &prop.name) {
            return true;
        }
    }
    false
}

/// Whether a node has this name.
#[tactic(auto, using(std::proofs::lemmas::Grind::common_steps, crate::proofs::NodeLemmas::node_names_more))]
fn has_node(nodes: &[Node], name: &[u8]) -> bool
    ensures { result ≡ list_any (trees.same_name name.now) (trees.names_of (trees_of nodes.now)) }
{
    for node in nodes {
        if is_same(name, &node.name) {
            return true;
        }
    }
    false
}

/// Whether two names have the same bytes.
pub(crate) fn is_same(a: &[u8], b: &[u8]) -> bool
    ensures { result ≡ trees.same_name a.now b.now }
{
    a == b
}
