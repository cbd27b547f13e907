//! Trees written as blobs, each in its one spelling (Devicetree Specification v0.4, chapter 5).

ghost use Rattle.std.specs.Prelude.{◌≡◌, ◌<◌, ◌≤◌, [], ◌∷◌, ◌++◌, length, map, replicate, IsTrue, IfOk, OnOk};
ghost use Rattle.fdt_blob.specs.Nodes.{property_view, tree_view};
ghost use Rattle.fdt_blob.specs.Tokens as tokens;
ghost use Rattle.fdt_blob.specs.Tokens.{token_bytes, tree_items, trees_items};
ghost use Rattle.fdt_blob.specs.Trees.{is_valid};
ghost use Rattle.fdt_blob.specs.Spelling.{spelling, assembled, header_of, structure_of, strings_of, token_of};
ghost use Rattle.fdt_blob.specs.Blob.{Spells};
ghost use Rattle.fdt_blob.specs.Writing.{Puts, Makes, parts_of, blob_of, texts, trees_of, items_bytes};
ghost use Rattle.fdt_blob.specs.declared.writer.WriteError.TheVariants.{Memory};

use crate::format::{BEGIN_NODE, COMPATIBLE, END, END_NODE, MAGIC, PROP, VERSION};
use crate::strings::{list_node, place_of};
use crate::tree::{Node, Prop};
use std::alloc::{AllocError, AllocFailed, Global};

/// The most bytes of a blob that is written.
pub const BLOB_BYTES: usize = 4096;

const RESERVATIONS_AT: u32 = 40;

const STRUCTURE_AT: u32 = 56;

/// Why a tree wasn't written.
#[derive(Clone, Copy, Debug, PartialEq)]
pub enum WriteError {
    /// Its blob would have more than [`BLOB_BYTES`].
    TooBig,
    /// Memory ran out.
    Memory,
}

impl From<AllocError> for WriteError {
    ghost from_gives = { λ _ e. e ≡ Memory };

    fn from(_e: AllocError) -> WriteError {
        WriteError::Memory
    }
}

impl<T: Drop> From<AllocFailed<T>> for WriteError {
    ghost from_gives = { λ _ e. e ≡ Memory };

    fn from(_e: AllocFailed<T>) -> WriteError {
        WriteError::Memory
    }
}

/// The blob of a valid tree in its one spelling: the header, a reservation block of the ending pair alone, the structure
/// block, and the strings block with each name once in order of first use. TooBig comes only where it passes
/// [`BLOB_BYTES`], and then no blob comes; Memory is told before.
#[tactic(auto, unfolding(crate::specs::Writing::blob_of))]
pub fn write(alloc: Global, root: &Node) -> Result<Vec<u8>, WriteError>
    requires valid { IsTrue (is_valid (tree_view root.now)) }
    ensures spelled { IfOk result (λ blob. blob.items ≡ spelling (tree_view root.now)) }
    ensures spells { IfOk result (λ blob. Spells blob.items (tree_view root.now)) }
    ensures within { OnOk result (length (spelling (tree_view root.now)) ≤ BLOB_BYTES) }
    ensures too_big { result ≡ Err WriteError.TooBig → BLOB_BYTES < length (spelling (tree_view root.now)) }
{
    make(alloc, root)
}

/// The blob of a tree. A structure block that is too big is seen first, with no names: each name is compared with the
/// others, and so those of a few hundred properties at most are.
fn make(alloc: Global, root: &Node) -> Result<Vec<u8>, WriteError>
    ensures { Makes (λ v. v.items) (blob_of (tree_view root.now)) result }
{
    let _unnamed = make_structure(alloc, &[], root)?;
    let mut names = Vec::new(alloc);
    list_node(&mut names, root)?;
    let strings = make_strings(alloc, &names)?;
    let structure = make_structure(alloc, &names, root)?;
    assemble(alloc, &structure, &strings)
}

/// The parts of a blob in their order (5.1).
#[tactic(auto, unfolding(crate::specs::Writing::parts_of))]
fn assemble(alloc: Global, structure: &[u8], strings: &[u8]) -> Result<Vec<u8>, WriteError>
    requires structure { length structure.now ≤ BLOB_BYTES }
    requires strings { length strings.now ≤ BLOB_BYTES }
    ensures { Makes (λ v. v.items) (parts_of structure.now strings.now) result }
{
    let mut out = Vec::new(alloc);
    put_header(&mut out, structure.len() as u32, strings.len() as u32)?;
    put(&mut out, &[0; 16])?;
    put(&mut out, structure)?;
    put(&mut out, strings)?;
    Ok(out)
}

/// Puts a header (5.2) for a structure block and a strings block of these sizes.
fn put_header(out: &mut Vec<u8>, structure: u32, strings: u32) -> Result<(), WriteError>
    requires structure { structure ≤ BLOB_BYTES }
    requires strings { strings ≤ BLOB_BYTES }
    ensures { Puts out.old.items (header_of structure strings) result out.new.items }
{
    let end = STRUCTURE_AT + structure;
    put_words(out, MAGIC, end + strings, STRUCTURE_AT)?;
    put_words(out, end, RESERVATIONS_AT, VERSION)?;
    put_words(out, COMPATIBLE, 0, strings)?;
    put_word(out, structure)
}

/// The strings block of names (5.5).
#[tactic(auto, using(std::proofs::lemmas::Grind::common_steps, crate::proofs::NameLemmas::strings_at))]
fn make_strings(alloc: Global, names: &[&[u8]]) -> Result<Vec<u8>, WriteError>
    ensures { Makes (λ v. v.items) (strings_of (texts names.now)) result }
{
    let mut out = Vec::new(alloc);
    for name in names {
        put_name(&mut out, name)?;
    }
    Ok(out)
}

/// Puts a name and a zero.
fn put_name(out: &mut Vec<u8>, name: &[u8]) -> Result<(), WriteError>
    ensures put { Puts out.old.items (name.now ++ 0 ∷ []) result out.new.items }
    ensures within { OnOk result (length out.new.items ≤ BLOB_BYTES) }
{
    put(out, name)?;
    put(out, &[0])
}

/// The structure block of a tree (5.4).
#[tactic(auto, using(std::proofs::lemmas::Grind::common_steps, crate::proofs::WriteLemmas::structure_is))]
fn make_structure(alloc: Global, names: &[&[u8]], root: &Node) -> Result<Vec<u8>, WriteError>
    requires { length (strings_of (texts names.now)) ≤ BLOB_BYTES }
    ensures { Makes (λ v. v.items) (structure_of (texts names.now) (tree_view root.now)) result }
{
    let mut out = Vec::new(alloc);
    put_node(&mut out, names, root)?;
    put_word(&mut out, END)?;
    Ok(out)
}

/// Puts a node's tokens behind what is there (5.4): its begin, its properties, its children, its end.
#[cycle(put)]
#[tactic(auto, using(std::proofs::lemmas::Grind::common_steps, crate::proofs::WriteLemmas::node_is, crate::proofs::WriteLemmas::puts_part))]
fn put_node(out: &mut Vec<u8>, names: &[&[u8]], node: &Node) -> Result<(), WriteError>
    requires { length (strings_of (texts names.now)) ≤ BLOB_BYTES }
    ensures { Puts out.old.items (items_bytes (texts names.now) (tree_items (tree_view node.now))) result out.new.items }
{
    put_begin(out, &node.name)?;
    put_properties(out, names, &node.props)?;
    put_nodes(out, names, &node.children)?;
    put_word(out, END_NODE)
}

/// Puts the tokens of nodes in order.
#[cycle(put)]
#[tactic(auto, using(std::proofs::lemmas::Grind::common_steps, crate::proofs::WriteLemmas::nodes_more, crate::proofs::WriteLemmas::items_bytes_none))]
fn put_nodes(out: &mut Vec<u8>, names: &[&[u8]], nodes: &[Node]) -> Result<(), WriteError>
    requires { length (strings_of (texts names.now)) ≤ BLOB_BYTES }
    ensures { Puts out.old.items (items_bytes (texts names.now) (trees_items (trees_of nodes.now))) result out.new.items }
{
    for node in nodes {
        put_node(out, names, node)?;
    }
    Ok(())
}

/// Puts the tokens of properties in order.
#[tactic(auto, using(std::proofs::lemmas::Grind::common_steps, crate::proofs::WriteLemmas::properties_more, crate::proofs::WriteLemmas::items_bytes_none))]
fn put_properties(out: &mut Vec<u8>, names: &[&[u8]], props: &[Prop]) -> Result<(), WriteError>
    requires { length (strings_of (texts names.now)) ≤ BLOB_BYTES }
    ensures { Puts out.old.items (items_bytes (texts names.now) (map tokens.property_item (map property_view props.now)))
        result out.new.items }
{
    for prop in props {
        put_property(out, names, prop)?;
    }
    Ok(())
}

/// Puts the token BEGIN_NODE: the name, a zero, and padding (5.4.1).
fn put_begin(out: &mut Vec<u8>, name: &[u8]) -> Result<(), WriteError>
    ensures { Puts out.old.items (token_bytes (tokens.begin_node name.now)) result out.new.items }
{
    put_word(out, BEGIN_NODE)?;
    put(out, name)?;
    put(out, &[0])?;
    put_padding(out, name.len() + 1)
}

/// Puts the token PROP: the length, the place of the name, the value, and padding (5.4.1).
fn put_property(out: &mut Vec<u8>, names: &[&[u8]], prop: &Prop) -> Result<(), WriteError>
    requires { length (strings_of (texts names.now)) ≤ BLOB_BYTES }
    ensures { Puts out.old.items (token_bytes (token_of (texts names.now) (tokens.property_item (property_view prop.now))))
        result out.new.items }
{
    let place = place_of(names, &prop.name) as u32;
    put_token(out, place, &prop.value)
}

/// Puts the token PROP of a value and the place of a name.
fn put_token(out: &mut Vec<u8>, place: u32, value: &[u8]) -> Result<(), WriteError>
    ensures { Puts out.old.items (token_bytes (tokens.property [] place value.now)) result out.new.items }
{
    if value.len() > BLOB_BYTES {
        return Err(WriteError::TooBig);
    }
    put_words(out, PROP, value.len() as u32, place)?;
    put(out, value)?;
    put_padding(out, value.len())
}

/// Puts three numbers of four bytes.
fn put_words(out: &mut Vec<u8>, a: u32, b: u32, c: u32) -> Result<(), WriteError>
    ensures { Puts out.old.items (tokens.word a ++ (tokens.word b ++ tokens.word c)) result out.new.items }
{
    put_word(out, a)?;
    put_word(out, b)?;
    put_word(out, c)
}

/// Puts as many zeros as lead from a length to a multiple of 4 (5.4.1).
fn put_padding(out: &mut Vec<u8>, len: usize) -> Result<(), WriteError>
    ensures { Puts out.old.items (replicate (tokens.padding len) 0) result out.new.items }
{
    put(out, &[0, 0, 0][..(4 - len % 4) % 4])
}

/// Puts a number of four bytes, the highest first.
fn put_word(out: &mut Vec<u8>, n: u32) -> Result<(), WriteError>
    ensures put { Puts out.old.items (tokens.word n) result out.new.items }
    ensures within { OnOk result (length out.new.items ≤ BLOB_BYTES) }
{
    put(out, &n.to_be_bytes())
}

/// Puts bytes behind those that are there, if all of them are at most [`BLOB_BYTES`].
fn put(out: &mut Vec<u8>, bytes: &[u8]) -> Result<(), WriteError>
    ensures put { Puts out.old.items bytes.now result out.new.items }
    ensures within { OnOk result (length out.new.items ≤ BLOB_BYTES) }
{
    if out.len() > BLOB_BYTES || bytes.len() > BLOB_BYTES - out.len() {
        return Err(WriteError::TooBig);
    }
    out.extend_from_slice(bytes)?;
    Ok(())
}
