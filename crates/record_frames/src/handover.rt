//! The tree of the entry frame: what its root and the root's child say, from any bytes.

ghost use Rattle.std.specs.Prelude.{◌≡◌, ◌+◌, ◌*◌, ◌^◌, ◌<◌, ◌≤◌, ◌&&◌, ◌==◌, IfOk, IfSome, IsTrue, length, take, drop};
ghost use Rattle.std.specs.Int.{w64, from_be_bytes};
ghost use Rattle.fdt_blob.specs.Trees.{Tree, properties_of, children_of, count_of, value_in};
ghost use Rattle.fdt_blob.specs.Places.{IsTreeAt, IsNodeAt};
ghost use Rattle.record_frames.specs.Handover.{number_of as number_rule, areas_of, shape_of, luo_of, bounds_of, count_given as given_rule, BOUND_NAMES, COMPATIBLE};
ghost use Rattle.record_frames.specs.Rules.{version_1};
ghost use Rattle.record_frames.specs.Slots.{Gives};
ghost use Rattle.record_frames.specs.TreeRead.{has_word, number_in as number_rule_in, bound_in as bound_rule, is_whole as whole_rule, TellsAreas, TellsRoot, luo_view};

use fdt_blob::{NodeAt, Reader};
use ho_base::numbers::Pfn;
use ho_base::shape::{Area, Shape};
use std::alloc::{AllocError, Global};

/// What the root says.
#[derive(Debug, Drop)]
pub(crate) struct RootRead {
    /// The machine's shape.
    pub(crate) shape: Shape,
    /// The number of the first chunk frame.
    pub(crate) chunk: u64,
    /// The root's child.
    pub(crate) luo: NodeAt,
}

/// What the root's child says.
#[derive(Debug, Drop)]
pub struct LuoRead {
    /// The update number.
    pub number: u32,
    /// The number of the session frame.
    pub header: u64,
    /// The frames of the bound records, in order of kinds.
    pub bounds: [Option<u64>; 4],
}

/// The number that the 8 bytes from `at` on spell, the highest byte first.
fn number_at(bytes: &[u8], at: usize) -> u64
    requires { at + 8 ≤ length bytes.now }
    ensures { result ≡ from_be_bytes w64 (take 8 (drop at bytes.now)) }
{
    let mut eight = [0; 8];
    eight.copy_from_slice(&bytes[at..at + 8]);
    u64::from_be_bytes(eight)
}

/// The number that these bytes are, if there are 8.
fn number_of(bytes: &[u8]) -> Option<u64>
    ensures { result ≡ number_rule bytes.now }
{
    if bytes.len() == 8 {
        Some(number_at(bytes, 0))
    } else {
        None
    }
}

/// The number that a node's property is; none where there is no such property of 8 bytes.
fn number_in(reader: &Reader, node: NodeAt, name: &[u8]) -> Option<u64>
    requires { IsNodeAt reader.now node.0 }
    ensures { (t : Tree) → IsTreeAt reader.now node.0 t → result ≡ number_rule_in (value_in name.now (properties_of t)) }
{
    match reader.prop(node, name) {
        Some(value) => number_of(value),
        None => None,
    }
}

/// Whether a node has this word as `compatible`.
fn is_compatible(reader: &Reader, node: NodeAt, word: &[u8]) -> bool
    requires { IsNodeAt reader.now node.0 }
    ensures { (t : Tree) → IsTreeAt reader.now node.0 t → result ≡ has_word word.now (value_in COMPATIBLE (properties_of t)) }
{
    match reader.prop(node, b"compatible") {
        Some(value) => word == value,
        None => false,
    }
}

/// So many areas of 16 bytes each; none where a number is larger than that of any frame.
fn areas_in(alloc: Global, bytes: &[u8], count: usize) -> Result<Option<Vec<Area>>, AllocError>
    requires { 16 * count ≤ length bytes.now }
    ensures { IfOk result (λ r. TellsAreas (λ v. v.items) (areas_of count bytes.now) r) }
{
    let mut areas = Vec::new(alloc);
    for i in 0..count {
        let first = number_at(bytes, 16 * i);
        let frames = number_at(bytes, 16 * i + 8);
        if first > u64::from(u32::MAX) || frames > u64::from(u32::MAX) {
            return Ok(None);
        }
        areas.push(Area {
            first: Pfn(first as u32),
            count: frames as u32,
        })?;
    }
    Ok(Some(areas))
}

/// The shape that areas make on this many frames; none where they make none.
#[tactic(auto, using(crate::proofs::AreaSteps::shape_odd, crate::proofs::AreaSteps::shape_read))]
fn shape_in(alloc: Global, frames: u32, bytes: &[u8]) -> Result<Option<Shape>, AllocError>
    ensures { IfOk result (λ r. r ≡ shape_of frames bytes.now) }
{
    if bytes.len() % 16 != 0 {
        return Ok(None);
    }
    match areas_in(alloc, bytes, bytes.len() / 16)? {
        None => Ok(None),
        Some(areas) => match Shape::checked(frames, areas) {
            Ok(shape) => Ok(Some(shape)),
            Err(_) => Ok(None),
        },
    }
}

/// Whether a node has 3 properties and one child.
fn has_counts(reader: &Reader, node: NodeAt) -> bool
    requires { IsNodeAt reader.now node.0 }
    ensures { (t : Tree) → IsTreeAt reader.now node.0 t → result ≡ (length (properties_of t) == 3 && count_of (children_of t) == 1) }
{
    let (properties, children) = reader.counts(node);
    properties == 3 && children == 1
}

/// Reads the root on this many frames; none where it breaks a rule: its words and properties, its shape, its children.
pub(crate) fn read_root(
    alloc: Global,
    reader: &Reader,
    root: NodeAt,
    frames: u32,
) -> Result<Option<RootRead>, AllocError>
    requires { IsNodeAt reader.now root.0 }
    ensures read { IfOk result (λ r. (t : Tree) → IsTreeAt reader.now root.0 t → TellsRoot reader.now frames t r) }
    ensures node { IfOk result (λ r. IfSome r (λ x. IsNodeAt reader.now x.luo.0)) }
{
    if !is_compatible(reader, root, b"kho-v1\0") {
        return Ok(None);
    }
    let Some(chunk) = number_in(reader, root, b"preserved-memory-map") else {
        return Ok(None);
    };
    let Some(areas) = reader.prop(root, b"scratch") else {
        return Ok(None);
    };
    let Some(shape) = shape_in(alloc, frames, areas)? else {
        return Ok(None);
    };
    let Some(luo) = reader.child(root, b"luo") else {
        return Ok(None);
    };
    if has_counts(reader, root) {
        Ok(Some(RootRead { shape, chunk, luo }))
    } else {
        Ok(None)
    }
}

/// The number that a property is, if the node has it; none where its value isn't 8 bytes.
fn bound_in(reader: &Reader, node: NodeAt, name: &[u8]) -> Option<Option<u64>>
    requires { IsNodeAt reader.now node.0 }
    ensures { (t : Tree) → IsTreeAt reader.now node.0 t → result ≡ bound_rule (value_in name.now (properties_of t)) }
{
    match reader.prop(node, name) {
        None => Some(None),
        Some(value) => match number_of(value) {
            None => None,
            Some(number) => Some(Some(number)),
        },
    }
}

/// The frames of the bound records; none where a value isn't a number.
fn bounds_in(reader: &Reader, node: NodeAt) -> Option<[Option<u64>; 4]>
    requires { IsNodeAt reader.now node.0 }
    ensures { (t : Tree) → IsTreeAt reader.now node.0 t → result ≡ bounds_of BOUND_NAMES (properties_of t) }
{
    let dev0 = bound_in(reader, node, b"bound-dev0")?;
    let dev1 = bound_in(reader, node, b"bound-dev1")?;
    let dev2 = bound_in(reader, node, b"bound-dev2")?;
    let dev3 = bound_in(reader, node, b"bound-dev3")?;
    Some([dev0, dev1, dev2, dev3])
}

/// How many of the kinds have a bound record.
fn count_given(bounds: &[Option<u64>]) -> u32
    requires { length bounds.now ≤ 4 }
    ensures value { result ≡ given_rule bounds.now }
    ensures few { result ≤ length bounds.now }
{
    match bounds {
        [] => 0,
        [Some(_), rest @ ..] => 1 + count_given(rest),
        [None, rest @ ..] => count_given(rest),
    }
}

/// Whether this is an update number that may be handed on, in a node without children and with as many properties as
/// are due.
fn is_whole(number: u64, children: u32, properties: u32, given: u32) -> bool
    requires { given ≤ 4 }
    ensures exact { result ≡ whole_rule number children properties given }
    ensures small { IsTrue result → number < 2 ^ 32 }
{
    1 <= number && number <= u64::from(u32::MAX) && children == 0 && properties == 3 + given
}

/// Reads the root's child; none where it breaks a rule: its words and properties, or that it has children.
pub(crate) fn read_luo(reader: &Reader, node: NodeAt) -> Option<LuoRead>
    requires { IsNodeAt reader.now node.0 }
    ensures { (t : Tree) → IsTreeAt reader.now node.0 t → Gives luo_view result (luo_of version_1 t) }
{
    let number = number_in(reader, node, b"liveupdate-number")?;
    let header = number_in(reader, node, b"session-header")?;
    let bounds = bounds_in(reader, node)?;
    if !is_compatible(reader, node, b"luo-v1\0") {
        return None;
    }
    let (properties, children) = reader.counts(node);
    if is_whole(number, children, properties, count_given(&bounds)) {
        Some(LuoRead {
            number: number as u32,
            header,
            bounds,
        })
    } else {
        None
    }
}
