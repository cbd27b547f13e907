//! The trees that the tool writes.

ghost use Rattle.std.specs.Prelude.{◌≡◌, IfOk, is_some};
ghost use Rattle.fdt_tool.specs.Samples.{is_sample};

use fdt_blob::{Node, Prop};
use std::alloc::{AllocError, Global};

/// A tree by its name; none where no tree has it.
pub fn sample(alloc: Global, name: &str) -> Result<Option<Node>, AllocError>
    ensures { IfOk result (λ root. is_some root ≡ is_sample name.now) }
{
    let root = match name {
        "smallest" => node(alloc, b"")?,
        "handover" => handover(alloc)?,
        "values" => values(alloc)?,
        "names" => names(alloc)?,
        "levels" => levels(alloc, 16)?,
        "levels-17" => levels(alloc, 17)?,
        "full" => filled(alloc, b"abc")?,
        "too-big" => filled(alloc, b"abcd")?,
        _ => return Ok(None),
    };
    Ok(Some(root))
}

/// A node without properties and children.
fn node(alloc: Global, name: &[u8]) -> Result<Node, AllocError> {
    Ok(Node {
        name: Vec::from_slice(alloc, name)?,
        props: Vec::new(alloc),
        children: Vec::new(alloc),
    })
}

/// Adds a property to a node.
fn hold(alloc: Global, node: &mut Node, name: &[u8], value: &[u8]) -> Result<(), AllocError> {
    let prop = Prop {
        name: Vec::from_slice(alloc, name)?,
        value: Vec::from_slice(alloc, value)?,
    };
    node.props.push(prop)?;
    Ok(())
}

/// Adds a property with a number of eight bytes, the highest first.
fn hold_number(alloc: Global, node: &mut Node, name: &[u8], value: u64) -> Result<(), AllocError> {
    hold(alloc, node, name, &value.to_be_bytes())
}

/// The tree of a handover with one session and one file.
fn handover(alloc: Global) -> Result<Node, AllocError> {
    let mut luo = node(alloc, b"luo")?;
    hold(alloc, &mut luo, b"compatible", b"luo-v1\0")?;
    hold_number(alloc, &mut luo, b"liveupdate-number", 1)?;
    hold_number(alloc, &mut luo, b"session-header", 11)?;
    let mut root = node(alloc, b"")?;
    hold(alloc, &mut root, b"compatible", b"kho-v1\0")?;
    hold_number(alloc, &mut root, b"preserved-memory-map", 10)?;
    hold(
        alloc,
        &mut root,
        b"scratch",
        &[0, 0, 0, 0, 0, 0, 0, 1, 0, 0, 0, 0, 0, 0, 0, 8],
    )?;
    root.children.push(luo)?;
    Ok(root)
}

/// Values of each length from 0 to 8, with bytes of all kinds.
fn values(alloc: Global) -> Result<Node, AllocError> {
    let bytes = [0xff, 0, 1, 0x7f, 0x80, 0x0d, 0xfe, 0xed];
    let mut root = node(alloc, b"")?;
    let names = [
        b"v0", b"v1", b"v2", b"v3", b"v4", b"v5", b"v6", b"v7", b"v8",
    ];
    for (length, name) in names.iter().enumerate() {
        if length <= bytes.len() {
            hold(alloc, &mut root, name.as_slice(), &bytes[..length])?;
        }
    }
    Ok(root)
}

/// Names of each length up to 8 and of 31 bytes, with all kinds of bytes, some of them used by several nodes.
fn names(alloc: Global) -> Result<Node, AllocError> {
    let mut first = node(alloc, b"a")?;
    hold(alloc, &mut first, b"#size,cells", b"1")?;
    hold(alloc, &mut first, b"x", b"2")?;
    let mut second = node(alloc, b"Node.with_all+kinds-of,bytes-0")?;
    hold(alloc, &mut second, b"x", b"3")?;
    hold(alloc, &mut second, b"why?", b"4")?;
    hold(alloc, &mut second, b"#size,cells", b"5")?;
    let mut third = node(alloc, b"n234567890123456789012345678901")?;
    hold(alloc, &mut third, b"p234567890123456789012345678901", b"6")?;
    third.children.push(first)?;
    let mut root = node(alloc, b"")?;
    hold(alloc, &mut root, b"x", b"7")?;
    hold(alloc, &mut root, b"y+z_", b"8")?;
    root.children.push(second)?;
    root.children.push(third)?;
    root.children.push(node(alloc, b"a")?)?;
    Ok(root)
}

/// Nodes in one another: so many levels, the root included.
fn levels(alloc: Global, count: u32) -> Result<Node, AllocError> {
    let mut below = node(alloc, b"leaf")?;
    hold(alloc, &mut below, b"depth", &count.to_be_bytes())?;
    for _ in 2..count {
        let mut above = node(alloc, b"n")?;
        above.children.push(below)?;
        below = above;
    }
    let mut root = node(alloc, b"")?;
    root.children.push(below)?;
    Ok(root)
}

/// A root with one property of 4008 bytes: its blob has 4096 bytes where the name has three.
fn filled(alloc: Global, name: &[u8]) -> Result<Node, AllocError> {
    let mut value = Vec::new(alloc);
    for _ in 0..4008 {
        value.push(0x5a)?;
    }
    let name = Vec::from_slice(alloc, name)?;
    let mut root = node(alloc, b"")?;
    root.props.push(Prop { name, value })?;
    Ok(root)
}
