//! Looking into a blob.

ghost use Rattle.std.specs.Prelude.{◌≡◌, IfSome, Ok};
ghost use Rattle.fdt_blob.specs.Blob.{Spells, BreaksAt};
ghost use Rattle.fdt_blob.specs.Places.{IsNodeAt};
ghost use Rattle.fdt_blob.specs.Trees.{Tree};
ghost use Rattle.fdt_tool.specs.Looks.{IsOpened, IsBad, refusal_text};

use crate::Outcome;
use fdt_blob::{FdtPlace, NodeAt, OpenError, Reader};
use std::io;

/// Prints what stands at each path of a blob, or why the bytes are no blob.
///
/// Done says that the bytes spell a tree, and refused that they break the rules at a place. Usage never comes.
pub fn show<R: Print + AllocGlobal>(rt: &R, bytes: &[u8], paths: &[String]) -> io::Result<Outcome>
    ensures done { result ≡ Ok Outcome.Done → (t : Tree) × Spells bytes.now t }
    ensures refused { result ≡ Ok Outcome.Refused → (place : FdtPlace) × BreaksAt bytes.now place }
    ensures usage { result ≡ Ok Outcome.Usage → ⊥ }
{
    match Reader::open(rt.alloc(), bytes) {
        Ok(reader) => {
            show_all(rt, &reader, paths)?;
            Ok(Outcome::Done)
        }
        Err(error) => show_refused(rt, error),
    }
}

/// Prints why bytes are no blob; where memory was wanted, that is the error.
fn show_refused<R: Print>(rt: &R, error: OpenError) -> io::Result<Outcome>
    ensures done { result ≡ Ok Outcome.Done → ⊥ }
    ensures refused { result ≡ Ok Outcome.Refused → IsBad error }
    ensures usage { result ≡ Ok Outcome.Usage → ⊥ }
{
    match error {
        OpenError::BadFdt(place) => {
            rt.println(refusal(place))?;
            Ok(Outcome::Refused)
        }
        OpenError::Memory => Err(io::Error::from(io::ErrorKind::OutOfMemory)),
    }
}

/// The line of a refused blob.
fn refusal(place: FdtPlace) -> &'static str
    ensures { result.now ≡ refusal_text place }
{
    match place {
        FdtPlace::Header => "refused: header",
        FdtPlace::Reservations => "refused: reservations",
        FdtPlace::Structure => "refused: structure",
    }
}

/// Prints what stands at each path.
fn show_all<R: Print + AllocGlobal>(rt: &R, reader: &Reader<'_>, paths: &[String]) -> io::Result<()>
    requires { IsOpened reader.now }
{
    for path in paths {
        show_path(rt, reader, path.as_str())?;
    }
    Ok(())
}

/// Prints what stands at a path: a property's value behind the last `/`, or a node's numbers of properties and of
/// children where nothing stands behind it.
fn show_path<R: Print + AllocGlobal>(rt: &R, reader: &Reader<'_>, path: &str) -> io::Result<()>
    requires { IsOpened reader.now }
{
    let (place, name) = path.rsplit_once('/').unwrap_or(("", path));
    let Some(node) = find(reader, place) else {
        return println!(rt; "{path}: no node");
    };
    if name.is_empty() {
        let (props, children) = reader.counts(node);
        return println!(rt; "{path}: {props} properties, {children} children");
    }
    match reader.prop(node, name.as_bytes()) {
        Some(value) => {
            let value = hex::encode(rt.alloc(), value)?;
            println!(rt; "{path} = {value}")
        }
        None => println!(rt; "{path}: no property"),
    }
}

/// The node that the names of a path lead to, from the root down.
fn find(reader: &Reader<'_>, path: &str) -> Option<NodeAt>
    requires { IsOpened reader.now }
    ensures { IfSome result (λ node. IsNodeAt reader.now node.0) }
{
    let mut node = reader.root();
    for name in path.split('/') {
        if !name.is_empty() {
            node = reader.child(node, name.as_bytes())?;
        }
    }
    Some(node)
}
