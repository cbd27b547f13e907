//! The carried files as a kernel holds them, and their runs.

ghost use Rattle.std.specs.Prelude.{◌≡◌, ◌++◌, IfOk, OnOk, flat_map, map};
ghost use Rattle.kexec_boot.specs.Files.{plain_of, plain_in, runs_of, runs_in};

use ho_base::numbers::{Order, Pfn};
use record_frames::{CarriedFile, CarriedSession};
use std::alloc::{AllocError, Global};

/// A carried file without what its session keeps of it.
#[derive(Clone, Copy, Debug)]
pub(crate) struct PlainFile {
    /// The order of its runs.
    pub(crate) order: Order,
    /// How many bytes it has.
    pub(crate) size: u32,
    /// Its position.
    pub(crate) position: u32,
    /// How many runs it has.
    pub(crate) count: usize,
}

/// The carried files in the order of their numbers in the next kernel. `Err`: out of memory.
pub(crate) fn plain_files(
    alloc: Global,
    sessions: &[CarriedSession],
) -> Result<Vec<PlainFile>, AllocError>
    ensures { IfOk result (λ v. v.items ≡ plain_in sessions.now) }
{
    let mut plain = Vec::new(alloc);
    for session in sessions {
        add_files(&mut plain, session.files.as_slice())?;
    }
    Ok(plain)
}

/// Adds the files of a session.
fn add_files(plain: &mut Vec<PlainFile>, files: &[CarriedFile]) -> Result<(), AllocError>
    ensures { IfOk result (λ _. plain.new.items ≡ plain.old.items ++ map plain_of files.now) }
{
    for file in files {
        plain.push(plain_file(file))?;
    }
    Ok(())
}

/// A file without what its session keeps of it.
fn plain_file(file: &CarriedFile) -> PlainFile
    ensures { result ≡ plain_of file.now }
{
    PlainFile {
        order: file.order,
        size: file.size,
        position: file.position,
        count: file.runs.len(),
    }
}

/// The runs of all files with their orders, file by file. `Err`: out of memory.
pub(crate) fn all_runs(
    alloc: Global,
    sessions: &[CarriedSession],
) -> Result<Vec<(Pfn, Order)>, AllocError>
    ensures { IfOk result (λ v. v.items ≡ runs_in sessions.now) }
{
    let mut runs = Vec::new(alloc);
    for session in sessions {
        add_session(&mut runs, session.files.as_slice())?;
    }
    Ok(runs)
}

/// Adds the runs of the files of a session.
fn add_session(runs: &mut Vec<(Pfn, Order)>, files: &[CarriedFile]) -> Result<(), AllocError>
    ensures { IfOk result (λ _. runs.new.items ≡ runs.old.items ++ flat_map runs_of files.now) }
{
    for file in files {
        add_runs(runs, file)?;
    }
    Ok(())
}

/// Adds the runs of a file.
fn add_runs(runs: &mut Vec<(Pfn, Order)>, file: &CarriedFile) -> Result<(), AllocError>
    ensures { IfOk result (λ _. runs.new.items ≡ runs.old.items ++ runs_of file.now) }
{
    let firsts = file.runs.as_slice();
    for first in firsts {
        runs.push((*first, file.order))?;
    }
    Ok(())
}
