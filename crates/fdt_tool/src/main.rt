//! `fdt_tool`: writes trees as devicetree blobs, and looks into blobs.
#![tactic(auto)]

mod look;
mod samples;

use crate::look::show;
use crate::samples::sample;
use fdt_blob::{WriteError, valid, write};
use std::io::Write;
use std::process::ExitCode;
use std::rt::Files;
use std::{env, fs, io};

/// What the tool came to: its exit status.
pub enum Outcome {
    Done,
    Refused,
    Usage,
}

/// Writes a tree into a file, or to standard output where no file is named.
fn write_sample<R: Files + Print + AllocGlobal>(
    rt: &R,
    name: &str,
    file: Option<&str>,
) -> io::Result<Outcome> {
    let alloc = rt.alloc();
    let Some(root) = sample(alloc, name)? else {
        return Ok(Outcome::Usage);
    };
    if !valid(&root) {
        rt.println("refused: not valid")?;
        return Ok(Outcome::Refused);
    }
    match write(alloc, &root) {
        Ok(blob) => {
            match file {
                Some(path) => fs::write(rt, path, blob.as_slice())?,
                None => io::writer(rt).write_all(&blob)?,
            }
            Ok(Outcome::Done)
        }
        Err(WriteError::TooBig) => {
            rt.println("refused: too big")?;
            Ok(Outcome::Refused)
        }
        Err(WriteError::Memory) => Err(io::Error::from(io::ErrorKind::OutOfMemory)),
    }
}

/// Does what the words ask for.
fn run<R: Files + Print + AllocGlobal>(rt: &R, words: &[String]) -> io::Result<Outcome> {
    match words {
        [verb, name] if verb.as_str() == "write" => write_sample(rt, name.as_str(), None),
        [verb, name, file] if verb.as_str() == "write" => {
            write_sample(rt, name.as_str(), Some(file.as_str()))
        }
        [verb, file, paths @ ..] if verb.as_str() == "props" => {
            let bytes = fs::read(rt, file.as_str())?;
            show(rt, &bytes, paths)
        }
        _ => Ok(Outcome::Usage),
    }
}

fn main(rt: HostRuntime) -> io::Result<ExitCode> {
    let words = env::args(&rt)?.skip(1).collect::<Vec<String>>(rt.alloc())?;
    let code = match run(&rt, words.as_slice())? {
        Outcome::Done => 0,
        Outcome::Refused => 1,
        Outcome::Usage => {
            println!(rt; "usage: fdt_tool write NAME [FILE] | props FILE [PATH ..]")?;
            2
        }
    };
    Ok(ExitCode::from(code))
}
