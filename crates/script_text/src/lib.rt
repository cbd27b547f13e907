//! Reads a script: its bytes as lines, a line as words, and the lines one after another.
#![tactic(auto)]

mod commands;
mod forms;
mod labels;
mod lines;
mod reader;
mod words;

ghost use Rattle.std.specs.Prelude.{◌≡◌, ◌<◌, ℕ, Bool, List, length, IfOk, IfErr, Some, is_some, is_none, IsTrue};
ghost use Rattle.ho_events.specs.Script.{script_of, refusal_of};
ghost use Rattle.ho_events.specs.Script.Rules.{is_numbered, is_built_script, is_small_script, is_single_script};
ghost use Rattle.ho_events.specs.declared.script.Script.{Script as AScript};
ghost use Rattle.script_text.specs.Errors.{Says};

use crate::reader::Reader;
use crate::words::{has_script_bytes, next_line};
pub use ho_events::line::Reason;
use ho_events::script::Script;
use std::alloc::Global;

/// Why a script can't be had.
#[derive(Clone, Copy, Debug, PartialEq)]
pub enum ScriptError {
    /// The first refused line, by its number from 1 on, and the first reason for it.
    Bad { line: u32, reason: Reason },
    /// Memory could not be had.
    Memory,
}

/// The script that some bytes spell, as a fresh one or as one that resumes an image, or the first of their
/// lines that is refused.
///
/// [`ScriptError::Bad`] comes only where a line is refused, with its number and the first reason that
/// applies; a fresh script that ends before its first scratch line is refused at the line after its last.
/// [`ScriptError::Memory`] comes only where memory could not be had. The time is linear in the bytes.
pub fn read(alloc: Global, bytes: &[u8], fresh: bool) -> Result<Script, ScriptError>
    requires { length bytes.now < u32.MAX }
    ensures ok { IfOk result (λ script. script_of fresh bytes.now ≡ Some script) }
    ensures bad { IfErr result (Says (refusal_of fresh bytes.now)) }
    ensures built { IfOk result (λ script. IsTrue (is_built_script script)) }
    ensures small { IfOk result (λ script. IsTrue (is_small_script script)) }
    ensures numbered { IfOk result (λ script. IsTrue (is_numbered script)) }
    ensures shaped { IfOk result (λ script. is_some script.shape ≡ fresh) }
    ensures single { IfOk result (λ script. IsTrue (is_single_script script)) }
{
    let clean = has_script_bytes(bytes);
    let mut reader = Reader::new(alloc, fresh);
    let mut line: u32 = 1;
    let mut rest = bytes;
    while !rest.is_empty() {
        let (first, after) = next_line(rest);
        match reader.take_line(alloc, first, clean) {
            Ok(Ok(())) => {}
            Ok(Err(reason)) => return Err(ScriptError::Bad { line, reason }),
            Err(_) => return Err(ScriptError::Memory),
        }
        line += 1;
        rest = after;
    }
    match reader.into_script(alloc) {
        Ok(Ok(script)) => Ok(script),
        Ok(Err(reason)) => Err(ScriptError::Bad { line, reason }),
        Err(_) => Err(ScriptError::Memory),
    }
}

/// The commands of each agent of a script are numbered from 1 on over the whole script.
pub fn is_read_numbered()
    ensures { (fresh : Bool) (bytes : List ℕ) (script : AScript) → script_of fresh bytes ≡ Some script → IsTrue (is_numbered script) }
{}

/// The commands of a script are built ones, and their numbers and bytes have the ranges of their lines.
pub fn is_read_built()
    ensures { (fresh : Bool) (bytes : List ℕ) (script : AScript) → script_of fresh bytes ≡ Some script → IsTrue (is_built_script script) }
{}

/// A fresh script has a shape, and one that resumes an image has none.
pub fn is_read_shaped()
    ensures { (fresh : Bool) (bytes : List ℕ) (script : AScript) → script_of fresh bytes ≡ Some script → is_some script.shape ≡ fresh }
{}

/// A script has no planned failures, and each of its blocks is a kexec, or a round of at most one section, of an agent
/// whose number is from 1 to 15.
pub fn is_read_single()
    ensures { (fresh : Bool) (bytes : List ℕ) (script : AScript) → script_of fresh bytes ≡ Some script → IsTrue (is_single_script script) }
{}

/// A script has 4,096 commands at most, one section at most in each round, and 8 kexecs at most.
pub fn is_read_small()
    ensures { (fresh : Bool) (bytes : List ℕ) (script : AScript) → script_of fresh bytes ≡ Some script → IsTrue (is_small_script script) }
{}

/// Some bytes spell a script exactly where no line of them is refused.
pub fn is_read_or_refused()
    ensures { (fresh : Bool) (bytes : List ℕ) → is_some (script_of fresh bytes) ≡ is_none (refusal_of fresh bytes) }
{}
