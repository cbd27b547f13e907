//! Reads what a line says by its words alone.

mod args;
mod commands;
mod own;
mod verbs;

ghost use Rattle.std.specs.Prelude.{◌≡◌, ◌≢◌, ◌∷◌, IfOk};
ghost use Rattle.ho_events.specs.Script.Words.{words};
ghost use Rattle.ho_events.specs.Script.Lines.{line_with as with_rule, line_of_words};

use crate::lines::commands::{
    close_fd_line, close_line, create_line, device_line, fill_line, finish_line, memfd_line,
    open_line, preserve_line, read_line, retrieve_line, seek_line, tell_line, truncate_line,
    write_line,
};
use crate::lines::own::{
    agent_line, fail_line, kexec_line, machine_line, round_line, scratch_line,
};
use crate::lines::verbs::{is_unbuilt_verb, verb_of};
use ho_events::line::{Line, Reason, Verb};
use std::alloc::{AllocError, Global};

/// The line that a first word and the bytes after it spell, or why they spell none: the word begins no
/// line, or none that is built, the words are too few or too many, or the leftmost one that hasn't its form
/// or range.
///
/// The one error is that memory for the bytes of a write could not be had.
pub fn line_of(alloc: Global, first: &[u8], args: &[u8]) -> Result<Result<Line, Reason>, AllocError>
    ensures { IfOk result (λ line. line ≡ line_of_words (first.now ∷ words args.now)) }
{
    let verb = match verb_of(first) {
        Ok(verb) => verb,
        Err(why) => return Ok(Err(why)),
    };
    if is_unbuilt_verb(verb) {
        return Ok(Err(Reason::Later));
    }
    line_with(alloc, verb, args)
}

/// What the words after the first say.
#[tactic(auto, unfolding(ho_events::specs::Script::Lines::line_with))]
fn line_with(alloc: Global, verb: Verb, args: &[u8]) -> Result<Result<Line, Reason>, AllocError>
    ensures { IfOk result (λ line. line ≡ with_rule verb (words args.now)) }
{
    match verb {
        Verb::Write => write_line(alloc, args),
        _ => Ok(line_without_bytes(verb, args)),
    }
}

/// [`line_with`] of a line that is no write, so that it takes no memory. It stands apart, since a call sets the memory of
/// all that is inlined into it to zeros first, and most lines are writes.
#[inline(never)]
#[tactic(auto, unfolding(ho_events::specs::Script::Lines::line_with))]
fn line_without_bytes(verb: Verb, args: &[u8]) -> Result<Line, Reason>
    requires { verb ≢ Verb.Write }
    ensures { result ≡ with_rule verb (words args.now) }
{
    match verb {
        Verb::Machine => machine_line(args),
        Verb::Scratch => scratch_line(args),
        Verb::Fail => fail_line(args),
        Verb::Round => round_line(args),
        Verb::Agent => agent_line(args),
        Verb::Kexec => kexec_line(args),
        Verb::Memfd => memfd_line(args),
        Verb::Device => device_line(args),
        Verb::Write => unreachable!(),
        Verb::Fill => fill_line(args),
        Verb::Read => read_line(args),
        Verb::Truncate => truncate_line(args),
        Verb::Seek => seek_line(args),
        Verb::Tell => tell_line(args),
        Verb::CloseFd => close_fd_line(args),
        Verb::Create => create_line(args),
        Verb::Preserve => preserve_line(args),
        Verb::Close => close_line(args),
        Verb::Open => open_line(args),
        Verb::Retrieve => retrieve_line(args),
        Verb::Finish => finish_line(args),
    }
}
