//! The first words of lines.

ghost use Rattle.std.specs.Prelude.{◌≡◌};
ghost use Rattle.ho_events.specs.Script.Lines.{head_verb as head_rule, file_verb as file_rule, session_verb as session_rule, verb_of as verb_rule};
ghost use Rattle.ho_events.specs.Script.Unbuilt.{is_unbuilt_verb as unbuilt_rule};

use ho_events::line::{Reason, Verb};

/// What a first word says that its line is; [`Reason::Word`] exactly where no line begins with it.
///
/// Most lines are writes, so this word is looked at first.
#[tactic(auto, unfolding(ho_events::specs::Script::Lines::verb_of), using(crate::proofs::Verbs::write_first))]
pub fn verb_of(word: &[u8]) -> Result<Verb, Reason>
    ensures { result ≡ verb_rule word.now }
{
    if word == b"write".as_slice() {
        return Ok(Verb::Write);
    }
    if let Some(verb) = head_verb(word) {
        return Ok(verb);
    }
    if let Some(verb) = file_verb(word) {
        return Ok(verb);
    }
    match session_verb(word) {
        Some(verb) => Ok(verb),
        None => Err(Reason::Word),
    }
}

/// The first words of a line of the script's own.
#[tactic(auto, unfolding(ho_events::specs::Script::Lines::head_verb))]
fn head_verb(word: &[u8]) -> Option<Verb>
    ensures { result ≡ head_rule word.now }
{
    if word == b"machine".as_slice() {
        Some(Verb::Machine)
    } else if word == b"scratch".as_slice() {
        Some(Verb::Scratch)
    } else if word == b"fail".as_slice() {
        Some(Verb::Fail)
    } else if word == b"round".as_slice() {
        Some(Verb::Round)
    } else if word == b"agent".as_slice() {
        Some(Verb::Agent)
    } else if word == b"kexec".as_slice() {
        Some(Verb::Kexec)
    } else {
        None
    }
}

/// The first words of a command on a file.
#[tactic(auto, unfolding(ho_events::specs::Script::Lines::file_verb))]
fn file_verb(word: &[u8]) -> Option<Verb>
    ensures { result ≡ file_rule word.now }
{
    if word == b"memfd".as_slice() {
        Some(Verb::Memfd)
    } else if word == b"device".as_slice() {
        Some(Verb::Device)
    } else if word == b"write".as_slice() {
        Some(Verb::Write)
    } else if word == b"fill".as_slice() {
        Some(Verb::Fill)
    } else if word == b"read".as_slice() {
        Some(Verb::Read)
    } else if word == b"truncate".as_slice() {
        Some(Verb::Truncate)
    } else if word == b"seek".as_slice() {
        Some(Verb::Seek)
    } else if word == b"tell".as_slice() {
        Some(Verb::Tell)
    } else if word == b"closefd".as_slice() {
        Some(Verb::CloseFd)
    } else {
        None
    }
}

/// The first words of a command on a session.
#[tactic(auto, unfolding(ho_events::specs::Script::Lines::session_verb))]
fn session_verb(word: &[u8]) -> Option<Verb>
    ensures { result ≡ session_rule word.now }
{
    if word == b"create".as_slice() {
        Some(Verb::Create)
    } else if word == b"preserve".as_slice() {
        Some(Verb::Preserve)
    } else if word == b"close".as_slice() {
        Some(Verb::Close)
    } else if word == b"open".as_slice() {
        Some(Verb::Open)
    } else if word == b"retrieve".as_slice() {
        Some(Verb::Retrieve)
    } else if word == b"finish".as_slice() {
        Some(Verb::Finish)
    } else {
        None
    }
}

/// Whether the lines that begin so aren't built yet.
pub fn is_unbuilt_verb(verb: Verb) -> bool
    ensures { result ≡ unbuilt_rule verb }
{
    matches!(verb, Verb::Fail | Verb::Device)
}
