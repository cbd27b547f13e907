//! What a list of words asks the program to do.

ghost use Rattle.std.specs.Prelude.{◌≡◌, option_map, map, string_bytes};
ghost use Rattle.command_words.specs.Requests.{asked_by, run_of, resume_of, audit_of, inspect_of, gen_of, request_of};
ghost use Rattle.command_words.specs.Shown.{names_shown, request_shown, text_shown};

use crate::given::{Given, Names};
use crate::number::number_u64;

/// What words ask the program to do. Names are the words themselves; none is empty or begins with `-`.
#[derive(Clone, Copy, Debug, PartialEq)]
pub enum Request<'a> {
    /// To run the script of this name, and to write the images of its kexecs to files with a name that begins as `images`,
    /// and the text of its history to the file `summary`, where they are given.
    Run {
        script: &'a str,
        images: Option<&'a str>,
        summary: Option<&'a str>,
    },
    /// The same, beginning with the kernel that an image carries.
    Resume {
        image: &'a str,
        script: &'a str,
        images: Option<&'a str>,
        summary: Option<&'a str>,
    },
    /// To check whether a text is a legal history of a script.
    Audit {
        script: &'a str,
        history: &'a str,
    },
    /// To report what an image carries.
    Inspect {
        image: &'a str,
    },
    /// To write the script that the generator makes of a number.
    Gen {
        number: u64,
    },
}

/// What a command asks for with the names and options that were given after it.
#[tactic(auto, unfolding(crate::specs::Requests::asked_by))]
fn asked_by<'a>(command: &[u8], given: Given<'a>) -> Option<Request<'a>>
    ensures { option_map request_shown result ≡ asked_by command.now (names_shown given.entry.names) (text_shown given.entry.images) (text_shown given.entry.summary) }
{
    if command == b"run".as_slice() {
        run_of(given)
    } else if command == b"resume".as_slice() {
        resume_of(given)
    } else if command == b"audit".as_slice() {
        audit_of(given)
    } else if command == b"inspect".as_slice() {
        inspect_of(given)
    } else if command == b"gen".as_slice() {
        gen_of(given)
    } else {
        None
    }
}

/// `run` takes a script, and options.
fn run_of(given: Given<'_>) -> Option<Request<'_>>
    ensures { option_map request_shown result ≡ run_of (names_shown given.entry.names) (text_shown given.entry.images) (text_shown given.entry.summary) }
{
    match given.names {
        Names::One(script) => Some(Request::Run {
            script,
            images: given.images,
            summary: given.summary,
        }),
        Names::Zero | Names::Two(_, _) => None,
    }
}

/// `resume` takes an image and a script, and options.
fn resume_of(given: Given<'_>) -> Option<Request<'_>>
    ensures { option_map request_shown result ≡ resume_of (names_shown given.entry.names) (text_shown given.entry.images) (text_shown given.entry.summary) }
{
    match given.names {
        Names::Two(image, script) => Some(Request::Resume {
            image,
            script,
            images: given.images,
            summary: given.summary,
        }),
        Names::Zero | Names::One(_) => None,
    }
}

/// `audit` takes a script and a history, and no option.
fn audit_of(given: Given<'_>) -> Option<Request<'_>>
    ensures { option_map request_shown result ≡ audit_of (names_shown given.entry.names) (text_shown given.entry.images) (text_shown given.entry.summary) }
{
    match (given.names, given.images, given.summary) {
        (Names::Two(script, history), None, None) => Some(Request::Audit { script, history }),
        _ => None,
    }
}

/// `inspect` takes an image, and no option.
fn inspect_of(given: Given<'_>) -> Option<Request<'_>>
    ensures { option_map request_shown result ≡ inspect_of (names_shown given.entry.names) (text_shown given.entry.images) (text_shown given.entry.summary) }
{
    match (given.names, given.images, given.summary) {
        (Names::One(image), None, None) => Some(Request::Inspect { image }),
        _ => None,
    }
}

/// `gen` takes a number, and no option.
#[tactic(auto, unfolding(crate::specs::Requests::number_asked))]
fn gen_of(given: Given<'_>) -> Option<Request<'_>>
    ensures { option_map request_shown result ≡ gen_of (names_shown given.entry.names) (text_shown given.entry.images) (text_shown given.entry.summary) }
{
    match (given.names, given.images, given.summary) {
        (Names::One(word), None, None) => {
            let number = number_u64(word.as_bytes())?;
            Some(Request::Gen { number })
        }
        _ => None,
    }
}

/// What the words ask the program to do; none exactly where they fit no command.
///
/// The first word is `run`, `resume`, `audit`, `inspect` or `gen`. After it come names, as many as the command takes, and
/// for `run` and `resume` the options `--images FILE` or `--images=FILE` and `--summary TEXT` or `--summary=TEXT`, in any
/// order and place, each once at most. After a word `--` each word is a name. No name and no option's value is empty or
/// begins with `-`. The number of `gen` is 1 to 20 decimal digits of a value below 2^64. It takes no memory.
pub fn asked(words: &[String]) -> Option<Request<'_>>
    ensures { option_map request_shown result ≡ request_of (map string_bytes words.now) }
{
    let (command, rest) = words.split_first()?;
    let given = Given::of_words(rest)?;
    if given.awaits_value() {
        None
    } else {
        asked_by(command.as_bytes(), given)
    }
}
