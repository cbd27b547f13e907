//! A line of a script, as its words say it, and why a line is refused.

use crate::command::Command;
use crate::script::Fail;
use ho_base::name::Name;
use ho_base::numbers::Blob;
use ho_base::shape::Area;

/// Why a line is refused. Where several reasons apply, the first in this order is given; [`Reason::Later`]
/// comes last where its cause is not the first word alone.
#[derive(Clone, Copy, Debug, PartialEq)]
pub enum Reason {
    /// It has a byte that no script has.
    Byte,
    /// Its first word begins no line.
    Word,
    /// It isn't built yet.
    Later,
    /// It has too few or too many words.
    Count,
    /// Its leftmost word that doesn't fit is a number.
    Number,
    /// Its leftmost word that doesn't fit is a name or a label.
    Name,
    /// Its leftmost word that doesn't fit is hexadecimal.
    Hex,
    /// Its leftmost word that doesn't fit is a kind of device files.
    Kind,
    /// Its leftmost word that doesn't fit is an operation of a handler.
    Op,
    /// It stands where its kind may not stand.
    Place,
    /// It is a scratch line after which the areas are no machine's.
    Shape,
    /// It binds a label again.
    Label,
    /// It is past the limit of its kind.
    Limit,
    /// The script ends before its first scratch line.
    End,
}

/// What the first word of a line says that the line is.
#[derive(Clone, Copy, Debug)]
pub enum Verb {
    Machine,
    Scratch,
    Fail,
    Round,
    Agent,
    Kexec,
    Memfd,
    Device,
    Write,
    Fill,
    Read,
    Truncate,
    Seek,
    Tell,
    CloseFd,
    Create,
    Preserve,
    Close,
    Open,
    Retrieve,
    Finish,
}

/// A line that its words alone don't refuse.
#[derive(Debug, Drop)]
pub enum Line {
    /// The machine's number of frames.
    Machine(u32),
    /// A scratch area of the machine.
    Scratch(Area),
    /// A planned failure.
    Fail(Fail),
    /// The beginning of a round.
    Round,
    /// The beginning of an agent's section of its round.
    Agent(Name),
    /// A kexec with the next kernel's blob.
    Kexec(Blob),
    /// A command of the section's agent.
    Command(Command),
}
