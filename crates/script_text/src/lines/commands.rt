//! The lines of commands.

ghost use Rattle.std.specs.Prelude.{◌≡◌, IfOk};
ghost use Rattle.ho_events.specs.Script.Words.{words};
ghost use Rattle.ho_events.specs.Script.Lines.{memfd_line as memfd_rule, device_line as device_rule, write_line as write_rule, fill_line as fill_rule, read_line as read_rule, truncate_line as truncate_rule, seek_line as seek_rule, tell_line as tell_rule, close_fd_line as close_fd_rule, create_line as create_rule, preserve_line as preserve_rule, close_line as close_rule, open_line as open_rule, retrieve_line as retrieve_rule, finish_line as finish_rule};

use crate::forms::{bytes_of, kind_of, name_of, number_u8, number_u32};
use crate::lines::args::{
    four_words, name_and_number, name_token_label, one_name, three_words, two_words,
};
use ho_base::limits::{DEVICE_BYTES, MAX_ORDER, READ_BYTES};
use ho_base::numbers::{Order, Token};
use ho_events::command::Command;
use ho_events::line::{Line, Reason};
use std::alloc::{AllocError, Global};

/// `memfd LABEL ORDER` with ORDER from 0 to 9.
#[tactic(auto, unfolding(ho_events::specs::Script::Lines::memfd_line))]
pub fn memfd_line(args: &[u8]) -> Result<Line, Reason>
    ensures { result ≡ memfd_rule (words args.now) }
{
    let (label, order) = two_words(args)?;
    let label = name_of(label)?;
    let order = number_u8(order, 0, MAX_ORDER)?;
    Ok(Line::Command(Command::Memfd(label, Order(order))))
}

/// `device LABEL KIND SIZE` with SIZE from 1 to 4096.
#[tactic(auto, unfolding(ho_events::specs::Script::Lines::device_line))]
pub fn device_line(args: &[u8]) -> Result<Line, Reason>
    ensures { result ≡ device_rule (words args.now) }
{
    let (label, kind, size) = three_words(args)?;
    let label = name_of(label)?;
    let kind = kind_of(kind)?;
    let size = number_u32(size, 1, DEVICE_BYTES)?;
    Ok(Line::Command(Command::Device(label, kind, size)))
}

/// `write LABEL OFFSET HEX` with OFFSET from 0 to 4,294,967,295.
#[tactic(auto, unfolding(ho_events::specs::Script::Lines::write_line))]
pub fn write_line(alloc: Global, args: &[u8]) -> Result<Result<Line, Reason>, AllocError>
    ensures { IfOk result (λ line. line ≡ write_rule (words args.now)) }
{
    let (label, offset, hex) = match three_words(args) {
        Ok(words) => words,
        Err(why) => return Ok(Err(why)),
    };
    let label = match name_of(label) {
        Ok(label) => label,
        Err(why) => return Ok(Err(why)),
    };
    let offset = match number_u32(offset, 0, u32::MAX) {
        Ok(offset) => offset,
        Err(why) => return Ok(Err(why)),
    };
    match bytes_of(alloc, hex)? {
        Ok(bytes) => Ok(Ok(Line::Command(Command::Write(label, offset, bytes)))),
        Err(why) => Ok(Err(why)),
    }
}

/// `fill LABEL OFFSET LEN BYTE` with OFFSET as above, LEN from 1 to 4,294,967,295, BYTE from 0 to 255.
#[tactic(auto, unfolding(ho_events::specs::Script::Lines::fill_line))]
pub fn fill_line(args: &[u8]) -> Result<Line, Reason>
    ensures { result ≡ fill_rule (words args.now) }
{
    let (label, offset, len, byte) = four_words(args)?;
    let label = name_of(label)?;
    let offset = number_u32(offset, 0, u32::MAX)?;
    let len = number_u32(len, 1, u32::MAX)?;
    let byte = number_u8(byte, 0, u8::MAX)?;
    Ok(Line::Command(Command::Fill(label, offset, len, byte)))
}

/// `read LABEL OFFSET LEN` with LEN from 0 to 4096.
#[tactic(auto, unfolding(ho_events::specs::Script::Lines::read_line))]
pub fn read_line(args: &[u8]) -> Result<Line, Reason>
    ensures { result ≡ read_rule (words args.now) }
{
    let (label, offset, len) = three_words(args)?;
    let label = name_of(label)?;
    let offset = number_u32(offset, 0, u32::MAX)?;
    let len = number_u32(len, 0, READ_BYTES)?;
    Ok(Line::Command(Command::Read(label, offset, len)))
}

/// `truncate LABEL SIZE`.
#[tactic(auto, unfolding(ho_events::specs::Script::Lines::truncate_line))]
pub fn truncate_line(args: &[u8]) -> Result<Line, Reason>
    ensures { result ≡ truncate_rule (words args.now) }
{
    let (label, number) = name_and_number(args)?;
    Ok(Line::Command(Command::Truncate(label, number)))
}

/// `seek LABEL POS`.
#[tactic(auto, unfolding(ho_events::specs::Script::Lines::seek_line))]
pub fn seek_line(args: &[u8]) -> Result<Line, Reason>
    ensures { result ≡ seek_rule (words args.now) }
{
    let (label, number) = name_and_number(args)?;
    Ok(Line::Command(Command::Seek(label, number)))
}

/// `tell LABEL`.
#[tactic(auto, unfolding(ho_events::specs::Script::Lines::tell_line))]
pub fn tell_line(args: &[u8]) -> Result<Line, Reason>
    ensures { result ≡ tell_rule (words args.now) }
{
    let name = one_name(args)?;
    Ok(Line::Command(Command::Tell(name)))
}

/// `closefd LABEL`.
#[tactic(auto, unfolding(ho_events::specs::Script::Lines::close_fd_line))]
pub fn close_fd_line(args: &[u8]) -> Result<Line, Reason>
    ensures { result ≡ close_fd_rule (words args.now) }
{
    let name = one_name(args)?;
    Ok(Line::Command(Command::CloseFd(name)))
}

/// `create NAME`.
#[tactic(auto, unfolding(ho_events::specs::Script::Lines::create_line))]
pub fn create_line(args: &[u8]) -> Result<Line, Reason>
    ensures { result ≡ create_rule (words args.now) }
{
    let name = one_name(args)?;
    Ok(Line::Command(Command::Create(name)))
}

/// `close NAME`.
#[tactic(auto, unfolding(ho_events::specs::Script::Lines::close_line))]
pub fn close_line(args: &[u8]) -> Result<Line, Reason>
    ensures { result ≡ close_rule (words args.now) }
{
    let name = one_name(args)?;
    Ok(Line::Command(Command::Close(name)))
}

/// `open NAME`.
#[tactic(auto, unfolding(ho_events::specs::Script::Lines::open_line))]
pub fn open_line(args: &[u8]) -> Result<Line, Reason>
    ensures { result ≡ open_rule (words args.now) }
{
    let name = one_name(args)?;
    Ok(Line::Command(Command::Open(name)))
}

/// `finish NAME`.
#[tactic(auto, unfolding(ho_events::specs::Script::Lines::finish_line))]
pub fn finish_line(args: &[u8]) -> Result<Line, Reason>
    ensures { result ≡ finish_rule (words args.now) }
{
    let name = one_name(args)?;
    Ok(Line::Command(Command::Finish(name)))
}

/// `preserve NAME TOKEN LABEL` with any TOKEN of 8 bytes.
#[tactic(auto, unfolding(ho_events::specs::Script::Lines::preserve_line))]
pub fn preserve_line(args: &[u8]) -> Result<Line, Reason>
    ensures { result ≡ preserve_rule (words args.now) }
{
    let (name, token, label) = name_token_label(args)?;
    Ok(Line::Command(Command::Preserve(name, Token(token), label)))
}

/// `retrieve NAME TOKEN LABEL` with any TOKEN of 8 bytes.
#[tactic(auto, unfolding(ho_events::specs::Script::Lines::retrieve_line))]
pub fn retrieve_line(args: &[u8]) -> Result<Line, Reason>
    ensures { result ≡ retrieve_rule (words args.now) }
{
    let (name, token, label) = name_token_label(args)?;
    Ok(Line::Command(Command::Retrieve(name, Token(token), label)))
}
