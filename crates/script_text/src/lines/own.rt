//! The lines of a script's own: its head, its planned failures and its blocks.

ghost use Rattle.std.specs.Prelude.{◌≡◌};
ghost use Rattle.ho_events.specs.Script.Words.{words};
ghost use Rattle.ho_events.specs.Script.Lines.{machine_line as machine_rule, scratch_line as scratch_rule, fail_line as fail_rule, round_line as round_rule, agent_line as agent_rule, kexec_line as kexec_rule};

use crate::forms::{kind_of, number_u8, number_u32, number_u64, op_of};
use crate::lines::args::{four_words, one_name, one_word, two_words};
use crate::words::next_word;
use ho_base::limits::{KEXECS, MAX_FRAMES, MIN_FRAMES};
use ho_base::numbers::{Blob, Pfn};
use ho_base::shape::Area;
use ho_events::line::{Line, Reason};
use ho_events::script::Fail;

/// The greatest number of a planned failure's call.
const MAX_NTH: u32 = 1_000_000;

/// `machine N` with N from 32 to 16,384.
#[tactic(auto, unfolding(ho_events::specs::Script::Lines::machine_line))]
pub fn machine_line(args: &[u8]) -> Result<Line, Reason>
    ensures { result ≡ machine_rule (words args.now) }
{
    let frames = one_word(args)?;
    let frames = number_u32(frames, MIN_FRAMES, MAX_FRAMES)?;
    Ok(Line::Machine(frames))
}

/// `scratch FIRST COUNT` with both from 0 to 16,384.
#[tactic(auto, unfolding(ho_events::specs::Script::Lines::scratch_line))]
pub fn scratch_line(args: &[u8]) -> Result<Line, Reason>
    ensures { result ≡ scratch_rule (words args.now) }
{
    let (first, count) = two_words(args)?;
    let first = number_u32(first, 0, MAX_FRAMES)?;
    let count = number_u32(count, 0, MAX_FRAMES)?;
    Ok(Line::Scratch(Area {
        first: Pfn(first),
        count,
    }))
}

/// `fail KERNEL KIND OP NTH` with KERNEL from 0 to 8 and NTH from 1 to 1,000,000.
#[tactic(auto, unfolding(ho_events::specs::Script::Lines::fail_line))]
pub fn fail_line(args: &[u8]) -> Result<Line, Reason>
    ensures { result ≡ fail_rule (words args.now) }
{
    let (kernel, kind, op, nth) = four_words(args)?;
    let kernel = number_u8(kernel, 0, KEXECS as u8)?;
    let kind = kind_of(kind)?;
    let op = op_of(op)?;
    let nth = number_u32(nth, 1, MAX_NTH)?;
    Ok(Line::Fail(Fail {
        kernel,
        kind,
        op,
        nth,
    }))
}

/// `round`.
#[tactic(auto, unfolding(ho_events::specs::Script::Lines::round_line))]
pub fn round_line(args: &[u8]) -> Result<Line, Reason>
    ensures { result ≡ round_rule (words args.now) }
{
    match next_word(args) {
        None => Ok(Line::Round),
        Some(_) => Err(Reason::Count),
    }
}

/// `agent NAME`.
#[tactic(auto, unfolding(ho_events::specs::Script::Lines::agent_line))]
pub fn agent_line(args: &[u8]) -> Result<Line, Reason>
    ensures { result ≡ agent_rule (words args.now) }
{
    let name = one_name(args)?;
    Ok(Line::Agent(name))
}

/// `kexec VERSION FRAMES` with any VERSION of 8 bytes, and FRAMES from 1 to 16,384.
#[tactic(auto, unfolding(ho_events::specs::Script::Lines::kexec_line))]
pub fn kexec_line(args: &[u8]) -> Result<Line, Reason>
    ensures { result ≡ kexec_rule (words args.now) }
{
    let (version, frames) = two_words(args)?;
    let version = number_u64(version, 0, u64::MAX)?;
    let frames = number_u32(frames, 1, MAX_FRAMES)?;
    Ok(Line::Kexec(Blob { version, frames }))
}
