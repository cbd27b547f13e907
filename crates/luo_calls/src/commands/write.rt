//! The commands `write` and `fill`.

ghost use Rattle.std.specs.Prelude.{◌≡◌, ◌<◌, ◌^◌, IfOk, IfErr};
ghost use Rattle.ho_world.specs.Sequences.{command_acts};
ghost use Rattle.phys_frames.specs.Memory.{AreOf};
ghost use Rattle.machine_core.specs.Agents.{Agent, no_hands};
ghost use Rattle.machine_core.specs.Commands.{Comes, Halts};
ghost use Rattle.machine_core.specs.Turns.{IsReady};
ghost use Rattle.luo_calls.specs.Doing.{AreWhole, SticksAfter};
ghost use Rattle.luo_calls.specs.Puts.{put_command, put_len};
ghost use Rattle.luo_calls.specs.Wrote.{answer_of};

use crate::stuck::{Stopped, empty_handed, release};
use crate::turns::done::end_command;
use crate::turns::put::Put;
use crate::turns::write::{Wrote, write_file};
use ho_base::name::Name;
use ho_events::reply::Reply;
use ho_events::slip::At;
use machine_core::{Halt, Labels, Reach};
use phys_frames::folio::Folio;
use std::alloc::Global;

/// What a write that came out so is answered.
fn reply_of(wrote: &Wrote) -> Reply
    ensures { result ≡ answer_of wrote.now }
{
    match wrote {
        Wrote::Plain(reply) => match reply {
            Reply::TooBig => Reply::TooBig,
            Reply::SizeFrozen => Reply::SizeFrozen,
            _ => Reply::Ok,
        },
        Wrote::Starved(_, _) => Reply::NoFrames,
        Wrote::Filled(_, _) => Reply::Ok,
    }
}

/// Puts bytes at an offset of the label's file, as a `write` or a `fill`. It takes runs for the holes that the bytes
/// touch, all or none. It costs the bytes, the indexes that they touch or that are new, and what a take of so many runs
/// costs.
///
/// # Errors
///
/// The halt of a command that stops in the middle, with the folios that it had in hand.
pub fn write<R: Reach>(
    alloc: Global,
    reach: &mut R,
    labels: &Labels,
    at: &mut At,
    label: Name,
    off: u32,
    put: Put<'_>,
) -> Result<Reply, (Vec<Folio>, Halt)>
    requires ready { IsReady at.old (R.shown reach.old) }
    requires free { (R.shown reach.old).hands ≡ no_hands }
    requires some { 0 < put_len put }
    requires few { put_len put < 2 ^ 32 }
    ensures comes { IfOk result (λ reply. Comes labels.now.bound labels.now.bound (put_command label off put.entry) reply at.old at.new (R.shown reach.old) (R.shown reach.new)) }
    ensures halts { IfErr result (λ h. Halts labels.now.bound labels.now.bound (put_command label off put.entry) h.1 at.old at.new (R.shown reach.old) (R.shown reach.new)) }
    ensures given_up { IfErr result (λ h. AreOf (R.shown reach.old).anchor.home h.0.items) }
{
    match write_turns(alloc, reach, labels, at, label, off, put) {
        Ok(reply) => Ok(reply),
        Err(Stopped { folios, stuck }) => Err((folios, release(reach, stuck))),
    }
}

/// The turns of a `write` or a `fill`.
fn write_turns<R: Reach>(
    alloc: Global,
    reach: &mut R,
    labels: &Labels,
    at: &mut At,
    label: Name,
    off: u32,
    put: Put<'_>,
) -> Result<Reply, Stopped>
    requires ready { IsReady at.old (R.shown reach.old) }
    requires free { (R.shown reach.old).hands ≡ no_hands }
    requires some { 0 < put_len put }
    requires few { put_len put < 2 ^ 32 }
    ensures comes { IfOk result (λ reply. Comes labels.now.bound labels.now.bound (put_command label off put.entry) reply at.old at.new (R.shown reach.old) (R.shown reach.new)) }
    ensures stopped { IfErr result (λ s. SticksAfter (AreWhole (command_acts labels.now.bound (put_command label off put.entry))) s.stuck at.old at.new (R.shown reach.old) (R.shown reach.new)) }
    ensures given_up { IfErr result (λ s. AreOf (R.shown reach.old).anchor.home s.folios.items) }
{
    let Some(file) = labels.file(label) else {
        return match end_command(reach, at, Reply::BadFd) {
            Ok(()) => Ok(Reply::BadFd),
            Err(stuck) => Err(empty_handed(alloc, stuck)),
        };
    };
    let wrote = write_file(alloc, reach, at, file, off, put)?;
    match end_command(reach, at, reply_of(&wrote)) {
        Ok(()) => Ok(reply_of(&wrote)),
        Err(stuck) => Err(empty_handed(alloc, stuck)),
    }
}
