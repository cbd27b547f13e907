//! The command `open`.

ghost use Rattle.std.specs.Prelude.{◌≡◌, IfOk, IfErr};
ghost use Rattle.ho_world.specs.Sequences.{Labels};
ghost use Rattle.ho_world.specs.Sequences.Sessions.{open_acts};
ghost use Rattle.machine_core.specs.Agents.{Agent, no_hands};
ghost use Rattle.machine_core.specs.Commands.{Comes, Halts};
ghost use Rattle.machine_core.specs.Turns.{IsReady};
ghost use Rattle.luo_calls.specs.Doing.{AreWhole, SticksAfter};

use crate::turns::registry::open_name;
use crate::turns::session::open_session;
use ho_base::name::Name;
use ho_events::command::Command;
use ho_events::reply::Reply;
use ho_events::slip::At;
use luo_calls::turns::done::end_command;
use luo_calls::{Stuck, release};
use machine_core::{Halt, Reach};
use std::alloc::Global;

/// Opens the incoming session of a name that waits: refused with `AlreadyOpen` where the name was opened, and with
/// `NoSession` where it neither waits nor was opened.
pub fn open<R: Reach>(alloc: Global, reach: &mut R, at: &mut At, name: Name) -> Result<Reply, Halt>
    requires ready { IsReady at.old (R.shown reach.old) }
    requires free { (R.shown reach.old).hands ≡ no_hands }
    ensures comes { IfOk result (λ reply. (labels : Labels) → Comes labels labels (Command.Open name) reply at.old at.new (R.shown reach.old) (R.shown reach.new)) }
    ensures halts { IfErr result (λ halt. (labels : Labels) → Halts labels labels (Command.Open name) halt at.old at.new (R.shown reach.old) (R.shown reach.new)) }
{
    match open_turns(alloc, reach, at, name) {
        Ok(reply) => Ok(reply),
        Err(stuck) => Err(release(reach, stuck)),
    }
}

/// The turns of an `open`.
fn open_turns<R: Reach>(
    alloc: Global,
    reach: &mut R,
    at: &mut At,
    name: Name,
) -> Result<Reply, Stuck>
    requires ready { IsReady at.old (R.shown reach.old) }
    requires free { (R.shown reach.old).hands ≡ no_hands }
    ensures comes { IfOk result (λ reply. (labels : Labels) → Comes labels labels (Command.Open name) reply at.old at.new (R.shown reach.old) (R.shown reach.new)) }
    ensures sticks { IfErr result (λ stuck. SticksAfter (AreWhole (open_acts name)) stuck at.old at.new (R.shown reach.old) (R.shown reach.new)) }
{
    match open_name(alloc, reach, at, name)? {
        Reply::OkSlot(slot) => {
            open_session(alloc, reach, at, slot, name)?;
            end_command(reach, at, Reply::Ok)?;
            Ok(Reply::Ok)
        }
        Reply::AlreadyOpen => {
            end_command(reach, at, Reply::AlreadyOpen)?;
            Ok(Reply::AlreadyOpen)
        }
        Reply::NoSession => {
            end_command(reach, at, Reply::NoSession)?;
            Ok(Reply::NoSession)
        }
        _ => unreachable!(),
    }
}
