//! The command `create`.

ghost use Rattle.std.specs.Prelude.{◌≡◌, IfOk, IfErr};
ghost use Rattle.ho_world.specs.Sequences.{Labels};
ghost use Rattle.ho_world.specs.Sequences.Sessions.{create_acts};
ghost use Rattle.machine_core.specs.Agents.{Agent, no_hands};
ghost use Rattle.machine_core.specs.Commands.{Comes, Halts};
ghost use Rattle.machine_core.specs.Turns.{IsReady};
ghost use Rattle.luo_calls.specs.Doing.{AreWhole, SticksAfter};

use crate::stuck::{Stuck, release};
use crate::turns::done::end_command;
use crate::turns::registry::create_name;
use crate::turns::session::begin_out;
use ho_base::name::Name;
use ho_events::command::Command;
use ho_events::reply::Reply;
use ho_events::slip::At;
use machine_core::{Halt, Reach};
use std::alloc::Global;

/// Makes a new outgoing session: refused with `NameTaken` where the name is outgoing, then with `SessionsFull` where each
/// outgoing slot has a name.
pub fn create<R: Reach>(
    alloc: Global,
    reach: &mut R,
    at: &mut At,
    name: Name,
) -> Result<Reply, Halt>
    requires ready { IsReady at.old (R.shown reach.old) }
    requires free { (R.shown reach.old).hands ≡ no_hands }
    ensures comes { IfOk result (λ reply. (labels : Labels) → Comes labels labels (Command.Create name) reply at.old at.new (R.shown reach.old) (R.shown reach.new)) }
    ensures halts { IfErr result (λ halt. (labels : Labels) → Halts labels labels (Command.Create name) halt at.old at.new (R.shown reach.old) (R.shown reach.new)) }
{
    match create_turns(alloc, reach, at, name) {
        Ok(reply) => Ok(reply),
        Err(stuck) => Err(release(reach, stuck)),
    }
}

/// The turns of a `create`.
fn create_turns<R: Reach>(
    alloc: Global,
    reach: &mut R,
    at: &mut At,
    name: Name,
) -> Result<Reply, Stuck>
    requires ready { IsReady at.old (R.shown reach.old) }
    requires free { (R.shown reach.old).hands ≡ no_hands }
    ensures comes { IfOk result (λ reply. (labels : Labels) → Comes labels labels (Command.Create name) reply at.old at.new (R.shown reach.old) (R.shown reach.new)) }
    ensures sticks { IfErr result (λ stuck. SticksAfter (AreWhole (create_acts name)) stuck at.old at.new (R.shown reach.old) (R.shown reach.new)) }
{
    match create_name(alloc, reach, at, name)? {
        Reply::OkSlot(slot) => {
            begin_out(alloc, reach, at, slot, name)?;
            end_command(reach, at, Reply::Ok)?;
            Ok(Reply::Ok)
        }
        Reply::NameTaken => {
            end_command(reach, at, Reply::NameTaken)?;
            Ok(Reply::NameTaken)
        }
        Reply::SessionsFull => {
            end_command(reach, at, Reply::SessionsFull)?;
            Ok(Reply::SessionsFull)
        }
        _ => unreachable!(),
    }
}
