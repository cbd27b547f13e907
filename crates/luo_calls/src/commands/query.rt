//! The commands `read`, `seek` and `tell`.

ghost use Rattle.std.specs.Prelude.{◌≡◌, IfOk, IfErr};
ghost use Rattle.ho_world.specs.Sequences.{command_acts};
ghost use Rattle.machine_core.specs.Agents.{Agent, no_hands};
ghost use Rattle.machine_core.specs.Commands.{Comes, Halts};
ghost use Rattle.machine_core.specs.Turns.{IsReady};
ghost use Rattle.luo_calls.specs.Doing.{AreWhole, SticksAfter};
ghost use Rattle.luo_calls.specs.Queries.{query_command};

use crate::stuck::{Stuck, release};
use crate::turns::done::end_command;
use crate::turns::query::{Query, query_file};
use ho_base::name::Name;
use ho_events::copies::reply_copy;
use ho_events::reply::Reply;
use ho_events::slip::At;
use machine_core::{Halt, Labels, Reach};
use std::alloc::Global;

/// Asks the label's file, as a `read`, a `seek` or a `tell`, and answers as the file does. It costs the bytes of the reply.
pub fn query<R: Reach>(
    alloc: Global,
    reach: &mut R,
    labels: &Labels,
    at: &mut At,
    label: Name,
    query: Query,
) -> Result<Reply, Halt>
    requires ready { IsReady at.old (R.shown reach.old) }
    requires free { (R.shown reach.old).hands ≡ no_hands }
    ensures comes { IfOk result (λ reply. Comes labels.now.bound labels.now.bound (query_command label query) reply at.old at.new (R.shown reach.old) (R.shown reach.new)) }
    ensures halts { IfErr result (λ halt. Halts labels.now.bound labels.now.bound (query_command label query) halt at.old at.new (R.shown reach.old) (R.shown reach.new)) }
{
    match query_turns(alloc, reach, labels, at, label, query) {
        Ok(reply) => Ok(reply),
        Err(stuck) => Err(release(reach, stuck)),
    }
}

/// The turns of a `read`, a `seek` or a `tell`.
fn query_turns<R: Reach>(
    alloc: Global,
    reach: &mut R,
    labels: &Labels,
    at: &mut At,
    label: Name,
    query: Query,
) -> Result<Reply, Stuck>
    requires ready { IsReady at.old (R.shown reach.old) }
    requires free { (R.shown reach.old).hands ≡ no_hands }
    ensures comes { IfOk result (λ reply. Comes labels.now.bound labels.now.bound (query_command label query) reply at.old at.new (R.shown reach.old) (R.shown reach.new)) }
    ensures sticks { IfErr result (λ stuck. SticksAfter (AreWhole (command_acts labels.now.bound (query_command label query))) stuck at.old at.new (R.shown reach.old) (R.shown reach.new)) }
{
    let Some(file) = labels.file(label) else {
        end_command(reach, at, Reply::BadFd)?;
        return Ok(Reply::BadFd);
    };
    let Ok(bytes) = Vec::with_capacity(alloc, query.bytes() as usize) else {
        return Err(Stuck {
            halt: Halt::Memory,
            held: None,
        });
    };
    let reply = query_file(alloc, reach, at, file, query)?;
    let answer = reply_copy(&reply, Vec::new(alloc), bytes);
    end_command(reach, at, reply)?;
    Ok(answer)
}
