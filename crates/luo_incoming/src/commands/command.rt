//! One command of an agent.

ghost use Rattle.std.specs.Prelude.{◌≡◌, IsTrue};
ghost use Rattle.machine_core.specs.Agents.{Agent, no_hands};
ghost use Rattle.machine_core.specs.Turns.{IsReady};
ghost use Rattle.luo_calls.specs.Came.{CameTo};
ghost use Rattle.luo_incoming.specs.Done.{is_done};

use crate::commands::finish::finish;
use crate::commands::open::open;
use crate::commands::retrieve::retrieve;
use ho_events::command::Command;
use ho_events::slip::At;
use luo_calls::Outcome;
use machine_core::{Labels, Reach};
use std::alloc::Global;

/// Does one command of an agent, turn by turn. `at` has the command's number and the agent's last stamp.
pub fn do_command<R: Reach>(
    alloc: Global,
    reach: &mut R,
    labels: &mut Labels,
    at: At,
    command: &Command,
) -> Outcome
    requires ready { IsReady at (R.shown reach.old) }
    requires free { (R.shown reach.old).hands ≡ no_hands }
    requires here { IsTrue (is_done command.now) }
    ensures came { CameTo labels.old.bound labels.new.bound command.now at (R.shown reach.old) (R.shown reach.new) result }
{
    let mut next = at;
    match command {
        Command::Open(name) => match open(alloc, reach, &mut next, *name) {
            Ok(reply) => Outcome::Done(reply, next.last),
            Err(halt) => Outcome::Halted(Vec::new(alloc), halt),
        },
        Command::Retrieve(name, token, label) => match retrieve(
            alloc, reach, labels, &mut next, *name, *token, *label,
        ) {
            Ok(reply) => Outcome::Done(reply, next.last),
            Err(halt) => Outcome::Halted(Vec::new(alloc), halt),
        },
        Command::Finish(name) => match finish(alloc, reach, &mut next, *name) {
            Ok(reply) => Outcome::Done(reply, next.last),
            Err((folios, halt)) => Outcome::Halted(folios, halt),
        },
        _ => luo_calls::do_command(alloc, reach, labels, at, command),
    }
}
