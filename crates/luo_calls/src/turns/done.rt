//! The end of a command, in the agent's own log.

ghost use Rattle.std.specs.Prelude.{◌≡◌, ◌∷◌, [], OnOk, OnErr, IfErr, None};
ghost use Rattle.ho_world.specs.Logs.{end_with};
ghost use Rattle.machine_core.specs.Agents.{Agent};
ghost use Rattle.machine_core.specs.Turns.{IsReady, Goes};
ghost use Rattle.luo_calls.specs.Stuck.{Sticks};

use crate::stuck::Stuck;
use ho_base::numbers::NoMemory;
use ho_events::entry::{Entry, Place};
use ho_events::event::Event;
use ho_events::reply::Reply;
use ho_events::slip::At;
use machine_core::{Halt, LATE, Reach};

/// Ends a command with its reply.
pub fn end_command<R: Reach>(reach: &mut R, at: &mut At, reply: Reply) -> Result<(), Stuck>
    requires ready { IsReady at.old (R.shown reach.old) }
    ensures goes { OnOk result (Goes (end_with reply ∷ []) at.old at.new (R.shown reach.old) (R.shown reach.new)) }
    ensures sticks { IfErr result (λ stuck. Sticks at.old None stuck (R.shown reach.old) (R.shown reach.new)) }
    ensures same_at { OnErr result (at.new ≡ at.old) }
{
    if at.last >= LATE {
        return Err(Stuck {
            halt: Halt::Late(at.last),
            held: None,
        });
    }
    if let Err(NoMemory) = reach.room(1) {
        return Err(Stuck {
            halt: Halt::Memory,
            held: None,
        });
    }
    at.last += 1;
    reach.own(Entry {
        kernel: at.kernel,
        stamp: at.last,
        agent: at.agent,
        command: at.command,
        object: Place::Own,
        event: Event::SelfDone,
        reply,
    });
    Ok(())
}
