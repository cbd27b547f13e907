//! Turns on an object that stays in hand over other turns.

ghost use Rattle.std.specs.Prelude.{◌≡◌, ◌≤◌, ◌<◌, ◌^◌, IfOk, IfErr, OnOk, None};
ghost use Rattle.machine_core.specs.Agents.{Agent, CanEnd, HasEnded};
ghost use Rattle.luo_calls.specs.Stuck.{Sticks};

use crate::stuck::Stuck;
use ho_base::numbers::{NoMemory, ObjectNo};
use ho_events::slip::{At, Listed, Slip};
use machine_core::{Halt, LATE, Object, Reach};
use std::alloc::Global;

/// What the end of a turn wants beside the object, which is in hand: room in the agent's log, and a slip for the entry.
pub fn resume<R: Reach>(alloc: Global, reach: &mut R, at: At, listed: Listed) -> Result<Slip, Stuck>
    ensures at { IfOk result (λ slip. slip.at ≡ at) }
    ensures listed { IfOk result (λ slip. slip.room ≡ listed) }
    ensures early { OnOk result (at.last < 2 ^ 63) }
    ensures room { OnOk result (1 ≤ (R.shown reach.new).room) }
    ensures kept { R.shown reach.new ≡ record (R.shown reach.old) { room = (R.shown reach.new).room } }
    ensures sticks { IfErr result (λ stuck. Sticks at None stuck (R.shown reach.old) (R.shown reach.new)) }
{
    if at.last >= LATE {
        return Err(Stuck {
            halt: Halt::Late(at.last),
            held: None,
        });
    }
    if let Err(NoMemory) = reach.room(1) {
        return Err(Stuck {
            halt: Halt::Memory,
            held: None,
        });
    }
    match Slip::make(alloc, at, listed) {
        Ok(slip) => Ok(slip),
        Err(NoMemory) => Err(Stuck {
            halt: Halt::Memory,
            held: None,
        }),
    }
}

/// Gives an object in hand back as it was, since a later turn can't be taken. What that turn has in hand goes back after
/// it.
pub fn under<R: Reach>(reach: &mut R, number: ObjectNo, object: Object, stuck: Stuck) -> Stuck
    requires { CanEnd (R.shown reach.old) number.0 object None ((R.shown reach.old).hands number.0) }
    ensures stuck { result ≡ stuck }
    ensures ended { HasEnded (R.shown reach.old) number.0 None ((R.shown reach.old).hands number.0) (R.shown reach.new) }
{
    reach.end(number, object, None);
    stuck
}
