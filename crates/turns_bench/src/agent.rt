//! An agent, and its turns.

ghost use Rattle.std.specs.Prelude.{◌≡◌};
ghost use Rattle.turns_bench.specs.Agents.{IsReady};

use crate::tally::{Tally, entry};
use ho_base::numbers::{AgentNo, ObjectNo};
use std::sync::Wait;
use turns_table::{Pass, Turns};

/// An agent with its pass, and the object that it takes turns with.
#[derive(Drop)]
pub struct Agent {
    pub pass: Pass<Tally>,
    pub number: AgentNo,
    pub object: ObjectNo,
}

/// A turn that adds an entry, where there is memory for it.
fn turn<R: Wait>(rt: &R, turns: &Turns<Tally>, agent: &mut Agent)
    requires { IsReady turns.now agent.old }
    ensures ready { IsReady turns.now agent.new }
    ensures number { agent.new.number ≡ agent.old.number }
{
    let number = agent.number;
    let object = agent.object;
    if Turns::<Tally>::reserve(&mut agent.pass, 1).is_err() {
        return;
    }
    let mut tally = turns.begin(rt, &mut agent.pass, object);
    if tally.entries.reserve(1).is_err() {
        turns.end(&mut agent.pass, object, tally, None);
        return;
    }
    let stamp = tally.entries.len() as u64;
    tally.entries.push_reserved(entry(stamp, number, object));
    turns.end(
        &mut agent.pass,
        object,
        tally,
        Some(entry(stamp, number, object)),
    );
}

/// So many turns.
pub fn work<R: Wait>(rt: &R, turns: &Turns<Tally>, agent: &mut Agent, times: u32)
    requires { IsReady turns.now agent.old }
    ensures { IsReady turns.now agent.new }
{
    for _ in 0..times {
        turn(rt, turns, agent);
    }
}
