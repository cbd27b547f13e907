//! Lets threads take turns with objects, and prints how many turns a second they took.
#![tactic(auto)]

ghost use Rattle.std.specs.Prelude.{◌≡◌, ℕ, ◌+◌, ◌<◌, ◌≤◌, [], All, IfOk, OnOk, length};
ghost use Rattle.turns_table.specs.declared.rule.Role.TheVariants.{Spare};
ghost use Rattle.turns_table.specs.Views.{role};
ghost use Rattle.turns_table.specs.Passes.{view};
ghost use Rattle.turns_table.specs.Tables.{opening, IsOf};
ghost use Rattle.turns_bench.specs.Agents.{IsReady};

mod agent;
mod tally;

use crate::agent::{Agent, work};
use crate::tally::Tally;
use ho_base::numbers::{AgentNo, ObjectNo};
use std::alloc::{AllocError, Global};
use std::sync::Wait;
use std::thread::Threads;
use std::time::{Clock, Instant};
use std::{env, io, thread};
use turns_table::{Pass, Turns};

/// So many objects with room for so many entries each.
fn objects_of(alloc: Global, objects: u16, room: u32) -> Result<Vec<Tally>, AllocError>
    ensures { IfOk result (λ v. length v.items ≡ objects) }
{
    let mut made = Vec::with_capacity(alloc, usize::from(objects))?;
    for number in 0..objects {
        made.push_reserved(Tally {
            number,
            entries: Vec::with_capacity(alloc, room as usize)?,
        });
    }
    Ok(made)
}

/// The agent with this number, which takes its pass from the last one.
fn agent_of(
    alloc: Global,
    turns: &Turns<Tally>,
    last: &mut Pass<Tally>,
    number: u8,
    object: ObjectNo,
    room: u32,
) -> Result<Agent, AllocError>
    requires table { IsOf turns.now last.old }
    requires spare { (a : ℕ) → number ≤ a → a < 256 → role (view last.old) a ≡ Spare }
    requires few { number < 255 }
    requires range { object.0 < length (opening turns.now) }
    ensures ready { IfOk result (λ a. IsReady turns.now a) }
    ensures table { IsOf turns.now last.new }
    ensures spare { OnOk result ((a : ℕ) → number + 1 ≤ a → a < 256 → role (view last.new) a ≡ Spare) }
{
    let Ok(mut pass) = turns.split(alloc, last, AgentNo(number)) else {
        return Err(AllocError);
    };
    let Ok(()) = Turns::<Tally>::reserve(&mut pass, room) else {
        return Err(AllocError);
    };
    Ok(Agent {
        pass,
        number: AgentNo(number),
        object,
    })
}

/// So many agents, which share the objects evenly.
fn agents_of(
    alloc: Global,
    turns: &Turns<Tally>,
    mut last: Pass<Tally>,
    agents: u8,
    objects: u16,
    room: u32,
) -> Result<Vec<Agent>, AllocError>
    requires table { IsOf turns.now last }
    requires spare { (a : ℕ) → a < 256 → role (view last) a ≡ Spare }
    requires objects { (0 < objects) × (objects ≤ length (opening turns.now)) }
    requires few { agents < 255 }
    ensures { IfOk result (λ v. All (IsReady turns.now) v.items) }
{
    let mut made = Vec::with_capacity(alloc, usize::from(agents))?;
    for number in 0..agents {
        let object = ObjectNo(u16::from(number) % objects);
        let agent = agent_of(alloc, turns, &mut last, number, object, room)?;
        made.push_reserved(agent);
    }
    Ok(made)
}

/// The nanoseconds of so many turns of each agent. None where the objects don't fit the memory.
fn measure<R: Threads + Wait + Clock + Sync>(
    rt: &R,
    alloc: Global,
    agents: u8,
    objects: u16,
    times: u32,
) -> io::Result<Option<u128>>
    requires objects { 0 < objects }
    requires few { agents < 255 }
{
    let room = times.saturating_mul(u32::from(agents).div_ceil(u32::from(objects)));
    let (turns, last) = match Turns::new(alloc, objects_of(alloc, objects, room)?) {
        Ok(made) => made,
        Err(_) => return Ok(None),
    };
    let mut all = agents_of(alloc, &turns, last, agents, objects, times)?;
    let threads = all.len().max(1);
    let start = Instant::now(rt)?;
    thread::for_each_mut(
        rt,
        all.as_mut_slice(),
        threads,
        &|_, agent| { work(rt, &turns, agent, times) },
    );
    Ok(Some(start.elapsed(rt)?.as_nanos()))
}

/// An argument's number, or 0.
fn number(word: Option<String>) -> u32 {
    match word {
        Some(word) => word.as_str().parse::<u32>().unwrap_or(0),
        None => 0,
    }
}

fn main(rt: HostRuntime) -> io::Result<()> {
    let mut words = env::args(&rt)?;
    let _program = words.next();
    let agents = number(words.next());
    let objects = number(words.next());
    let times = number(words.next());
    if agents == 0 || agents > 8 || objects == 0 || objects > 8 || times == 0 {
        println!(rt; "usage: turns_bench AGENTS OBJECTS TURNS")?;
        return Ok(());
    }
    match measure(&rt, rt.alloc(), agents as u8, objects as u16, times)? {
        Some(time) => {
            let taken = u128::from(agents) * u128::from(times);
            let rate = taken.saturating_mul(1_000_000_000) / time.max(1);
            println!(rt; "{agents} agents, {objects} objects: {rate} turns a second")
        }
        None => println!(rt; "too little memory"),
    }
}
