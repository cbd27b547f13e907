//! Two agents and two objects.

ghost use Rattle.std.specs.Prelude.{◌≡◌, ◌<◌, ◌++◌, ◌∷◌, [], length};
ghost use Rattle.ho_events.specs.declared.entry.Place.TheVariants.{Object};
ghost use Rattle.ho_events.specs.declared.event.Event.TheVariants.{SelfDone};
ghost use Rattle.ho_events.specs.declared.reply.Reply.TheVariants.{Ok as OkReply};
ghost use Rattle.turns_table.specs.Tables.{opening, IsOf};
ghost use Rattle.turns_table.specs.Passes.{IsIdle};

use ho_base::numbers::{AgentNo, ObjectNo};
use ho_events::chronicle::{Chronicle, Recorded, last_stamp_of};
use ho_events::entry::{Entry, Place};
use ho_events::event::Event;
use ho_events::reply::Reply;
use std::alloc::Global;
use std::process::Abort;
use std::sync::Wait;
use std::thread;
use turns_table::{Pass, Turns};

/// An object that keeps its history and no more. It isn't `Drop`, as an object that holds frames.
struct Tally {
    number: u16,
    entries: Vec<Entry>,
}

impl Recorded for Tally {
    ghost history = { λ t. t.entries.items };

    fn entries(&self) -> &[Entry] {
        self.entries.as_slice()
    }

    fn last_stamp(&self) -> u64 {
        last_stamp_of(self.entries.as_slice())
    }
}

impl Chronicle for Tally {
    type Start = u16;

    ghost start = { λ t. t.number };

    ghost fits = { λ _ _ _ _. Unit {0} };

    ghost balanced = { λ _ _ _. Unit {0} };

    ghost keeps = { λ _ _ _ _ _ _ _ _ _ _ _ _ _ _ _. tt };
}

/// An entry of an agent on an object.
fn entry(stamp: u64, agent: AgentNo, object: ObjectNo) -> Entry
    ensures { result ≡ record { kernel = 0; stamp = stamp; agent = agent; command = 1; object = Object object; event = SelfDone; reply = OkReply } }
{
    Entry {
        kernel: 0,
        stamp,
        agent,
        command: 1,
        object: Place::Object(object),
        event: Event::SelfDone,
        reply: Reply::Ok,
    }
}

/// A turn that adds an entry, where there is memory for it.
fn turn<R: Wait>(
    rt: &R,
    turns: &Turns<Tally>,
    pass: &mut Pass<Tally>,
    agent: AgentNo,
    object: ObjectNo,
)
    requires table { IsOf turns.now pass.old }
    requires range { object.0 < length (opening turns.now) }
    requires idle { IsIdle pass.old agent.0 }
    ensures table { IsOf turns.now pass.new }
    ensures idle { IsIdle pass.new agent.0 }
{
    if Turns::<Tally>::reserve(pass, 1).is_err() {
        return;
    }
    let mut tally = turns.begin(rt, pass, object);
    if tally.entries.reserve(1).is_err() {
        turns.end(pass, object, tally, None);
        return;
    }
    let stamp = tally.entries.len() as u64;
    tally.entries.push_reserved(entry(stamp, agent, object));
    turns.end(pass, object, tally, Some(entry(stamp, agent, object)));
}

/// So many turns, with the two objects by turns.
fn work<R: Wait>(
    rt: &R,
    turns: &Turns<Tally>,
    mut pass: Pass<Tally>,
    agent: AgentNo,
    times: u32,
) -> Pass<Tally>
    requires table { IsOf turns.now pass }
    requires two { 1 < length (opening turns.now) }
    requires idle { IsIdle pass agent.0 }
    ensures table { IsOf turns.now result }
    ensures idle { IsIdle result agent.0 }
{
    for i in 0..times {
        let object = if i % 2 == 0 { ObjectNo(0) } else { ObjectNo(1) };
        turn(rt, turns, &mut pass, agent, object);
    }
    pass
}

/// An object with no entries.
fn empty(alloc: Global, number: u16) -> Tally
    ensures { result.entries.items ≡ [] }
{
    Tally {
        number,
        entries: Vec::new(alloc),
    }
}

/// Two objects with no entries.
fn two<R: Abort>(rt: &R, alloc: Global) -> Vec<Tally>
    ensures { length result.items ≡ 2 }
{
    let mut objects = Vec::new(alloc);
    if objects.reserve(2).is_err() {
        panic!(rt; "memory");
    }
    objects.push_reserved(empty(alloc, 0));
    objects.push_reserved(empty(alloc, 1));
    objects
}

/// How many entries each object has. The objects are given up.
fn counts<R: Abort>(rt: &R, mut objects: Vec<Tally>) -> (usize, usize)
    requires { length objects.items ≡ 2 }
{
    let Tally {
        number: _,
        entries: second,
    } = objects.pop().unwrap();
    let Tally {
        number: _,
        entries: first,
    } = objects.pop().unwrap();
    objects.destroy_empty();
    (first.len(), second.len())
}

/// While a pass holds an object, another can't have it but can have the other object.
#[test]
fn turns_with_two_objects_do_not_exclude_each_other(rt: HostRuntime) {
    let alloc = rt.alloc();
    let (turns, mut last) = match Turns::new(alloc, two(&rt, alloc)) {
        Ok(made) => made,
        Err(_) => panic!(rt; "memory"),
    };
    let mut one = match turns.split(alloc, &mut last, AgentNo(3)) {
        Ok(pass) => pass,
        Err(_) => panic!(rt; "memory"),
    };
    let mut other = match turns.split(alloc, &mut last, AgentNo(7)) {
        Ok(pass) => pass,
        Err(_) => panic!(rt; "memory"),
    };
    let first = match turns.try_begin(&mut one, ObjectNo(0)) {
        Some(tally) => tally,
        None => panic!(rt; "nobody holds it"),
    };
    match turns.try_begin(&mut other, ObjectNo(0)) {
        Some(_) => panic!(rt; "a pass holds it"),
        None => {}
    }
    let second = match turns.try_begin(&mut other, ObjectNo(1)) {
        Some(tally) => tally,
        None => panic!(rt; "nobody holds it"),
    };
    turns.end(&mut one, ObjectNo(0), first, None);
    let first = match turns.try_begin(&mut other, ObjectNo(0)) {
        Some(tally) => tally,
        None => panic!(rt; "nobody holds it any more"),
    };
    turns.end(&mut other, ObjectNo(1), second, None);
    turns.end(&mut other, ObjectNo(0), first, None);
    turns.join(&mut last, one);
    turns.join(&mut last, other);
    let (objects, _logs) = turns.close(last);
    assert_eq!(rt; counts(&rt, objects), (0, 0));
}

/// Each entry of two threads stands in one history and in one log.
#[test]
fn a_thousand_turns_of_two_threads(rt: HostRuntime) {
    let alloc = rt.alloc();
    let (turns, mut last) = match Turns::new(alloc, two(&rt, alloc)) {
        Ok(made) => made,
        Err(_) => panic!(rt; "memory"),
    };
    let one = match turns.split(alloc, &mut last, AgentNo(3)) {
        Ok(pass) => pass,
        Err(_) => panic!(rt; "memory"),
    };
    let other = match turns.split(alloc, &mut last, AgentNo(7)) {
        Ok(pass) => pass,
        Err(_) => panic!(rt; "memory"),
    };
    let shared = &turns;
    let threads = &rt;
    let (one, other) = thread::join(
        threads,
        move || -> Pass<Tally>
            requires { IsOf shared.now one × (1 < length (opening shared.now)) × IsIdle one 3 }
            ensures { IsOf shared.entry.now result × IsIdle result 3 }
        { work(threads, shared, one, AgentNo(3), 1000) },
        move || -> Pass<Tally>
            requires { IsOf shared.now other × (1 < length (opening shared.now)) × IsIdle other 7 }
            ensures { IsOf shared.entry.now result × IsIdle result 7 }
        { work(threads, shared, other, AgentNo(7), 1000) },
    );
    turns.join(&mut last, one);
    turns.join(&mut last, other);
    let (objects, logs) = turns.close(last);
    assert_eq!(rt; counts(&rt, objects), (1000, 1000));
    assert_eq!(rt; (logs[3].len(), logs[7].len()), (1000, 1000));
}
