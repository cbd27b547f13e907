//! Writes a chain of chunk frames and reads it, many times over, and prints what one writing and one reading cost.
#![tactic(auto)]

mod folios;
#[cfg(test)]
mod tests;

ghost use Rattle.std.specs.Prelude.{◌≡◌, ◌<◌, ◌≤◌, length};
ghost use Rattle.ho_base.specs.declared.limits.TheConstants.{MAX_FRAMES, MIN_FRAMES};
ghost use Rattle.phys_frames.specs.Memory.{AllHome};

use folio_bitmaps::{ChainError, Tracker, chunk_count, read_chain};
use folios::{give_folios, take_folios};
use ho_base::limits::{MAX_FRAMES, MIN_FRAMES};
use ho_base::numbers::{Order, Pfn};
use phys_frames::Frames;
use std::alloc::{AllocError, Global};
use std::time::{Clock, Instant};
use std::{env, io};

/// The nanoseconds of one writing and of one reading.
#[derive(Clone, Copy)]
struct Times {
    writing: u128,
    reading: u128,
}

/// Marks the first so many frames, each alone.
fn mark_first(tracker: &mut Tracker, marked: u32)
    requires { marked ≤ tracker.old.frames }
    ensures { tracker.new.frames ≡ tracker.old.frames }
{
    for p in 0..marked {
        tracker.mark(Pfn(p), Order(0));
    }
}

/// The nanoseconds of writing the chain once, into frames that are taken for it and brought home, and of reading it.
/// None where it isn't read.
fn round(
    clock: &impl Clock,
    alloc: Global,
    frames: &mut Frames,
    tracker: &Tracker,
) -> io::Result<Option<Times>>
    requires home { AllHome frames.old }
    requires count { length frames.old.pages ≡ tracker.now.frames }
    ensures home { AllHome frames.new }
    ensures count { length frames.new.pages ≡ length frames.old.pages }
{
    let count = chunk_count(frames.count());
    if count >= frames.count() {
        return Ok(None);
    }
    let start = Instant::now(clock)?;
    let mut folios = take_folios(alloc, frames, count)?;
    tracker.write_chain([].as_slice(), folios.as_mut_slice());
    give_folios(folios, frames);
    let writing = start.elapsed(clock)?.as_nanos();
    let start = Instant::now(clock)?;
    let chain = read_chain(alloc, frames, 1);
    let reading = start.elapsed(clock)?.as_nanos();
    match chain {
        Ok(_) => Ok(Some(Times { writing, reading })),
        Err(ChainError::Memory) => Err(AllocError.into()),
        Err(ChainError::BadChain(_)) => Ok(None),
    }
}

/// The nanoseconds of one writing and one reading on average over the rounds. None where the chain isn't read.
fn measure(
    clock: &impl Clock,
    alloc: Global,
    frames: &mut Frames,
    marked: u32,
    rounds: u32,
) -> io::Result<Option<Times>>
    requires home { AllHome frames.old }
    requires marked { marked ≤ length frames.old.pages }
    requires rounds { 0 < rounds }
    ensures home { AllHome frames.new }
{
    let Ok(mut tracker) = Tracker::new(alloc, frames.count()) else {
        return Err(AllocError.into());
    };
    mark_first(&mut tracker, marked);
    let mut writing = 0u128;
    let mut reading = 0u128;
    for _ in 0..rounds {
        match round(clock, alloc, frames, &tracker)? {
            Some(times) => {
                writing = writing.saturating_add(times.writing);
                reading = reading.saturating_add(times.reading);
            }
            None => return Ok(None),
        }
    }
    Ok(Some(Times {
        writing: writing / rounds as u128,
        reading: reading / rounds as u128,
    }))
}

/// The times of a machine of so many frames.
fn measure_machine(
    clock: &impl Clock,
    alloc: Global,
    count: u32,
    marked: u32,
    rounds: u32,
) -> io::Result<Option<Times>>
    requires at_least { MIN_FRAMES ≤ count }
    requires at_most { count ≤ MAX_FRAMES }
    requires marked { marked ≤ count }
    requires rounds { 0 < rounds }
{
    let Ok(mut frames) = Frames::zeroed(alloc, count) else {
        return Err(AllocError.into());
    };
    let times = measure(clock, alloc, &mut frames, marked, rounds);
    frames.end();
    times
}

/// An argument's number, or 0.
fn number(word: Option<String>) -> u32 {
    match word {
        Some(word) => word.as_str().parse::<u32>().unwrap_or(0),
        None => 0,
    }
}

fn main(rt: HostRuntime) -> io::Result<()> {
    let mut words = env::args(&rt)?;
    let _program = words.next();
    let count = number(words.next());
    let marked = number(words.next());
    let rounds = number(words.next());
    if rounds == 0 || count < MIN_FRAMES || count > MAX_FRAMES || marked > count {
        println!(rt; "usage: bitmaps_bench FRAMES MARKED ROUNDS")?;
        return Ok(());
    }
    match measure_machine(&rt, rt.alloc(), count, marked, rounds)? {
        Some(times) => {
            println!(rt;
                "{count} frames, {marked} of them marked: write {} ns, read {} ns",
                times.writing, times.reading
            )
        }
        None => println!(rt; "the chain was not read"),
    }
}
