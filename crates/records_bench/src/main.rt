//! Writes the records of a state and surveys them, many times over, and prints what one writing and one survey cost; or
//! writes the entry frame of a small state into a file.
#![tactic(auto)]

mod checks;
mod folios;
mod room;
mod state;
mod writing;

ghost use Rattle.std.specs.Prelude.{◌≡◌, ◌<◌, ◌≤◌, length};
ghost use Rattle.ho_base.specs.declared.limits.TheConstants.{MAX_FRAMES, MIN_FRAMES, OUT_SLOTS};
ghost use Rattle.phys_frames.specs.Memory.{AllHome};
ghost use Rattle.records_bench.specs.Ready.{IsReady};

use crate::state::Amount;
use crate::writing::{Work, make_work, write_frames};
use ho_base::limits::{MAX_FRAMES, MIN_FRAMES, OUT_SLOTS, PAGE_BYTES};
use ho_base::numbers::Pfn;
use kho_records::{SurveyError, survey};
use phys_frames::Frames;
use std::alloc::{AllocError, Global};
use std::rt::Files;
use std::time::{Clock, Instant};
use std::{env, fs, io};

/// How many frames the scratch area has in the states that are measured.
const SCRATCH: u32 = 64;

/// How many frames the machine of the small state has.
const SMALL_FRAMES: u32 = 64;

/// How many frames the scratch area of the small state has.
const SMALL_SCRATCH: u32 = 8;

/// The small state: a session with a file of five bytes.
const SMALL: Amount = Amount {
    sessions: 1,
    files: 1,
    bytes: 5,
};

/// The nanoseconds of one writing and of one survey.
#[derive(Clone, Copy)]
struct Times {
    writing: u128,
    survey: u128,
}

/// The nanoseconds of surveying frames from their entry frame on. None where they carry no state.
fn survey_frames(
    clock: &impl Clock,
    alloc: Global,
    frames: &Frames,
    entry: u32,
) -> io::Result<Option<u128>>
    requires { AllHome frames.now }
{
    let start = Instant::now(clock)?;
    let result = survey(alloc, frames, u64::from(entry));
    let time = start.elapsed(clock)?.as_nanos();
    match result {
        Ok(_) => Ok(Some(time)),
        Err(SurveyError::Memory) => Err(AllocError.into()),
        Err(SurveyError::BadImage(_)) => Ok(None),
    }
}

/// The nanoseconds of writing a state once and of surveying it. None where it isn't written, or not read.
fn round(
    clock: &impl Clock,
    alloc: Global,
    frames: &mut Frames,
    work: &Work,
) -> io::Result<Option<Times>>
    requires home { AllHome frames.old }
    requires ready { IsReady work.now }
    ensures home { AllHome frames.new }
    ensures count { length frames.new.pages ≡ length frames.old.pages }
{
    let Some(writing) = write_frames(clock, alloc, frames, work)? else {
        return Ok(None);
    };
    let Some(survey) = survey_frames(clock, alloc, frames, work.entry)? else {
        return Ok(None);
    };
    Ok(Some(Times { writing, survey }))
}

/// The nanoseconds of one writing and one survey on average over the rounds. None where the state isn't written, or not
/// read.
fn measure(
    clock: &impl Clock,
    alloc: Global,
    frames: &mut Frames,
    work: &Work,
    rounds: u32,
) -> io::Result<Option<Times>>
    requires home { AllHome frames.old }
    requires ready { IsReady work.now }
    requires rounds { 0 < rounds }
    ensures home { AllHome frames.new }
{
    let mut writing = 0u128;
    let mut survey = 0u128;
    for _ in 0..rounds {
        match round(clock, alloc, frames, work)? {
            Some(times) => {
                writing = writing.saturating_add(times.writing);
                survey = survey.saturating_add(times.survey);
            }
            None => return Ok(None),
        }
    }
    Ok(Some(Times {
        writing: writing / rounds as u128,
        survey: survey / rounds as u128,
    }))
}

/// The times of a state on a machine of so many frames.
fn measure_machine(
    clock: &impl Clock,
    alloc: Global,
    count: u32,
    amount: Amount,
    rounds: u32,
) -> io::Result<Option<Times>>
    requires at_least { MIN_FRAMES ≤ count }
    requires at_most { count ≤ MAX_FRAMES }
    requires sessions { amount.sessions ≤ OUT_SLOTS }
    requires rounds { 0 < rounds }
{
    let Some(work) = make_work(alloc, count, SCRATCH, amount)? else {
        return Ok(None);
    };
    let Ok(mut frames) = Frames::zeroed(alloc, count) else {
        return Err(AllocError.into());
    };
    let times = measure(clock, alloc, &mut frames, &work, rounds);
    frames.end();
    times
}

/// The bytes of the entry frame after a state was written. None where it isn't.
fn entry_of(
    clock: &impl Clock,
    alloc: Global,
    frames: &mut Frames,
    work: &Work,
) -> io::Result<Option<Vec<u8>>>
    requires home { AllHome frames.old }
    requires ready { IsReady work.now }
    ensures home { AllHome frames.new }
{
    if write_frames(clock, alloc, frames, work)?.is_none() || work.entry >= frames.count() {
        return Ok(None);
    }
    Ok(Some(Vec::from_slice(alloc, frames.page(Pfn(work.entry)))?))
}

/// The bytes of the entry frame of the small state, on a machine of so many frames. None where it isn't written.
fn small_entry(clock: &impl Clock, alloc: Global, count: u32) -> io::Result<Option<Vec<u8>>>
    requires at_least { MIN_FRAMES ≤ count }
    requires at_most { count ≤ MAX_FRAMES }
{
    let Some(work) = make_work(alloc, count, SMALL_SCRATCH, SMALL)? else {
        return Ok(None);
    };
    let Ok(mut frames) = Frames::zeroed(alloc, count) else {
        return Err(AllocError.into());
    };
    let entry = entry_of(clock, alloc, &mut frames, &work);
    frames.end();
    entry
}

/// Writes the entry frame of the small state into a file.
fn write_entry<R: Clock + Files + Print + AllocGlobal>(rt: &R, file: &str) -> io::Result<()> {
    match small_entry(rt, rt.alloc(), SMALL_FRAMES)? {
        Some(bytes) => fs::write(rt, file, bytes.as_slice()),
        None => rt.println("the state was not written"),
    }
}

/// A word's number, or 0.
fn number(word: &String) -> u32 {
    word.as_str().parse::<u32>().unwrap_or(0)
}

/// Measures what the words say, and prints it.
fn print_times(rt: &HostRuntime, count: u32, amount: Amount, rounds: u32) -> io::Result<()>
    requires at_least { MIN_FRAMES ≤ count }
    requires at_most { count ≤ MAX_FRAMES }
    requires sessions { amount.sessions ≤ OUT_SLOTS }
    requires rounds { 0 < rounds }
{
    match measure_machine(rt, rt.alloc(), count, amount, rounds)? {
        Some(times) => {
            println!(rt;
                "{count} frames, {} sessions of {} files of {} bytes: write {} ns, survey {} ns",
                amount.sessions, amount.files, amount.bytes, times.writing, times.survey
            )
        }
        None => println!(rt; "the state was not written or not read"),
    }
}

/// Says how the program is called.
fn print_usage(rt: &HostRuntime) -> io::Result<()> {
    println!(rt; "usage: records_bench FRAMES SESSIONS FILES PAGES ROUNDS | entry FILE")
}

fn main(rt: HostRuntime) -> io::Result<()> {
    let words = env::args(&rt)?.skip(1).collect::<Vec<String>>(rt.alloc())?;
    match words.as_slice() {
        [verb, file] if verb.as_str() == "entry" => write_entry(&rt, file.as_str()),
        [frames, sessions, files, pages, rounds] => {
            let count = number(frames);
            let rounds = number(rounds);
            let amount = Amount {
                sessions: number(sessions),
                files: number(files),
                bytes: number(pages).saturating_mul(PAGE_BYTES),
            };
            if rounds == 0
                || count < MIN_FRAMES
                || count > MAX_FRAMES
                || amount.sessions > OUT_SLOTS
            {
                return print_usage(&rt);
            }
            print_times(&rt, count, amount, rounds)
        }
        _ => print_usage(&rt),
    }
}
