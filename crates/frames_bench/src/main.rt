//! Makes frames, takes runs of them and gives them back, many times over, and prints what one round costs beside
//! filling as many bytes.
#![tactic(auto)]

ghost use Rattle.std.specs.Prelude.{◌≡◌, ◌*◌, ◌<◌, ◌≤◌, IfOk, length};
ghost use Rattle.ho_base.specs.declared.limits.TheConstants.{MAX_FRAMES, MAX_ORDER, PAGE_BYTES};
ghost use Rattle.phys_frames.specs.Memory.{AllHome};

use ho_base::limits::{MAX_FRAMES, PAGE_BYTES};
use ho_base::numbers::{Order, Pfn};
use phys_frames::Frames;
use std::alloc::{AllocError, Global};
use std::time::{Clock, Instant};
use std::{env, io};

/// The frames of the largest run.
const LARGEST: u32 = 512;

/// Takes the run of an order that begins with frame 0, writes a byte into its first frame, and gives it back.
fn take_and_give(frames: &mut Frames, order: Order, at: usize, byte: u8)
    requires order { order.0 ≤ MAX_ORDER }
    requires place { at < PAGE_BYTES }
    requires home { AllHome frames.old }
    requires count { 512 ≤ length frames.old.pages }
    ensures home { AllHome frames.new }
    ensures count { length frames.new.pages ≡ length frames.old.pages }
{
    let mut run = frames.take(Pfn(0), order);
    run.write(at, &[byte]);
    frames.give(run);
}

/// The nanoseconds of so many takes and gives at an order, with a byte written in each run.
fn moving(clock: &impl Clock, frames: &mut Frames, order: Order, rounds: u32) -> io::Result<u128>
    requires order { order.0 ≤ MAX_ORDER }
    requires home { AllHome frames.old }
    requires count { 512 ≤ length frames.old.pages }
    ensures home { AllHome frames.new }
    ensures count { length frames.new.pages ≡ length frames.old.pages }
{
    let start = Instant::now(clock)?;
    for round in 0..rounds {
        take_and_give(frames, order, (round % 4096) as usize, (round % 256) as u8);
    }
    Ok(start.elapsed(clock)?.as_nanos())
}

/// The nanoseconds of filling as many new bytes as so many frames have.
fn filling(clock: &impl Clock, alloc: Global, count: u32) -> io::Result<u128>
    requires { count ≤ MAX_FRAMES }
{
    let start = Instant::now(clock)?;
    let bytes = vec![in alloc; 0u8; count as usize * PAGE_BYTES as usize]?;
    let took = start.elapsed(clock)?.as_nanos();
    drop(bytes);
    Ok(took)
}

/// So many frames, and the nanoseconds of making them.
fn making(clock: &impl Clock, alloc: Global, count: u32) -> io::Result<(u128, Frames)>
    requires at_least { 512 ≤ count }
    requires at_most { count ≤ MAX_FRAMES }
    ensures home { IfOk result (λ r. AllHome r.1) }
    ensures count { IfOk result (λ r. length r.1.pages ≡ count) }
{
    let start = Instant::now(clock)?;
    let Ok(frames) = Frames::zeroed(alloc, count) else {
        return Err(AllocError.into());
    };
    match start.elapsed(clock) {
        Ok(took) => Ok((took.as_nanos(), frames)),
        Err(error) => {
            frames.end();
            Err(error)
        }
    }
}

/// The least nanoseconds of making so many frames and of filling as many new bytes, over the rounds.
fn measure(clock: &impl Clock, alloc: Global, count: u32, rounds: u32) -> io::Result<(u128, u128)>
    requires at_least { 512 ≤ count }
    requires at_most { count ≤ MAX_FRAMES }
{
    let mut least_making = u128::MAX;
    let mut least_filling = u128::MAX;
    for _ in 0..rounds {
        let (took, frames) = making(clock, alloc, count)?;
        frames.end();
        least_making = least_making.min(took);
        least_filling = least_filling.min(filling(clock, alloc, count)?);
    }
    Ok((least_making, least_filling))
}

/// The nanoseconds of so many takes and gives at order 0 and at order 9.
fn measure_moves(
    clock: &impl Clock,
    alloc: Global,
    count: u32,
    rounds: u32,
) -> io::Result<(u128, u128)>
    requires at_least { 512 ≤ count }
    requires at_most { count ≤ MAX_FRAMES }
{
    let (_, mut frames) = making(clock, alloc, count)?;
    let single = moving(clock, &mut frames, Order(0), rounds);
    let largest = moving(clock, &mut frames, Order(9), rounds);
    frames.end();
    Ok((single?, largest?))
}

/// An argument's number, or 0.
fn number(word: Option<String>) -> u32 {
    match word {
        Some(word) => word.as_str().parse::<u32>().unwrap_or(0),
        None => 0,
    }
}

fn main(rt: HostRuntime) -> io::Result<()> {
    let mut words = env::args(&rt)?;
    let _program = words.next();
    let count = number(words.next());
    let rounds = number(words.next());
    let moves = number(words.next());
    if count < LARGEST || count > MAX_FRAMES || rounds == 0 || moves == 0 {
        println!(rt; "usage: frames_bench FRAMES ROUNDS MOVES")?;
        return Ok(());
    }
    let (making, filling) = measure(&rt, rt.alloc(), count, rounds)?;
    println!(rt; "{count} frames: made in {making} ns, as many bytes filled in {filling} ns")?;
    let (single, largest) = measure_moves(&rt, rt.alloc(), count, moves)?;
    println!(rt; "{moves} takes and gives: {single} ns at order 0, {largest} ns at order 9")
}
