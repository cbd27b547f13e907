//! Takes single frames and gives them back, many times over, and prints what one round costs.
#![tactic(auto)]

ghost use Rattle.std.specs.Prelude.{◌+◌, ◌<◌, ◌≤◌, All, AllPairs, IsTrue, length};
ghost use Rattle.buddy_pages.specs.FreeFrames.{AreApart, none_free};

use buddy_pages::Buddy;
use ho_base::numbers::{Order, Pfn};
use std::alloc::{AllocError, Global};
use std::time::{Clock, Instant};
use std::{env, io};

/// Gives single frames back.
fn give_all(buddy: &mut Buddy, frames: &[Pfn])
    requires within { All (λ p. p.0 + 1 ≤ length buddy.old) frames.now }
    requires later { All (λ p. 0 < p.0) frames.now }
    requires taken { All (λ p. IsTrue (none_free buddy.old p.0 1)) frames.now }
    requires apart { AllPairs (AreApart 0) frames.now }
{
    for frame in frames {
        buddy.give(*frame, Order(0));
    }
}

/// The nanoseconds of a take of `count` frames and of giving them back, on average over the rounds.
/// Before them `held` frames are taken for good. None where there are too few frames.
fn measure(
    clock: &impl Clock,
    alloc: Global,
    frames: u32,
    count: u32,
    held: u32,
    rounds: u32,
) -> io::Result<Option<(u128, u128)>>
    requires { 0 < rounds }
{
    let Ok(mut buddy) = Buddy::new(alloc, frames) else {
        return Err(AllocError.into());
    };
    let mut for_good = Vec::with_capacity(alloc, held as usize)?;
    if !buddy.take(Order(0), held, &mut for_good) {
        return Ok(None);
    }
    let mut taking = 0u128;
    let mut giving = 0u128;
    for _ in 0..rounds {
        let mut out = Vec::with_capacity(alloc, count as usize)?;
        let start = Instant::now(clock)?;
        let taken = buddy.take(Order(0), count, &mut out);
        taking = taking.saturating_add(start.elapsed(clock)?.as_nanos());
        if !taken {
            return Ok(None);
        }
        let start = Instant::now(clock)?;
        give_all(&mut buddy, out.as_slice());
        giving = giving.saturating_add(start.elapsed(clock)?.as_nanos());
    }
    Ok(Some((taking / rounds as u128, giving / rounds as u128)))
}

/// An argument's number, or 0.
fn number(word: Option<String>) -> u32 {
    match word {
        Some(word) => word.as_str().parse::<u32>().unwrap_or(0),
        None => 0,
    }
}

fn main(rt: HostRuntime) -> io::Result<()> {
    let mut words = env::args(&rt)?;
    let _program = words.next();
    let frames = number(words.next());
    let count = number(words.next());
    let held = number(words.next());
    let rounds = number(words.next());
    if rounds == 0 {
        println!(rt; "usage: buddy_bench FRAMES RUNS HELD ROUNDS")?;
        return Ok(());
    }
    match measure(&rt, rt.alloc(), frames, count, held, rounds)? {
        Some((take, give)) => {
            println!(rt;
                "{frames} frames, {held} of them held, {count} a call: take {take} ns, give {give} ns"
            )
        }
        None => println!(rt; "too few frames"),
    }
}
