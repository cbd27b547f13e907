//! Writes files in pieces of 256 bytes and reads them back, and prints what a byte costs beside a plain `Vec` of bytes.
#![tactic(auto)]

mod file;
mod pieces;
mod plain;
mod storage;

ghost use Rattle.std.specs.Prelude.{◌≤◌, ◌<◌};
ghost use Rattle.ho_base.specs.declared.limits.TheConstants.{MAX_ORDER};
ghost use Rattle.files_bench.specs.declared.pieces.TheConstants.{MAX_PIECES};

use crate::file::measure_file;
use crate::pieces::{MAX_PIECES, PIECE_BYTES, Times};
use crate::plain::measure_plain;
use ho_base::limits::MAX_ORDER;
use ho_base::numbers::Order;
use std::process::ExitCode;
use std::{env, io};

/// How many pieces the files of the small case have.
const SMALL: u32 = 16_384;

/// How a run of the program came out.
#[derive(Clone, Copy)]
enum Outcome {
    Done,
    Refused,
    Usage,
}

/// Says that a file wasn't written, or that frames were out at its end.
fn refuse(rt: &HostRuntime) -> io::Result<Outcome> {
    println!(rt; "the file was not written, or not all frames came home")?;
    Ok(Outcome::Refused)
}

/// The least times of a file and of a `Vec` of so many pieces, over the rounds. None where a file isn't written, or where
/// frames are out at its end.
fn measure(
    rt: &HostRuntime,
    order: Order,
    pieces: u32,
    rounds: u32,
) -> io::Result<Option<(Times, Times)>>
    requires order { order.0 ≤ MAX_ORDER }
    requires pieces { pieces ≤ MAX_PIECES }
{
    let mut file = Times::most();
    let mut plain = Times::most();
    for _ in 0..rounds {
        match measure_file(rt, rt.alloc(), order, pieces)? {
            Some(times) => file = file.least(times),
            None => return Ok(None),
        }
        plain = plain.least(measure_plain(rt, rt.alloc(), pieces)?);
    }
    Ok(Some((file, plain)))
}

/// Measures files of so many pieces, and prints what a byte costs.
fn print_times(rt: &HostRuntime, order: Order, pieces: u32, rounds: u32) -> io::Result<Outcome>
    requires order { order.0 ≤ MAX_ORDER }
    requires some { 0 < pieces }
    requires pieces { pieces ≤ MAX_PIECES }
{
    let Some((file, plain)) = measure(rt, order, pieces, rounds)? else {
        return refuse(rt);
    };
    let bytes = pieces * PIECE_BYTES;
    println!(rt;
        "{bytes} bytes at order {}: written at {} ps a byte, read at {}; a Vec at {} and {}; {} and {} pieces wrong",
        order.0,
        file.writing_of(bytes),
        file.reading_of(bytes),
        plain.writing_of(bytes),
        plain.reading_of(bytes),
        file.wrong,
        plain.wrong
    )?;
    Ok(Outcome::Done)
}

/// Writes a small file of an order and reads it back, and prints how many pieces were wrong.
fn print_small(rt: &HostRuntime, order: Order) -> io::Result<Outcome>
    requires { order.0 ≤ MAX_ORDER }
{
    let Some((file, plain)) = measure(rt, order, SMALL, 1)? else {
        return refuse(rt);
    };
    println!(rt;
        "{SMALL} pieces at order {}: {} wrong, {} in a Vec",
        order.0, file.wrong, plain.wrong
    )?;
    Ok(Outcome::Done)
}

/// Does the small case at each order that is measured.
fn check(rt: &HostRuntime) -> io::Result<Outcome> {
    for order in [Order(0), Order(4), Order(9)] {
        match print_small(rt, order)? {
            Outcome::Done => {}
            other => return Ok(other),
        }
    }
    Ok(Outcome::Done)
}

/// A word's number. None where it says none.
fn number(word: &String) -> Option<u32> {
    word.as_str().parse::<u32>().ok()
}

/// Does what the words say.
fn run(rt: &HostRuntime, words: &[String]) -> io::Result<Outcome> {
    match words {
        [verb] if verb.as_str() == "check" => check(rt),
        [order, pieces, rounds] => {
            let (Some(order), Some(pieces), Some(rounds)) = (
                number(order),
                number(pieces),
                number(rounds),
            ) else {
                return Ok(Outcome::Usage);
            };
            if order > u32::from(MAX_ORDER) || pieces == 0 || pieces > MAX_PIECES || rounds == 0 {
                return Ok(Outcome::Usage);
            }
            print_times(rt, Order(order as u8), pieces, rounds)
        }
        _ => Ok(Outcome::Usage),
    }
}

fn main(rt: HostRuntime) -> io::Result<ExitCode> {
    let words = env::args(&rt)?.skip(1).collect::<Vec<String>>(rt.alloc())?;
    let code = match run(&rt, words.as_slice())? {
        Outcome::Done => 0,
        Outcome::Refused => 1,
        Outcome::Usage => {
            println!(rt; "usage: files_bench ORDER PIECES ROUNDS | check")?;
            2
        }
    };
    Ok(ExitCode::from(code))
}
