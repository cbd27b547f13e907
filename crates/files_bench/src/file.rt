//! A file over runs of a pool that is written and read back.

ghost use Rattle.std.specs.Prelude.{◌≡◌, ◌+◌, ◌<◌, ◌≤◌, length};
ghost use Rattle.ho_base.specs.declared.limits.TheConstants.{MAX_ORDER, FILE_BYTES};
ghost use Rattle.files_bench.specs.Free.{IsFree};
ghost use Rattle.files_bench.specs.declared.pieces.TheConstants.{MAX_PIECES};

use crate::pieces::{PIECE_BYTES, Times, pattern, piece};
use crate::storage::{cold_pool, fills_for, give_up};
use file_folios::FileFolios;
use ho_base::numbers::Order;
use ho_events::reply::Reply;
use pool_core::PoolFrames;
use std::alloc::{AllocError, Global};
use std::io;
use std::time::{Clock, Instant};

/// Writes bytes at an offset, with a run of the pool for each hole that they touch. False where too few are free.
#[tactic(auto, using(crate::proofs::Writes::is_done, crate::proofs::Writes::none_left, crate::proofs::Writes::stays_free))]
fn put(
    alloc: Global,
    pool: &mut PoolFrames,
    file: &mut FileFolios,
    order: Order,
    off: u32,
    bytes: &[u8],
) -> Result<bool, AllocError>
    requires order { order.0 ≤ MAX_ORDER }
    requires some { 0 < length bytes.now }
    requires within { off + length bytes.now ≤ FILE_BYTES }
    requires home { file.old.home ≡ pool.old.home }
    requires free { IsFree order file.old.state }
    ensures home { file.new.home ≡ pool.new.home }
    ensures free { IsFree order file.new.state }
{
    let len = bytes.len() as u32;
    let wanted = file.wanted_indexes(off, len);
    let Ok(()) = file.reserve(wanted) else {
        return Err(AllocError);
    };
    let holes = file.holes(off, len);
    let mut used = Vec::with_capacity(alloc, holes as usize)?;
    let Some(mut fills) = fills_for(alloc, pool, order, holes)? else {
        return Ok(false);
    };
    let _reply = file.write(off, bytes, &mut fills, &mut used);
    fills.destroy_empty();
    Ok(true)
}

/// Writes so many pieces, one behind the other. False where there are too few frames.
fn write_pieces(
    alloc: Global,
    pool: &mut PoolFrames,
    file: &mut FileFolios,
    order: Order,
    pieces: u32,
    pattern: &[u8; 512],
) -> Result<bool, AllocError>
    requires order { order.0 ≤ MAX_ORDER }
    requires pieces { pieces ≤ MAX_PIECES }
    requires home { file.old.home ≡ pool.old.home }
    requires free { IsFree order file.old.state }
    ensures home { file.new.home ≡ pool.new.home }
{
    for number in 0..pieces {
        let bytes = piece(pattern, number);
        if !put(alloc, pool, file, order, number * PIECE_BYTES, bytes)? {
            return Ok(false);
        }
    }
    Ok(true)
}

/// Reads so many pieces. The number of those that aren't as they were written.
fn read_pieces(
    alloc: Global,
    file: &FileFolios,
    pieces: u32,
    pattern: &[u8; 512],
) -> Result<u32, AllocError>
    requires { pieces ≤ MAX_PIECES }
{
    let mut wrong = 0u32;
    for number in 0..pieces {
        let out = Vec::with_capacity(alloc, PIECE_BYTES as usize)?;
        let right = match file.read(number * PIECE_BYTES, PIECE_BYTES, out) {
            Reply::OkBytes(bytes) => bytes.as_slice() == piece(pattern, number),
            _ => false,
        };
        if !right {
            wrong = wrong.saturating_add(1);
        }
    }
    Ok(wrong)
}

/// The times of a file of so many pieces that has no bytes yet. None where there are too few frames.
fn write_and_read(
    clock: &impl Clock,
    alloc: Global,
    pool: &mut PoolFrames,
    file: &mut FileFolios,
    order: Order,
    pieces: u32,
) -> io::Result<Option<Times>>
    requires order { order.0 ≤ MAX_ORDER }
    requires pieces { pieces ≤ MAX_PIECES }
    requires home { file.old.home ≡ pool.old.home }
    requires free { IsFree order file.old.state }
    ensures home { file.new.home ≡ pool.new.home }
{
    let pattern = pattern();
    let start = Instant::now(clock)?;
    if !write_pieces(alloc, pool, file, order, pieces, &pattern)? {
        return Ok(None);
    }
    let writing = start.elapsed(clock)?.as_nanos();
    let start = Instant::now(clock)?;
    let wrong = read_pieces(alloc, file, pieces, &pattern)?;
    let reading = start.elapsed(clock)?.as_nanos();
    Ok(Some(Times {
        writing,
        reading,
        wrong,
    }))
}

/// The times of a file of an order, of so many pieces. None where there are too few frames, or where not all are home
/// at its end.
pub(crate) fn measure_file(
    clock: &impl Clock,
    alloc: Global,
    order: Order,
    pieces: u32,
) -> io::Result<Option<Times>>
    requires order { order.0 ≤ MAX_ORDER }
    requires pieces { pieces ≤ MAX_PIECES }
{
    let mut pool = cold_pool(alloc)?;
    let home = pool.home();
    let mut file = FileFolios::new(alloc, &home, order);
    let times = write_and_read(clock, alloc, &mut pool, &mut file, order, pieces);
    if give_up(file, pool) { times } else { Ok(None) }
}
