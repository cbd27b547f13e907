//! A plain `Vec` of bytes that is written and read back.

ghost use Rattle.std.specs.Prelude.{◌≤◌};
ghost use Rattle.files_bench.specs.declared.pieces.TheConstants.{MAX_PIECES};

use crate::pieces::{PIECE_BYTES, Times, pattern, piece};
use std::alloc::{AllocError, Global};
use std::io;
use std::time::{Clock, Instant};

/// Writes so many pieces at the end of the bytes.
fn write_pieces(bytes: &mut Vec<u8>, pieces: u32, pattern: &[u8; 512]) -> Result<(), AllocError> {
    for number in 0..pieces {
        bytes.extend_from_slice(piece(pattern, number))?;
    }
    Ok(())
}

/// Reads so many pieces, each into a list of its own. The number of those that aren't as they were written.
fn read_pieces(
    alloc: Global,
    bytes: &[u8],
    pieces: u32,
    pattern: &[u8; 512],
) -> Result<u32, AllocError>
    requires { pieces ≤ MAX_PIECES }
{
    let mut wrong = 0u32;
    for number in 0..pieces {
        let from = (number * PIECE_BYTES) as usize;
        let right = match bytes.get(from..from + PIECE_BYTES as usize) {
            Some(part) => Vec::from_slice(alloc, part)?.as_slice() == piece(pattern, number),
            None => false,
        };
        if !right {
            wrong = wrong.saturating_add(1);
        }
    }
    Ok(wrong)
}

/// The times of a `Vec` of so many pieces. Its memory is taken and written before the clock starts, as that of a pool
/// is.
pub(crate) fn measure_plain(clock: &impl Clock, alloc: Global, pieces: u32) -> io::Result<Times>
    requires { pieces ≤ MAX_PIECES }
{
    let pattern = pattern();
    let mut bytes = vec![in alloc; 0u8; (pieces * PIECE_BYTES) as usize]?;
    bytes.clear();
    let start = Instant::now(clock)?;
    write_pieces(&mut bytes, pieces, &pattern)?;
    let writing = start.elapsed(clock)?.as_nanos();
    let start = Instant::now(clock)?;
    let wrong = read_pieces(alloc, bytes.as_slice(), pieces, &pattern)?;
    let reading = start.elapsed(clock)?.as_nanos();
    Ok(Times {
        writing,
        reading,
        wrong,
    })
}
