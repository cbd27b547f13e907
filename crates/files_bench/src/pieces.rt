//! The pieces that are written and read back, and the times of that.

ghost use Rattle.std.specs.Prelude.{◌≡◌, ◌<◌, length};

use ho_base::limits::FILE_BYTES;

/// How many bytes a piece has.
pub(crate) const PIECE_BYTES: u32 = 256;

/// How many pieces the largest file has.
pub(crate) const MAX_PIECES: u32 = FILE_BYTES / PIECE_BYTES;

/// Two pieces have the same bytes where their numbers differ by a multiple of this. It shares no factor with the pieces
/// of a run, so that runs that follow each other hold different bytes.
const PERIOD: u32 = 251;

/// The bytes of which each piece is a part.
pub(crate) fn pattern() -> [u8; 512] {
    let mut bytes = [0; 512];
    for i in 0..512usize {
        bytes[i] = (i % 256) as u8;
    }
    bytes
}

/// The bytes of the piece with this number.
pub(crate) fn piece(pattern: &[u8; 512], number: u32) -> &[u8]
    ensures { length result.now ≡ 256 }
{
    let from = (number % PERIOD) as usize;
    &pattern[from..from + PIECE_BYTES as usize]
}

/// The nanoseconds of writing all pieces and of reading them, and how many came back wrong.
#[derive(Clone, Copy)]
pub(crate) struct Times {
    pub writing: u128,
    pub reading: u128,
    pub wrong: u32,
}

impl Times {
    /// What is no less than any times.
    pub(crate) fn most() -> Times {
        Times {
            writing: u128::MAX,
            reading: u128::MAX,
            wrong: 0,
        }
    }

    /// The lesser times of two rounds, and the larger number of wrong pieces.
    pub(crate) fn least(self, other: Times) -> Times {
        Times {
            writing: self.writing.min(other.writing),
            reading: self.reading.min(other.reading),
            wrong: self.wrong.max(other.wrong),
        }
    }

    /// The picoseconds of writing a byte, where there are so many.
    pub(crate) fn writing_of(&self, bytes: u32) -> u128
        requires { 0 < bytes }
    {
        self.writing.saturating_mul(1000) / u128::from(bytes)
    }

    /// The picoseconds of reading a byte, where there are so many.
    pub(crate) fn reading_of(&self, bytes: u32) -> u128
        requires { 0 < bytes }
    {
        self.reading.saturating_mul(1000) / u128::from(bytes)
    }
}
