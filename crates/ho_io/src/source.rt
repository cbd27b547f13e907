//! What bytes are read from.

ghost use Rattle.std.specs.Prelude.{◌≡◌, ◌+◌, ◌<◌, ◌≤◌, ℕ, List, [], length, take, Option, IfOk, OnOk, OnErr, is_some, vec_len};
ghost use Rattle.ho_io.specs.Told.{Rose, Tells, in_front};
ghost use Rattle.ho_io.specs.Outcome.{OnFault, IfTooLong};

use ho_base::numbers::Failed;
use std::alloc::Global;

/// The bytes that are asked for at a time.
const BLOCK_BYTES: usize = 4096;

/// Gives bytes in order, until its end.
///
/// Its two meanings are what is left, where it tells that, and a count of faults, which never falls.
pub trait Source {
    /// The bytes that are left, where the source tells them.
    ghost left: { Self → Option (List ℕ) };

    /// How often it has failed. A count of `2^64 - 1` stands still and is read as one that rose.
    ghost faults: { Self → ℕ };

    /// Takes bytes off the front of what is left into the front of `buf`, and gives their number. Zero for a
    /// buffer that isn't empty is the end.
    ///
    /// # Errors
    /// [`Failed`] only where the count of faults rose. Nothing is taken then.
    fn read(&mut self, buf: &mut [u8]) -> Result<usize, Failed>
        ensures bound { IfOk result (λ n. n ≤ length buf.new) }
        ensures taken { IfOk result (λ n. left self.old ≡ in_front (take n buf.new) (left self.new)) }
        ensures end { IfOk result (λ n. n ≡ 0 → 0 < length buf.new → Tells (left self.old) []) }
        ensures kept { OnErr result (left self.new ≡ left self.old) }
        ensures counts { faults self.old ≤ faults self.new }
        ensures cause { OnErr result (Rose (faults self.old) (faults self.new)) };
}

/// Why a source wasn't read to its end.
#[derive(Debug, Drop)]
pub enum ReadError {
    /// The source failed.
    Fault,
    /// There are more bytes than the limit. These were read, one more than the limit.
    TooLong(Vec<u8>),
    /// Memory that was wanted could not be had.
    Memory,
}

/// All bytes that are left, up to the end of the source.
///
/// At most `limit + 1` bytes are read, in blocks of 4096 bytes where so many may still be read.
///
/// # Errors
/// [`ReadError::TooLong`] exactly where `limit + 1` bytes were read; it holds them. [`ReadError::Fault`] only
/// where the source's count of faults rose. [`ReadError::Memory`] for want of memory.
#[tactic(auto, using(crate::proofs::Bytes::in_front_none, crate::proofs::Bytes::in_front_all))]
pub fn read_all<S: Source>(alloc: Global, src: &mut S, limit: u32) -> Result<Vec<u8>, ReadError>
    ensures all { IfOk result (λ bytes. Tells (S.left src.old) bytes.items) }
    ensures taken { IfOk result (λ bytes. S.left src.old ≡ in_front bytes.items (S.left src.new)) }
    ensures end { OnOk result (Tells (S.left src.new) []) }
    ensures within { IfOk result (λ bytes. length bytes.items ≤ limit) }
    ensures too_long { IfTooLong result (λ bytes. length bytes ≡ limit + 1) }
    ensures so_far { IfTooLong result (λ bytes. S.left src.old ≡ in_front bytes (S.left src.new)) }
    ensures cause { OnFault result (Rose (S.faults src.old) (S.faults src.new)) }
    ensures counts { S.faults src.old ≤ S.faults src.new }
    ensures told { is_some (S.left src.new) ≡ is_some (S.left src.old) }
{
    let most = limit as usize + 1;
    let mut bytes = Vec::new(alloc);
    let Ok(mut block) = vec![in alloc; 0u8; BLOCK_BYTES] else {
        return Err(ReadError::Memory);
    };
    while bytes.len() < most {
        let room = BLOCK_BYTES.min(most - bytes.len());
        match read_block(src, &mut block[..room], &mut bytes) {
            Turn::More => {}
            Turn::End => return Ok(bytes),
            Turn::Fault => return Err(ReadError::Fault),
            Turn::Memory => return Err(ReadError::Memory),
        }
    }
    Err(ReadError::TooLong(bytes))
}

// What one read came to.
enum Turn {
    More,
    End,
    Fault,
    Memory,
}

// Puts what one read gives behind `bytes`.
fn read_block<S: Source>(src: &mut S, block: &mut [u8], bytes: &mut Vec<u8>) -> Turn
    requires { 0 < length block.old }
    ensures taken { result ≡ Turn.More → (first : Option (List ℕ)) → first ≡ in_front bytes.old.items (S.left src.old) → first ≡ in_front bytes.new.items (S.left src.new) }
    ensures more { result ≡ Turn.More → vec_len bytes.old < vec_len bytes.new }
    ensures bound { vec_len bytes.new ≤ vec_len bytes.old + length block.old }
    ensures end { result ≡ Turn.End → Tells (S.left src.new) [] }
    ensures still { result ≡ Turn.End → S.left src.new ≡ S.left src.old }
    ensures no_more { result ≡ Turn.End → bytes.new ≡ bytes.old }
    ensures cause { result ≡ Turn.Fault → Rose (S.faults src.old) (S.faults src.new) }
    ensures counts { S.faults src.old ≤ S.faults src.new }
    ensures told { is_some (S.left src.new) ≡ is_some (S.left src.old) }
{
    match src.read(block) {
        Ok(0) => Turn::End,
        Ok(count) => match bytes.extend_from_slice(&block[..count]) {
            Ok(()) => Turn::More,
            Err(_) => Turn::Memory,
        },
        Err(_) => Turn::Fault,
    }
}
