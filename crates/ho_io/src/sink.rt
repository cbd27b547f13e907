//! What bytes are written to.

ghost use Rattle.std.specs.Prelude.{◌≡◌, ◌<◌, ◌≤◌, ℕ, List, length, take, Option, IfOk, OnOk, OnErr};
ghost use Rattle.ho_io.specs.Told.{Rose, behind};

use ho_base::numbers::Failed;

/// Takes bytes in order.
///
/// Its meanings are its name and what was written, where it tells them, and a count of faults, which never falls.
pub trait Sink {
    /// The bytes that were written so far, where the sink tells them.
    ghost written: { Self → Option (List ℕ) };

    /// The bytes of its name, where the sink tells them.
    ghost name: { Self → Option (List ℕ) };

    /// How often it has failed. A count of `2^64 - 1` stands still and is read as one that rose.
    ghost faults: { Self → ℕ };

    /// Writes bytes off the front of `bytes`, and gives their number. Zero for a piece that isn't empty counts as
    /// a failure.
    ///
    /// # Errors
    /// [`Failed`] only where the count of faults rose. Nothing is written then.
    fn write(&mut self, bytes: &[u8]) -> Result<usize, Failed>
        ensures bound { IfOk result (λ n. n ≤ length bytes.now) }
        ensures appended { IfOk result (λ n. written self.new ≡ behind (written self.old) (take n bytes.now)) }
        ensures kept { OnErr result (written self.new ≡ written self.old) }
        ensures named { name self.new ≡ name self.old }
        ensures counts { faults self.old ≤ faults self.new }
        ensures cause { OnErr result (Rose (faults self.old) (faults self.new)) }
        ensures stuck { IfOk result (λ n. n ≡ 0 → 0 < length bytes.now → Rose (faults self.old) (faults self.new)) };
}

/// Writes all of `bytes`. It takes no memory.
///
/// # Errors
/// [`Failed`] only where the sink's count of faults rose. A part of `bytes` from its front was written then.
#[tactic(auto, using(crate::proofs::Bytes::behind_start, crate::proofs::Bytes::behind_more, crate::proofs::Bytes::behind_whole))]
pub fn write_all<S: Sink>(sink: &mut S, bytes: &[u8]) -> Result<(), Failed>
    ensures all { OnOk result (S.written sink.new ≡ behind (S.written sink.old) bytes.now) }
    ensures part { OnErr result ((n : ℕ) × ((n < length bytes.now) × (S.written sink.new ≡ behind (S.written sink.old) (take n bytes.now)))) }
    ensures named { S.name sink.new ≡ S.name sink.old }
    ensures counts { S.faults sink.old ≤ S.faults sink.new }
    ensures cause { OnErr result (Rose (S.faults sink.old) (S.faults sink.new)) }
{
    let mut done = 0;
    while done < bytes.len() {
        match sink.write(&bytes[done..]) {
            Ok(0) => return Err(Failed),
            Ok(count) => done += count,
            Err(failed) => return Err(failed),
        }
    }
    Ok(())
}
