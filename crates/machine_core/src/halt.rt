//! Why a command stops in the middle.

use ho_base::numbers::ObjectNo;

/// Why a command stops in the middle: memory of the host can't be had; the object doesn't meet a condition that a
/// halt of another agent may have broken; or this last stamp is too great to go on.
#[derive(Clone, Copy, Debug, PartialEq)]
pub enum Halt {
    Memory,
    Broken(ObjectNo),
    Late(u64),
}

/// The least last stamp that is too great to go on.
pub const LATE: u64 = 1 << 63;
