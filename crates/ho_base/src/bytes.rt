//! Numbers of 8 bytes in a slice, the lowest byte first.

ghost use Rattle.std.specs.Prelude.{◌≡◌, ◌+◌, ◌≤◌, length};
ghost use Rattle.ho_base.specs.Bytes.{u64_at, with_u64_at};

/// The number that the 8 bytes from `at` on spell, the lowest byte first.
pub fn get_u64(bytes: &[u8], at: usize) -> u64
    requires { at + 8 ≤ length bytes.now }
    ensures { result ≡ u64_at bytes.now at }
{
    let mut eight = [0; 8];
    eight.copy_from_slice(&bytes[at..at + 8]);
    u64::from_le_bytes(eight)
}

/// Replaces the 8 bytes from `at` on by those of a number, the lowest byte first.
#[tactic(auto, using(crate::proofs::Spelled::got_back))]
pub fn put_u64(bytes: &mut [u8], at: usize, value: u64)
    requires { at + 8 ≤ length bytes.old }
    ensures replaced { bytes.new ≡ with_u64_at bytes.old at value }
    ensures spelled { u64_at bytes.new at ≡ value }
{
    bytes[at..at + 8].copy_from_slice(&value.to_le_bytes());
}
