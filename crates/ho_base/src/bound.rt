//! The bytes that a handler binds to the files of its kind.

ghost use Rattle.std.specs.Prelude.{◌≡◌, ◌==◌, IsTrue};
ghost use Rattle.std.specs.Option.{SomeIff};
ghost use Rattle.std.specs.Cmp.Lexicographic.{pointwise};
ghost use Rattle.std.specs.Cmp.Rules.{comparing};
ghost use Rattle.std.proofs.Common.{rules};

use crate::limits::BOUND_BYTES;
use std::marker::Model;

/// What a handler keeps for all files of its kind: 0 to 64 bytes of any value. Contracts see its bytes.
#[derive(Clone, Copy, Debug)]
pub struct Bound {
    len: u8,
    bytes: [u8; 64],
}

impl Model for Bound {
    ghost use Rattle.std.specs.Prelude.{List, ℕ};

    ghost Value = { List ℕ };

    ghost use Rattle.ho_base.specs.BoundRule.{bound_view, bound_fields, BoundFits};

    ghost view = { bound_view };

    ghost invariant = { BoundFits };

    ghost inverse = { bound_fields };

    ghost inverse_ok = { λ a h. h.same };
}

impl PartialEq for Bound {
    ghost eq = { pointwise ◌==◌ };

    ghost laws = { Prim.search (comparing, rules) };

    fn eq(&self, other: &Bound) -> bool {
        self.as_bytes() == other.as_bytes()
    }
}

impl Bound {
    ghost use Rattle.ho_base.specs.BoundRule.{is_bound};

    /// The bound record of these bytes; none exactly where there are more than [`BOUND_BYTES`].
    pub fn checked(bytes: &[u8]) -> Option<Bound>
        ensures { SomeIff result (IsTrue (is_bound bytes.now)) bytes.now }
    {
        if bytes.len() > BOUND_BYTES as usize {
            return None;
        }
        let mut kept = [0; 64];
        kept[..bytes.len()].copy_from_slice(bytes);
        Some(Bound {
            len: bytes.len() as u8,
            bytes: kept,
        })
    }

    /// The record's bytes, of which there are at most [`BOUND_BYTES`].
    pub fn as_bytes(&self) -> &[u8]
        ensures bytes { result.now ≡ self.now }
        ensures valid { IsTrue (is_bound self.now) }
    {
        &self.bytes[..self.len as usize]
    }
}
