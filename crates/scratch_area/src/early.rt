//! The early allocator.

ghost use Rattle.std.specs.Prelude.{◌≡◌, ◌↔◌, ◌+◌, ◌≤◌, ◌++◌, IfSome, IsSome, MatchOption};
ghost use Rattle.std.specs.List.{range_with_len};
ghost use Rattle.scratch_area.specs.EarlyFrames.{handed_out, none_taken};

use ho_base::numbers::Pfn;
use ho_base::shape::{Area, Shape};
use std::marker::Model;

/// Hands out the frames of scratch area 0 in rising order, each once. A boot uses it before its page allocator opens,
/// and no frame comes back. It writes no frame and takes no memory.
///
/// Contracts see the area and how many of its frames were handed out.
#[derive(Debug, Drop)]
pub struct EarlyAlloc {
    area: Area,
    taken: u32,
}

impl Model for EarlyAlloc {
    ghost use Rattle.scratch_area.specs.EarlyFrames.{EarlyFrames, IsEarly};

    ghost Value = { EarlyFrames };

    ghost view = { λ e. record { area = e.area; taken = e.taken } };

    ghost invariant = { λ e. IsEarly (record { area = e.area; taken = e.taken }) };
}

impl EarlyAlloc {
    /// All frames of scratch area 0 are left.
    pub fn new(shape: &Shape) -> EarlyAlloc
        ensures { result ≡ none_taken shape.now }
    {
        EarlyAlloc {
            area: shape.scratch()[0],
            taken: 0,
        }
    }

    /// The first of so many frames that follow one another, which are handed out with this: they follow those that were
    /// handed out before. None exactly where the area has fewer left, and then nothing changes.
    pub fn take(&mut self, frames: u32) -> Option<Pfn>
        ensures when { IsSome result ↔ self.old.taken + frames ≤ self.old.area.count }
        ensures first { IfSome result (λ p. p.0 ≡ self.old.area.first.0 + self.old.taken) }
        ensures after { MatchOption result (self.new ≡ self.old) (λ p. self.new ≡ record self.old { taken = self.old.taken + frames }) }
        ensures rising { IfSome result (λ p. handed_out self.new ≡ handed_out self.old ++ range_with_len p.0 frames) }
    {
        if frames > self.area.count - self.taken {
            return None;
        }
        let first = Pfn(self.area.first.0 + self.taken);
        self.taken += frames;
        Some(first)
    }
}
