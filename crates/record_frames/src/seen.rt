//! Which record frames were read.

ghost use Rattle.std.specs.Prelude.{◌≡◌, ◌<◌, ◌≤◌, ◌++◌, ◌∷◌, [], IfOk, nat_eq};
ghost use Rattle.std.specs.List.{list_any};
ghost use Rattle.ho_events.specs.Lists.{firsts};

use ho_base::limits::MAX_FRAMES;
use ho_base::numbers::Pfn;
use std::alloc::{AllocError, Global};
use std::marker::Model;

/// The record frames that were read, in reading order, with a flag for each frame of the machine.
#[derive(Debug, Drop)]
pub struct Seen {
    flags: Vec<bool>,
    numbers: Vec<Pfn>,
}

impl Model for Seen {
    ghost use Rattle.record_frames.specs.Seen.{SeenValue, seen_view, KeepsFlags};

    ghost Value = { SeenValue };

    ghost view = { seen_view };

    ghost invariant = { KeepsFlags };
}

impl Seen {
    /// None of `count` frames was read. `Err`: out of memory.
    pub fn none(alloc: Global, count: u32) -> Result<Seen, AllocError>
        requires { count ≤ MAX_FRAMES }
        ensures { IfOk result (λ s. s ≡ record { count = count; numbers = [] }) }
    {
        let flags = vec![in alloc; false; count as usize]?;
        Ok(Seen {
            flags,
            numbers: Vec::new(alloc),
        })
    }

    /// Whether frame `p` was read; `p` is below the number of frames.
    pub fn has(&self, p: u64) -> bool
        requires { p < self.now.count }
        ensures { result ≡ list_any (nat_eq p) self.now.numbers }
    {
        self.flags[p as usize]
    }

    /// Notes that frame `p` was read; `p` is below the number of frames. `Err`: out of memory.
    pub fn push(&mut self, p: u64) -> Result<(), AllocError>
        requires { p < self.old.count }
        ensures count { self.new.count ≡ self.old.count }
        ensures numbers { IfOk result (λ _. self.new.numbers ≡ self.old.numbers ++ p ∷ []) }
    {
        self.numbers.push(Pfn(p as u32))?;
        self.flags[p as usize] = true;
        Ok(())
    }

    /// The numbers of the frames that were read, in reading order.
    pub fn into_numbers(self) -> Vec<Pfn>
        ensures { firsts result.items ≡ self.numbers }
    {
        let Seen { numbers, .. } = self;
        numbers
    }
}
