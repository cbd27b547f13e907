//! Numbers that are in use or free.

ghost use Rattle.std.specs.Prelude.{◌≡◌, ◌<◌, ◌≤◌, IfOk, IfSome, false, true, length, replicate, slice_index_or, slice_set};
ghost use Rattle.registry_core.specs.UsedNumbers.{least_free, used_first};

use ho_base::numbers::NoMemory;
use std::alloc::Global;
use std::marker::Model;

/// The numbers below a limit, each in use or free. Contracts see for each number whether it is in use.
///
/// The least free number is looked for from a bound on, below which each is in use: to take all numbers, one after
/// the other, costs one walk in all.
#[derive(Drop)]
pub struct Numbers {
    used: Vec<bool>,
    bound: usize,
}

impl Model for Numbers {
    ghost use Rattle.std.specs.Prelude.{Bool, List};
    ghost use Rattle.registry_core.specs.UsedNumbers.{AreUsedBelow};

    ghost Value = { List Bool };

    ghost view = { λ n. n.used.items };

    ghost invariant = { λ n. AreUsedBelow n.bound n.used.items };
}

impl Numbers {
    /// As many numbers, each free; no memory where it can't be had.
    pub(crate) fn all_free(alloc: Global, count: usize) -> Result<Numbers, NoMemory>
        ensures { IfOk result (λ n. n ≡ replicate count false) }
    {
        match Vec::from_elem(alloc, false, count) {
            Ok(used) => Ok(Numbers { used, bound: 0 }),
            Err(_) => Err(NoMemory),
        }
    }

    /// As many numbers, of which the first ones are in use and the others free; no memory where it can't be had.
    pub(crate) fn used_first(alloc: Global, used: usize, count: usize) -> Result<Numbers, NoMemory>
        requires { used ≤ count }
        ensures { IfOk result (λ n. n ≡ used_first used count) }
    {
        let Ok(mut flags) = Vec::from_elem(alloc, true, used) else {
            return Err(NoMemory);
        };
        if flags.resize(count, false).is_err() {
            return Err(NoMemory);
        }
        Ok(Numbers {
            used: flags,
            bound: used,
        })
    }

    /// Whether a number is in use.
    pub(crate) fn is_used(&self, number: usize) -> bool
        requires { number < length self.now }
        ensures { result ≡ slice_index_or self.now number false }
    {
        self.used[number]
    }

    /// The least free number; none exactly where each is in use.
    #[tactic(auto, using(crate::proofs::UsedFlags::least_at, crate::proofs::UsedFlags::least_none, crate::proofs::UsedFlags::used_more))]
    pub(crate) fn least(&mut self) -> Option<usize>
        ensures value { result ≡ least_free self.old }
        ensures within { IfSome result (λ number. number < length self.old) }
        ensures same { self.new ≡ self.old }
    {
        for number in self.bound..self.used.len() {
            if !self.used[number] {
                self.bound = number;
                return Some(number);
            }
        }
        self.bound = self.used.len();
        None
    }

    /// Takes a number: it is in use from then on.
    pub(crate) fn take(&mut self, number: usize)
        requires { number < length self.old }
        ensures { self.new ≡ slice_set self.old number true }
    {
        self.used[number] = true;
        if self.bound == number {
            self.bound = number + 1;
        }
    }

    /// Gives a number back: it is free from then on.
    pub(crate) fn give(&mut self, number: usize)
        requires { number < length self.old }
        ensures { self.new ≡ slice_set self.old number false }
    {
        self.used[number] = false;
        self.bound = self.bound.min(number);
    }
}
