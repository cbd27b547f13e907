//! What single runs are, and how folios that no call gives back come home.

ghost use Rattle.std.specs.Prelude.{◌≡◌, ◌≤◌, []};
ghost use Rattle.std.specs.List.{All, list_any};
ghost use Rattle.std.specs.FinSet as finset;
ghost use Rattle.ho_base.specs.declared.limits.TheConstants.{MAX_ORDER};
ghost use Rattle.ho_events.specs.Pool.{frames_of, is_owned, is_owned_run};
ghost use Rattle.pool_core.specs.PoolValues.{PoolIs};

use crate::pool::Pool;
use ho_base::numbers::{Order, Pfn};
use phys_frames::Folio;

impl Pool {
    /// Whether the run is owned at this order.
    pub fn owned(&self, first: Pfn, order: Order) -> bool
        ensures { PoolIs self.now (λ s. result ≡ is_owned_run s order.0 first.0) }
    {
        self.frames.owned(first, order)
    }

    /// Whether an owned run of any order holds the frame. None holds a frame past the last one.
    pub fn is_owned(&self, p: Pfn) -> bool
        ensures { PoolIs self.now (λ s. result ≡ is_owned s p.0) }
    {
        self.frames.is_owned(p)
    }

    /// Whether some frame of the run is pinned. It goes over the run's frames once.
    pub fn pinned(&self, first: Pfn, order: Order) -> bool
        requires { order.0 ≤ MAX_ORDER }
        ensures { PoolIs self.now (λ s. result ≡ list_any (finset.contains s.pinned) (frames_of order.0 first.0)) }
    {
        self.frames.pinned(first, order)
    }

    /// Brings folios of this pool home. What is owned and what is pinned stays as it is, also the runs of these
    /// folios, and so does the history. The list is empty afterwards.
    pub fn lodge(&mut self, folios: &mut Vec<Folio>)
        requires { All (λ f. f.home ≡ self.old.home) folios.old.items }
        ensures pool { self.new ≡ self.old }
        ensures folios { folios.new.items ≡ [] }
    {
        self.frames.lodge(folios);
    }
}
