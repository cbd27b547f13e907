//! What tells one machine's frames from another's.

ghost use Rattle.std.specs.Prelude.{◌≡◌};

use crate::cells::{Base, Deed};
use std::marker::Model;
use std::mem::size_of;
use std::snapshot::Snapshot;

/// The home of a [`Frames`](crate::Frames) and of the folios that were taken from it: where its region begins, how many
/// frames it has, and a key that no other `Frames` of that time has. It has no bytes. Contracts compare it: a folio is of
/// these frames where the homes are equal.
#[derive(Drop)]
pub struct Home {
    base: Snapshot<Base>,
    frames: Snapshot<u32>,
    deed: Snapshot<Deed>,
}

impl Model for Home {
    ghost use Rattle.phys_frames.specs.Homes.{HomeId};

    ghost Value = { HomeId };

    ghost view = { λ h. record { mark = h.base.value.ptr; frames = h.frames.value; key = h.deed.value.key } };
}

impl Home {
    /// The home of so many frames, from where their region begins and the right to free it.
    pub(crate) fn at(base: Base, frames: u32, deed: &Deed) -> Home
        ensures { result ≡ record { mark = base.ptr; frames = frames; key = deed.now.key } }
    {
        Home {
            base: Snapshot::of(&base),
            frames: Snapshot::of(&frames),
            deed: Snapshot::of(deed),
        }
    }
}

const _: () = prove!(size_of::<Home>() == 0);
