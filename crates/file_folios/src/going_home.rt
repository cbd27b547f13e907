//! Folios on their way home.

ghost use Rattle.std.specs.Prelude.{◌≡◌, ◌<◌, [], None, vec_len, slice_set, MatchOption};
ghost use Rattle.file_folios.specs.Slots.{slot_at, folios_in, slot_list, given_home, with_folios, AreOut, AreSlots};

use crate::slots::pop_holes;
use ho_base::numbers::Order;
use phys_frames::{Folio, Frames, Home};
use std::snapshot::Snapshot;

/// Brings the folio at an index home, where there is one.
fn give_one(slots: &mut Vec<Option<Folio>>, at: usize, frames: &mut Frames)
    requires within { at < vec_len slots.old }
    requires of_home { MatchOption (slot_at slots.old.items at) (Unit {0}) (λ f. f.home ≡ frames.old.home) }
    ensures slots { slots.new.items ≡ slice_set slots.old.items at None }
    ensures frames { frames.new ≡ given_home frames.old (slot_at slots.old.items at) }
    ensures were_out { AreOut frames.old (slot_list (slot_at slots.old.items at)) }
    ensures count { vec_len slots.new ≡ vec_len slots.old }
{
    match slots[at].take() {
        None => {}
        Some(folio) => frames.give(folio),
    }
}

/// Brings all folios home, in rising index.
pub(crate) fn give_all(
    slots: &mut Vec<Option<Folio>>,
    home: &Snapshot<Home>,
    order: Order,
    piece: u32,
    frames: &mut Frames,
)
    requires slots { AreSlots home.now.value order piece slots.old.items }
    requires home { home.now.value ≡ frames.old.home }
    ensures frames { frames.new ≡ with_folios frames.old (folios_in slots.old.items) }
    ensures were_out { AreOut frames.old (folios_in slots.old.items) }
    ensures slots { slots.new.items ≡ [] }
{
    let mut at = 0;
    while at < slots.len() {
        give_one(slots, at, frames);
        at += 1;
    }
    pop_holes(slots, 0);
}
