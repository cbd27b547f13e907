//! A range of a file filled with one byte.

ghost use Rattle.std.specs.Prelude.{◌≡◌, ◌+◌, ◌*◌, ◌/◌, ◌^◌, ◌<◌, ◌≤◌, ℕ, [], Some, true, false, length, max, replicate, option_map, slice_set, MatchOption, vec_len, vec_capacity};
ghost use Rattle.ho_base.specs.declared.limits.TheConstants.{FILE_BYTES};
ghost use Rattle.ho_events.specs.Lists.{pieces, firsts};
ghost use Rattle.ho_events.specs.File.{file_step, filled, overwritten, touched_holes};
ghost use Rattle.ho_events.specs.declared.event.Event.TheVariants.{FileFill};
ghost use Rattle.phys_frames.specs.Memory.{first_frames, with_bytes, written};
ghost use Rattle.file_folios.specs.FileAnswers.{AreFillsOf, more_indexes, wanted_indexes, memory_of, write_answer, written_state, fills_used, fills_left};
ghost use Rattle.file_folios.specs.Slots.{slot_at, is_hole, holes_in, all_bytes, runs_in, AreBlank, AreSlots};
ghost use Rattle.file_folios.specs.Sized.{HoldsBytes, bytes_of, places_of};

use crate::file::FileFolios;
use crate::sized::{piece_of, pieces_of};
use crate::slots::{fill_holes, grow};
use ho_base::limits::FILE_BYTES;
use ho_base::numbers::{Order, Pfn};
use ho_events::reply::Reply;
use phys_frames::{Folio, Home};
use std::snapshot::Snapshot;

impl FileFolios {
    /// Writes the same byte as often as asked for, at an offset: as [`FileFolios::write`] of so many bytes, without a
    /// list of them. It costs the bytes and the indexes that they touch or that are new.
    #[tactic(auto, using(crate::proofs::FillSteps::fill_too_big, crate::proofs::FillSteps::fill_frozen, crate::proofs::FillSteps::fill_no_frames, crate::proofs::FillSteps::fill_done))]
    pub fn fill(
        &mut self,
        off: u32,
        len: u32,
        byte: u8,
        fills: &mut Vec<Folio>,
        runs: &mut Vec<Pfn>,
    ) -> Reply
        requires some { 0 < len }
        requires fills { AreFillsOf self.old.home self.old.state.order fills.old.items }
        requires count { 0 < vec_len fills.old → vec_len fills.old ≡ length (touched_holes self.old.state off len) }
        requires empty { runs.old.items ≡ [] }
        requires runs_room { vec_len fills.old ≤ vec_capacity runs.old }
        requires room { wanted_indexes self.old.state (off + len) ≤ self.old.room }
        ensures answer { result ≡ write_answer self.old.state off len (vec_len fills.old) }
        ensures step { file_step (Some self.old.state) (FileFill off len byte runs.new.items) result ≡ Some (Some self.new.state) }
        ensures used { runs.new.items ≡ first_frames (fills_used result fills.old.items) }
        ensures left { fills.new.items ≡ fills_left result fills.old.items }
        ensures home { self.new.home ≡ self.old.home }
        ensures memory { memory_of self.old ≤ memory_of self.new }
    {
        if off as u64 + len as u64 > FILE_BYTES as u64 {
            return Reply::TooBig;
        }
        if self.is_frozen_below(off + len) {
            return Reply::SizeFrozen;
        }
        let holes = self.holes(off, len);
        if fills.is_empty() && holes > 0 {
            return Reply::NoFramesOf(holes);
        }
        self.fill_and_set(off, len, byte, fills, runs);
        Reply::Ok
    }

    /// Fills the holes that a range touches, and makes its bytes the same.
    fn fill_and_set(
        &mut self,
        off: u32,
        len: u32,
        byte: u8,
        fills: &mut Vec<Folio>,
        runs: &mut Vec<Pfn>,
    )
        requires some { 0 < len }
        requires within { off + len ≤ FILE_BYTES }
        requires fills { AreFillsOf self.old.home self.old.state.order fills.old.items }
        requires count { vec_len fills.old ≡ length (touched_holes self.old.state off len) }
        requires empty { runs.old.items ≡ [] }
        requires runs_room { vec_len fills.old ≤ vec_capacity runs.old }
        requires room { more_indexes self.old.state (off + len) ≤ self.old.room }
        ensures state { self.new.state ≡ written_state self.old.state off (replicate len byte) runs.new.items }
        ensures used_count { length runs.new.items ≡ length (touched_holes self.old.state off len) }
        ensures used { runs.new.items ≡ first_frames fills.old.items }
        ensures left { fills.new.items ≡ [] }
        ensures home { self.new.home ≡ self.old.home }
        ensures memory { memory_of self.old ≤ memory_of self.new }
    {
        let piece = piece_of(self.order);
        overwrite_same(
            &mut self.slots,
            &self.home,
            self.order,
            piece,
            self.size,
            off,
            len,
            byte,
            fills,
            runs,
        );
        self.size = self.size.max(off + len);
    }
}

/// Makes the bytes of a range the same, with folios of zeros for the holes that it touches and indexes up to its end.
fn overwrite_same(
    slots: &mut Vec<Option<Folio>>,
    home: &Snapshot<Home>,
    order: Order,
    piece: u32,
    size: u32,
    off: u32,
    len: u32,
    byte: u8,
    fills: &mut Vec<Folio>,
    runs: &mut Vec<Pfn>,
)
    requires holds { HoldsBytes home.now.value order piece size slots.old.items }
    requires some { 0 < piece }
    requires bytes { 0 < len }
    requires fits { (off + len) + piece < 2 ^ 32 }
    requires size_fits { size + piece < 2 ^ 32 }
    requires room { pieces (max size (off + len)) piece ≤ vec_capacity slots.old }
    requires blank { AreBlank home.now.value order piece fills.old.items }
    requires holes { vec_len fills.old ≡ length (holes_in slots.old.items (places_of piece off len)) }
    requires empty { runs.old.items ≡ [] }
    requires runs_room { vec_len fills.old ≤ vec_capacity runs.old }
    ensures holds { HoldsBytes home.now.value order piece (max size (off + len)) slots.new.items }
    ensures bytes { bytes_of piece (max size (off + len)) slots.new.items ≡ overwritten off (replicate len byte) (bytes_of piece size slots.old.items) }
    ensures runs { runs_in slots.new.items ≡ filled (holes_in slots.old.items (places_of piece off len)) (firsts runs.new.items) (runs_in slots.old.items) }
    ensures used { runs.new.items ≡ first_frames fills.old.items }
    ensures left { fills.new.items ≡ [] }
    ensures capacity { vec_capacity slots.old ≤ vec_capacity slots.new }
{
    let end = off + len;
    let first = off / piece;
    grow(slots, pieces_of(size.max(end), piece));
    fill_holes(
        slots,
        home,
        order,
        piece,
        first,
        pieces_of(end, piece) - first,
        fills,
        runs,
    );
    set_range(slots, home, order, piece, off, len, byte);
}

/// Makes the bytes of a range the same over folios in a row.
fn set_range(
    slots: &mut Vec<Option<Folio>>,
    home: &Snapshot<Home>,
    order: Order,
    piece: u32,
    off: u32,
    len: u32,
    byte: u8,
)
    requires slots { AreSlots home.now.value order piece slots.old.items }
    requires some { 0 < piece }
    requires within { off + len ≤ vec_len slots.old * piece }
    requires fits { off + len < 2 ^ 32 }
    requires there { (i : ℕ) → off / piece ≤ i → i < pieces (off + len) piece → is_hole slots.old.items i ≡ false }
    ensures bytes { all_bytes piece slots.new.items ≡ written (all_bytes piece slots.old.items) off (replicate len byte) }
    ensures runs { runs_in slots.new.items ≡ runs_in slots.old.items }
    ensures slots { AreSlots home.now.value order piece slots.new.items }
    ensures count { vec_len slots.new ≡ vec_len slots.old }
    ensures capacity { vec_capacity slots.new ≡ vec_capacity slots.old }
{
    let mut done = 0;
    while done < len {
        let place = off + done;
        let at = place % piece;
        let part = (piece - at).min(len - done);
        set_at(slots, (place / piece) as usize, at, part, byte);
        done += part;
    }
}

/// Makes bytes of the folio at an index the same, from a byte of it on.
fn set_at(slots: &mut Vec<Option<Folio>>, index: usize, at: u32, count: u32, byte: u8)
    requires within { index < vec_len slots.old }
    requires there { MatchOption (slot_at slots.old.items index) ⊥ (λ f. at + count ≤ length f.bytes) }
    ensures capacity { vec_capacity slots.new ≡ vec_capacity slots.old }
    ensures value { slots.new.items ≡ slice_set slots.old.items index (option_map (λ f. with_bytes f (written f.bytes at (replicate count byte))) (slot_at slots.old.items index)) }
{
    match &mut slots[index] {
        None => unreachable!(),
        Some(folio) => set_part(folio, at as usize, count as usize, byte),
    }
}

/// Makes bytes of a folio the same, from a byte of it on.
#[tactic(auto, using(crate::proofs::FillSteps::replicate_long))]
fn set_part(folio: &mut Folio, at: usize, count: usize, byte: u8)
    requires fits { at + count < 2 ^ 64 }
    requires within { at + count ≤ length folio.old.bytes }
    ensures { folio.new ≡ with_bytes folio.old (written folio.old.bytes at (replicate count byte)) }
{
    set_all(&mut folio.bytes_mut()[at..at + count], byte);
}

/// Makes bytes the same.
fn set_all(bytes: &mut [u8], byte: u8)
    ensures { bytes.new ≡ replicate (length bytes.old) byte }
{
    bytes.fill(byte);
}
