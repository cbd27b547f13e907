//! The indexes of a file: at each a folio, or nothing.

ghost use Rattle.std.specs.Prelude.{◌≡◌, ◌+◌, ◌*◌, ◌^◌, ◌/◌, ◌<◌, ◌≤◌, ℕ, Some, true, false, length, ◌-◌, ◌++◌, ◌∷◌, [], None, option_map, is_some, vec_len, vec_capacity, slice_set, MatchOption, take, drop, replicate, reverse};
ghost use Rattle.std.specs.FinMap as finmap;
ghost use Rattle.ho_events.specs.Lists.{pieces};
ghost use Rattle.ho_events.specs.Lists.{firsts};
ghost use Rattle.ho_events.specs.File.{filled};
ghost use Rattle.phys_frames.specs.Memory.{with_bytes, written, first_frames};
ghost use Rattle.file_folios.specs.Slots.{places, slot_at, is_hole, holes_in, runs_in, all_bytes, slot_bytes, after_fill, folios_in, slot_list, AreSlots, AreBlank};

use ho_base::numbers::{Order, Pfn};
use phys_frames::{Folio, Home};
use std::snapshot::Snapshot;

/// The first frame of the folio at an index; none where there is none.
#[tactic(auto, using(crate::proofs::SlotRuns::run_get, crate::proofs::SlotRuns::none_past))]
pub(crate) fn run_at(slots: &[Option<Folio>], index: u32) -> Option<Pfn>
    ensures { option_map (λ p. p.0) result ≡ finmap.get (runs_in slots.now) index }
{
    if index as usize >= slots.len() {
        return None;
    }
    match &slots[index as usize] {
        None => None,
        Some(folio) => Some(folio.first()),
    }
}

/// Whether there is no folio at an index.
#[tactic(auto, using(crate::proofs::SlotRuns::none_past))]
pub(crate) fn is_hole_at(slots: &[Option<Folio>], index: u32) -> bool
    ensures { result ≡ is_hole slots.now index }
{
    if index as usize >= slots.len() {
        return true;
    }
    slots[index as usize].is_none()
}

/// How many of some indexes in a row have no folio.
#[tactic(auto, using(crate::proofs::Places::next_is_hole, crate::proofs::Places::next_is_folio, crate::proofs::Places::no_holes))]
pub(crate) fn count_holes(slots: &[Option<Folio>], from: u32, count: u32) -> u32
    requires { from + count < 2 ^ 32 }
    ensures { result ≡ length (holes_in slots.now (places from count)) }
{
    let mut holes = 0;
    let mut at = from;
    let mut left = count;
    while left > 0 {
        if is_hole_at(slots, at) {
            holes += 1;
        }
        at += 1;
        left -= 1;
    }
    holes
}

/// Puts bytes into the folio at an index, from a byte of it on.
fn put(slots: &mut Vec<Option<Folio>>, index: usize, at: usize, bytes: &[u8])
    requires within { index < vec_len slots.old }
    requires there { MatchOption (slot_at slots.old.items index) ⊥ (λ f. at + length bytes.now ≤ length f.bytes) }
    ensures capacity { vec_capacity slots.new ≡ vec_capacity slots.old }
    ensures value { slots.new.items ≡ slice_set slots.old.items index (option_map (λ f. with_bytes f (written f.bytes at bytes.now)) (slot_at slots.old.items index)) }
{
    match &mut slots[index] {
        None => unreachable!(),
        Some(folio) => folio.write(at, bytes),
    }
}

/// Writes bytes over folios in a row, from a byte of all on.
pub(crate) fn write_range(
    slots: &mut Vec<Option<Folio>>,
    home: &Snapshot<Home>,
    order: Order,
    piece: u32,
    off: u32,
    bytes: &[u8],
)
    requires slots { AreSlots home.now.value order piece slots.old.items }
    requires some { 0 < piece }
    requires within { off + length bytes.now ≤ vec_len slots.old * piece }
    requires there { (i : ℕ) → off / piece ≤ i → i < pieces (off + length bytes.now) piece → is_hole slots.old.items i ≡ false }
    ensures bytes { all_bytes piece slots.new.items ≡ written (all_bytes piece slots.old.items) off bytes.now }
    ensures runs { runs_in slots.new.items ≡ runs_in slots.old.items }
    ensures slots { AreSlots home.now.value order piece slots.new.items }
    ensures count { vec_len slots.new ≡ vec_len slots.old }
    ensures capacity { vec_capacity slots.new ≡ vec_capacity slots.old }
{
    let len = bytes.len();
    let mut done = 0;
    while done < len {
        let place = off as usize + done;
        let at = place % piece as usize;
        let part = (piece as usize - at).min(len - done);
        put(slots, place / piece as usize, at, &bytes[done..done + part]);
        done += part;
    }
}

/// Adds indexes without a folio, so that there are this many.
#[tactic(auto, using(crate::proofs::Lists::one_more, crate::proofs::Lists::as_many))]
pub(crate) fn grow(slots: &mut Vec<Option<Folio>>, count: u32)
    requires room { count ≤ vec_capacity slots.old }
    ensures items { slots.new.items ≡ slots.old.items ++ replicate (count - vec_len slots.old) None }
    ensures count { vec_len slots.new ≡ vec_len slots.old + (count - vec_len slots.old) }
    ensures capacity { vec_capacity slots.old ≤ vec_capacity slots.new }
{
    while slots.len() < count as usize {
        slots.push(None).unwrap();
    }
}

/// Turns a list round.
fn turn_round(folios: &mut Vec<Folio>)
    ensures { folios.new.items ≡ reverse folios.old.items }
{
    folios.as_mut_slice().reverse();
}

/// Puts the last folio into an empty place.
fn fill_one(slots: &mut Vec<Option<Folio>>, at: u32, fills: &mut Vec<Folio>, runs: &mut Vec<Pfn>)
    requires within { at < vec_len slots.old }
    requires hole { is_hole slots.old.items at ≡ true }
    requires some { 0 < vec_len fills.old }
    requires room { vec_len runs.old + vec_len fills.old ≤ vec_capacity runs.old }
    ensures slots { slots.new.items ≡ after_fill slots.old.items at (reverse fills.old.items) }
    ensures fills { reverse fills.new.items ≡ drop 1 (reverse fills.old.items) }
    ensures runs { runs.new.items ≡ runs.old.items ++ take 1 (first_frames (reverse fills.old.items)) }
    ensures room { vec_len runs.new + vec_len fills.new ≤ vec_capacity runs.new }
    ensures capacity { vec_capacity slots.new ≡ vec_capacity slots.old }
    ensures count { vec_len slots.new ≡ vec_len slots.old }
{
    let folio = fills.pop().unwrap();
    runs.push(folio.first()).unwrap();
    put_in(slots, at, folio);
}

/// Puts a folio into an empty place.
fn put_in(slots: &mut Vec<Option<Folio>>, at: u32, folio: Folio)
    requires within { at < vec_len slots.old }
    requires hole { is_hole slots.old.items at ≡ true }
    ensures slots { slots.new.items ≡ slice_set slots.old.items at (Some folio) }
    ensures capacity { vec_capacity slots.new ≡ vec_capacity slots.old }
    ensures count { vec_len slots.new ≡ vec_len slots.old }
{
    match slots[at as usize].replace(folio) {
        None => {}
        Some(_folio) => unreachable!(),
    }
}

/// Puts one folio of zeros into each hole among some indexes in a row, in rising index, and reports the frames at which
/// they begin.
pub(crate) fn fill_holes(
    slots: &mut Vec<Option<Folio>>,
    home: &Snapshot<Home>,
    order: Order,
    piece: u32,
    from: u32,
    count: u32,
    fills: &mut Vec<Folio>,
    runs: &mut Vec<Pfn>,
)
    requires slots { AreSlots home.now.value order piece slots.old.items }
    requires within { from + count ≤ vec_len slots.old }
    requires fits { from + count < 2 ^ 32 }
    requires blank { AreBlank home.now.value order piece fills.old.items }
    requires holes { vec_len fills.old ≡ length (holes_in slots.old.items (places from count)) }
    requires empty { runs.old.items ≡ [] }
    requires room { vec_len fills.old ≤ vec_capacity runs.old }
    ensures bytes { all_bytes piece slots.new.items ≡ all_bytes piece slots.old.items }
    ensures runs { runs_in slots.new.items ≡ filled (holes_in slots.old.items (places from count)) (firsts runs.new.items) (runs_in slots.old.items) }
    ensures used { runs.new.items ≡ first_frames fills.old.items }
    ensures left { fills.new.items ≡ [] }
    ensures slots { AreSlots home.now.value order piece slots.new.items }
    ensures there { (i : ℕ) → from ≤ i → i < from + count → is_hole slots.new.items i ≡ false }
    ensures count { vec_len slots.new ≡ vec_len slots.old }
    ensures capacity { vec_capacity slots.new ≡ vec_capacity slots.old }
{
    turn_round(fills);
    let mut at = from;
    let mut left = count;
    while left > 0 {
        if is_hole_at(slots.as_slice(), at) {
            fill_one(slots, at, fills, runs);
        }
        at += 1;
        left -= 1;
    }
}

/// Adds zeros to a list that has room for them.
fn push_zeros(out: &mut Vec<u8>, count: usize)
    requires { vec_len out.old + count ≤ vec_capacity out.old }
    ensures items { out.new.items ≡ out.old.items ++ replicate count 0 }
    ensures len { vec_len out.new ≡ vec_len out.old + count }
    ensures capacity { vec_capacity out.old ≤ vec_capacity out.new }
{
    let len = out.len();
    out.resize(len + count, 0).unwrap();
}

/// Adds some bytes of an index to a list that has room for them.
fn read_part(slot: &Option<Folio>, piece: u32, at: usize, part: usize, out: &mut Vec<u8>)
    requires long { MatchOption slot.now (at + part ≤ piece) (λ f. at + part ≤ length f.bytes) }
    requires room { vec_len out.old + part ≤ vec_capacity out.old }
    ensures items { out.new.items ≡ out.old.items ++ take part (drop at (slot_bytes piece slot.now)) }
    ensures len { vec_len out.new ≡ vec_len out.old + part }
    ensures capacity { vec_capacity out.old ≤ vec_capacity out.new }
{
    match slot {
        None => push_zeros(out, part),
        Some(folio) => out
            .extend_from_slice(&folio.bytes()[at..at + part])
            .unwrap(),
    }
}

/// Adds a range of all bytes to a list that has room for it.
pub(crate) fn read_range(
    slots: &[Option<Folio>],
    home: &Snapshot<Home>,
    order: Order,
    piece: u32,
    off: u32,
    len: u32,
    out: &mut Vec<u8>,
)
    requires slots { AreSlots home.now.value order piece slots.now }
    requires some { 0 < piece }
    requires within { off + len ≤ length slots.now * piece }
    requires room { vec_len out.old + len ≤ vec_capacity out.old }
    ensures items { out.new.items ≡ out.old.items ++ take len (drop off (all_bytes piece slots.now)) }
{
    let mut done = 0;
    while done < len {
        let place = off as u64 + done as u64;
        let at = (place % piece as u64) as u32;
        let part = (piece - at).min(len - done);
        read_part(
            &slots[(place / piece as u64) as usize],
            piece,
            at as usize,
            part as usize,
            out,
        );
        done += part;
    }
}

/// Takes the folio at an index out, where there is one, and reports the frame at which it begins.
fn take_one(slots: &mut Vec<Option<Folio>>, at: usize, runs: &mut Vec<Pfn>, given: &mut Vec<Folio>)
    requires within { at < vec_len slots.old }
    requires runs_room { vec_len runs.old + length (slot_list (slot_at slots.old.items at)) ≤ vec_capacity runs.old }
    requires given_room { vec_len given.old + length (slot_list (slot_at slots.old.items at)) ≤ vec_capacity given.old }
    ensures slots { slots.new.items ≡ slice_set slots.old.items at None }
    ensures runs { runs.new.items ≡ runs.old.items ++ first_frames (slot_list (slot_at slots.old.items at)) }
    ensures given { given.new.items ≡ given.old.items ++ slot_list (slot_at slots.old.items at) }
    ensures runs_len { vec_len runs.new ≡ vec_len runs.old + length (slot_list (slot_at slots.old.items at)) }
    ensures given_len { vec_len given.new ≡ vec_len given.old + length (slot_list (slot_at slots.old.items at)) }
    ensures runs_left { vec_capacity runs.old ≤ vec_capacity runs.new }
    ensures given_left { vec_capacity given.old ≤ vec_capacity given.new }
    ensures count { vec_len slots.new ≡ vec_len slots.old }
    ensures capacity { vec_capacity slots.new ≡ vec_capacity slots.old }
{
    match slots[at].take() {
        None => {}
        Some(folio) => {
            runs.push(folio.first()).unwrap();
            given.push(folio).unwrap();
        }
    }
}

/// Takes the folios from an index on out, and reports the frames at which they begin.
fn take_out(
    slots: &mut Vec<Option<Folio>>,
    from: usize,
    runs: &mut Vec<Pfn>,
    given: &mut Vec<Folio>,
)
    requires within { from ≤ vec_len slots.old }
    requires runs_room { vec_len runs.old + length (folios_in (drop from slots.old.items)) ≤ vec_capacity runs.old }
    requires given_room { vec_len given.old + length (folios_in (drop from slots.old.items)) ≤ vec_capacity given.old }
    ensures slots { slots.new.items ≡ take from slots.old.items ++ replicate (vec_len slots.old - from) None }
    ensures runs { runs.new.items ≡ runs.old.items ++ first_frames (folios_in (drop from slots.old.items)) }
    ensures given { given.new.items ≡ given.old.items ++ folios_in (drop from slots.old.items) }
    ensures count { vec_len slots.new ≡ vec_len slots.old }
    ensures capacity { vec_capacity slots.new ≡ vec_capacity slots.old }
{
    let mut at = from;
    while at < slots.len() {
        take_one(slots, at, runs, given);
        at += 1;
    }
}

/// Lets an empty place go.
fn let_go(slot: Option<Option<Folio>>)
    requires { MatchOption slot (Unit {0}) (λ s. s ≡ None) }
{
    match slot {
        None => {}
        Some(place) => match place {
            None => {}
            Some(_folio) => unreachable!(),
        },
    }
}

/// Takes empty places from the end, so that this many are left.
pub(crate) fn pop_holes(slots: &mut Vec<Option<Folio>>, count: usize)
    requires within { count ≤ vec_len slots.old }
    requires holes { drop count slots.old.items ≡ replicate (vec_len slots.old - count) None }
    ensures slots { slots.new.items ≡ take count slots.old.items }
    ensures capacity { vec_capacity slots.new ≡ vec_capacity slots.old }
{
    while slots.len() > count {
        let_go(slots.pop());
    }
}

/// Takes the indexes from a number on away, with their folios in rising index, and reports the frames at which these begin.
pub(crate) fn cut(
    slots: &mut Vec<Option<Folio>>,
    count: usize,
    runs: &mut Vec<Pfn>,
    given: &mut Vec<Folio>,
)
    requires within { count ≤ vec_len slots.old }
    requires runs_room { vec_len runs.old + length (folios_in (drop count slots.old.items)) ≤ vec_capacity runs.old }
    requires given_room { vec_len given.old + length (folios_in (drop count slots.old.items)) ≤ vec_capacity given.old }
    ensures slots { slots.new.items ≡ take count slots.old.items }
    ensures runs { runs.new.items ≡ runs.old.items ++ first_frames (folios_in (drop count slots.old.items)) }
    ensures given { given.new.items ≡ given.old.items ++ folios_in (drop count slots.old.items) }
    ensures capacity { vec_capacity slots.new ≡ vec_capacity slots.old }
{
    take_out(slots, count, runs, given);
    pop_holes(slots, count);
}

/// Adds the first frames of all folios to a list that has room for them, in rising index.
pub(crate) fn add_runs(slots: &[Option<Folio>], runs: &mut Vec<Pfn>)
    requires { vec_len runs.old + length (folios_in slots.now) ≤ vec_capacity runs.old }
    ensures { runs.new.items ≡ runs.old.items ++ first_frames (folios_in slots.now) }
{
    let mut at = 0;
    while at < slots.len() {
        add_run(&slots[at], runs);
        at += 1;
    }
}

/// Adds the first frame of a folio, where there is one, to a list that has room for it.
fn add_run(slot: &Option<Folio>, runs: &mut Vec<Pfn>)
    requires { vec_len runs.old + length (slot_list slot.now) ≤ vec_capacity runs.old }
    ensures items { runs.new.items ≡ runs.old.items ++ first_frames (slot_list slot.now) }
    ensures len { vec_len runs.new ≡ vec_len runs.old + length (slot_list slot.now) }
    ensures capacity { vec_capacity runs.old ≤ vec_capacity runs.new }
{
    match slot {
        None => {}
        Some(folio) => runs.push(folio.first()).unwrap(),
    }
}
