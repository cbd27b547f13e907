//! The shape of a machine: its frames and its scratch areas.

ghost use Rattle.std.specs.Prelude.{◌≡◌, ◌≤◌, IfOk, IsTrue, is_ok};
ghost use Rattle.std.specs.List.{list_all};
ghost use Rattle.ho_base.specs.ShapeRule.{area_end, is_area, apart, all_apart, map_fits, is_layout, holds, in_scratch};

use crate::items::Items;
use crate::limits::{MAX_FRAMES, MIN_FRAMES, PAGE_BYTES, SCRATCH_AREAS};
use crate::numbers::{BadShape, Pfn};
use std::marker::Model;

/// A region of frames that holds no handed-over memory and that a new kernel uses alone at first.
#[derive(Clone, Copy, Debug, PartialEq)]
pub struct Area {
    pub first: Pfn,
    pub count: u32,
}

/// A machine's frames and scratch areas, as [`Shape::checked`] gives them.
/// Contracts see the number of frames and the list of areas.
#[derive(Debug, Drop)]
pub struct Shape {
    frames: u32,
    scratch: Items<Area>,
}

impl Model for Shape {
    ghost use Rattle.ho_base.specs.ShapeRule.{Layout, IsLayout};

    ghost Value = { Layout };

    ghost view = { λ s. record { frames = s.frames; scratch = s.scratch } };

    ghost invariant = { λ s. IsLayout s.frames s.scratch };
}

impl Shape {
    /// The shape with this many frames and these scratch areas. It takes no memory.
    ///
    /// [`BadShape`] comes exactly where the frames number fewer than 32 or more than 16,384, the areas
    /// number 0 or more than 4, an area is empty, holds frame 0 or ends past the last frame, two areas
    /// overlap, or area 0 has less than a frame for each 4096 frames of the machine.
    pub fn checked(frames: u32, scratch: Vec<Area>) -> Result<Shape, BadShape>
        ensures legal { is_ok result ≡ is_layout frames scratch.items }
        ensures same { IfOk result (λ s. s ≡ record { frames = frames; scratch = scratch.items }) }
    {
        if is_legal(frames, scratch.as_slice()) {
            Ok(Shape {
                frames,
                scratch: Items::from_vec(scratch),
            })
        } else {
            Err(BadShape)
        }
    }

    /// The number of frames.
    pub fn frames(&self) -> u32
        ensures { result ≡ self.now.frames }
    {
        self.frames
    }

    /// The scratch areas in order.
    pub fn scratch(&self) -> &[Area]
        ensures same { result.now ≡ self.now.scratch }
        ensures legal { IsTrue (is_layout self.now.frames self.now.scratch) }
    {
        self.scratch.as_slice()
    }

    /// Whether a scratch area holds this frame.
    pub fn is_scratch(&self, p: Pfn) -> bool
        ensures { result ≡ in_scratch self.now.scratch p.0 }
    {
        holds_frame(self.scratch.as_slice(), p)
    }
}

/// Whether these are the frames and scratch areas of a shape.
fn is_legal(frames: u32, areas: &[Area]) -> bool
    ensures { result ≡ is_layout frames areas.now }
{
    MIN_FRAMES <= frames
        && frames <= MAX_FRAMES
        && !areas.is_empty()
        && areas.len() <= SCRATCH_AREAS as usize
        && are_within(frames, areas)
        && are_apart(areas)
        && map_has_room(frames, areas)
}

/// The frame behind an area's last one, which may be past every `u32`.
fn end_of(area: &Area) -> u64
    ensures { result ≡ area_end area.now }
{
    u64::from(area.first.0) + u64::from(area.count)
}

/// Whether an area isn't empty, doesn't hold frame 0, and ends within this many frames.
fn is_within(frames: u32, area: &Area) -> bool
    ensures { result ≡ is_area frames area.now }
{
    0 < area.count && 0 < area.first.0 && end_of(area) <= u64::from(frames)
}

/// Whether each area isn't empty, doesn't hold frame 0, and ends within this many frames.
fn are_within(frames: u32, areas: &[Area]) -> bool
    ensures { result ≡ list_all (is_area frames) areas.now }
{
    areas.iter().all(|area| is_within(frames, area))
}

/// Whether two areas share no frame.
fn are_two_apart(one: &Area, other: &Area) -> bool
    ensures { result ≡ apart one.now other.now }
{
    end_of(one) <= u64::from(other.first.0) || end_of(other) <= u64::from(one.first.0)
}

/// Whether an area shares no frame with any of the others.
fn is_apart_from(one: &Area, others: &[Area]) -> bool
    ensures { result ≡ list_all (apart one.now) others.now }
{
    others.iter().all(|other| are_two_apart(one, other))
}

/// Whether no two areas share a frame.
fn are_apart(areas: &[Area]) -> bool
    ensures { result ≡ all_apart areas.now }
{
    match areas.split_first() {
        None => true,
        Some((first, rest)) => is_apart_from(first, rest) && are_apart(rest),
    }
}

/// Whether area 0 has a frame for each 4096 frames, so that a map with a byte per frame fits.
fn map_has_room(frames: u32, areas: &[Area]) -> bool
    requires { frames ≤ MAX_FRAMES }
    ensures { result ≡ map_fits frames areas.now }
{
    match areas.first() {
        None => false,
        Some(area) => frames.div_ceil(PAGE_BYTES) <= area.count,
    }
}

/// Whether one of the areas holds this frame.
fn holds_frame(areas: &[Area], p: Pfn) -> bool
    ensures { result ≡ in_scratch areas.now p.0 }
{
    areas.iter().any(|area| area.first.0 <= p.0 && u64::from(p.0) < end_of(area))
}
