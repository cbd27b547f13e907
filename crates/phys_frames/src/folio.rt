//! Folios: runs of frames that are out.

ghost use Rattle.std.specs.Prelude.{◌≡◌, ◌+◌, ◌*◌, ◌%◌, ◌^◌, ◌<◌, ◌≤◌, length, replicate};
ghost use Rattle.std.specs.Borrow.{sem};
ghost use Rattle.ho_base.specs.declared.limits.TheConstants.{MAX_ORDER, PAGE_BYTES};
ghost use Rattle.phys_frames.specs.Memory.{ShareNoFrame, frames_in, written, with_bytes};
ghost use Rattle.phys_frames.specs.Lending.{LendsFolio};

use crate::cells::{Base, Cells};
use crate::home::Home;
use ho_base::limits::{MAX_ORDER, PAGE_BYTES};
use ho_base::numbers::{Order, Pfn};
use std::marker::Model;

/// How many frames a run of an order has.
pub(crate) fn frames_of(order: Order) -> u32
    requires { order.0 ≤ MAX_ORDER }
    ensures value { result ≡ frames_in order }
    ensures few { result ≤ 512 }
{
    1u32 << order.0
}

/// How many bytes a run of an order has.
pub(crate) fn bytes_of(order: Order) -> usize
    requires { order.0 ≤ MAX_ORDER }
    ensures { result ≡ frames_in order * PAGE_BYTES }
{
    frames_of(order) as usize * PAGE_BYTES as usize
}

/// A run of frames that is out of its [`Frames`](crate::Frames): a part of the region, with its bytes. Only
/// [`Frames::take`](crate::Frames::take) makes one, of frames that are home, and they are out from then on: so
/// no two folios that live at once share a frame. A folio can't be let go: only
/// [`Frames::give`](crate::Frames::give) spends it.
///
/// Contracts see its first frame, its order, its bytes and its home.
pub struct Folio {
    pub(crate) first: Pfn,
    pub(crate) order: Order,
    pub(crate) base: Base,
    pub(crate) cells: Cells,
    pub(crate) home: Home,
}

impl Model for Folio {
    ghost use Rattle.std.specs.Prelude.{◌≡◌, ◌+◌, ◌*◌, ◌%◌, ◌≤◌, length, map};
    ghost use Rattle.ho_base.specs.declared.limits.TheConstants.{MAX_ORDER, PAGE_BYTES};
    ghost use Rattle.phys_frames.specs.Memory.{FolioValue, frames_in};
    ghost use Rattle.phys_frames.specs.Places.{here, heres};
    ghost use Rattle.phys_frames.specs.Homes.{byte_at};

    ghost Value = { FolioValue };

    ghost view = { λ f. record { first = f.first; order = f.order; bytes = heres f.cells.slots; home = f.home } };

    ghost invariant = { λ f. (f.cells.at ≡ f.base.ptr) × (f.base.ptr ≡ byte_at (f.first.0 * PAGE_BYTES) f.home.mark) × (f.cells.slots ≡ map here (heres f.cells.slots)) × (length f.cells.slots ≡ frames_in f.order * PAGE_BYTES) × (f.order.0 ≤ MAX_ORDER) × (f.first.0 + frames_in f.order ≤ f.home.frames) × (f.first.0 % frames_in f.order ≡ 0) };
}

impl Folio {
    /// The first frame. The run is within the folio's home.
    pub fn first(&self) -> Pfn
        ensures value { result ≡ self.now.first }
        ensures in_range { result.0 + frames_in self.now.order ≤ self.now.home.frames }
        ensures aligned { result.0 % frames_in self.now.order ≡ 0 }
    {
        self.first
    }

    /// The order.
    pub fn order(&self) -> Order
        ensures value { result ≡ self.now.order }
        ensures at_most { result.0 ≤ MAX_ORDER }
    {
        self.order
    }

    /// The bytes: a page for each frame of the run.
    pub fn bytes(&self) -> &[u8]
        ensures value { result.now ≡ self.now.bytes }
        ensures len { length result.now ≡ frames_in self.now.order * PAGE_BYTES }
    {
        self.cells.slice(self.base, 0, bytes_of(self.order))
    }

    /// The bytes, to be written. First frame, order and home stay.
    pub fn bytes_mut(&mut self) -> &mut [u8]
        ensures* writes_back { sem 𝓛 (LendsFolio self.entry result) }
        ensures value { result.now ≡ self.old.bytes }
        ensures len { length result.now ≡ frames_in self.old.order * PAGE_BYTES }
    {
        let len = bytes_of(self.order);
        self.cells.slice_mut(self.base, 0, len)
    }

    /// Puts bytes in place of as many from a place on. First frame, order and home stay.
    pub fn write(&mut self, at: usize, bytes: &[u8])
        requires { at + length bytes.now ≤ length self.old.bytes }
        ensures { self.new ≡ with_bytes self.old (written self.old.bytes at bytes.now) }
    {
        let len = bytes.len();
        self.bytes_mut()[at..at + len].copy_from_slice(bytes);
    }

    /// Makes all bytes zero. First frame, order and home stay.
    pub fn zero(&mut self)
        ensures { self.new ≡ with_bytes self.old (replicate (length self.old.bytes) 0) }
    {
        self.bytes_mut().fill(0);
    }

    /// Two folios of the same frames that live at once share no frame. Nothing is done.
    pub fn apart(&mut self, other: &mut Folio)
        requires { other.old.home ≡ self.old.home }
        ensures apart { ShareNoFrame self.old other.old }
        ensures same { (self.new ≡ self.old) × (other.new ≡ other.old) }
    {
        self.cells.apart(&mut other.cells);
    }
}
