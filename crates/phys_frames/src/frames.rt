//! The frames of one machine.

ghost use Rattle.std.specs.Prelude.{◌≡◌, ◌*◌, ◌%◌, ◌≤◌, ◌↔◌, IfOk, IsTrue, Some, length, map, replicate};
ghost use Rattle.std.specs.Borrow.{sem};
ghost use Rattle.phys_frames.specs.Lending.{LendsFrame};
ghost use Rattle.phys_frames.specs.Memory.{frames_in, page_at, run_at, pages_in, zero_page, IsHome, RunHome, RunOut, AllHome, with_folio, without_run};

use crate::cells::{Base, Cells, Deed, allocate, deallocate, forget};
use crate::folio::{Folio, bytes_of, frames_of};
use crate::home::Home;
use ho_base::limits::{MAX_FRAMES, MAX_ORDER, MIN_FRAMES, PAGE_BYTES};
use ho_base::numbers::{NoMemory, Order, Pfn};
use std::alloc::Global;
use std::marker::Model;

/// The frames of one machine: one region of memory with a page of bytes for each. A frame is home, or it is out in a
/// folio.
///
/// Contracts see the list of pages, where a frame that is out has none, and the home. It can't be let go: only
/// [`Frames::end`] gives its memory back.
pub struct Frames {
    base: Base,
    cells: Cells,
    deed: Deed,
    alloc: Global,
    count: u32,
    out: u32,
}

impl Model for Frames {
    ghost use Rattle.std.specs.Prelude.{◌≡◌, ◌*◌, ◌≤◌, length};
    ghost use Rattle.ho_base.specs.declared.limits.TheConstants.{MIN_FRAMES, MAX_FRAMES, PAGE_BYTES};
    ghost use Rattle.phys_frames.specs.Memory.{Memory};
    ghost use Rattle.phys_frames.specs.Pages.{pages_of, count_none};

    ghost Value = { Memory };

    ghost view = { λ f. record { pages = pages_of PAGE_BYTES f.count f.cells.slots; home = record { mark = f.base.ptr; frames = f.count; key = f.deed.key } } };

    ghost invariant = { λ f. (f.cells.at ≡ f.base.ptr) × (f.deed.at ≡ f.base.ptr) × (f.deed.len ≡ f.count * PAGE_BYTES) × (f.deed.alloc ≡ f.alloc) × (length f.cells.slots ≡ f.count * PAGE_BYTES) × (MIN_FRAMES ≤ f.count) × (f.count ≤ MAX_FRAMES) × (f.out ≡ count_none (pages_of PAGE_BYTES f.count f.cells.slots)) };
}

impl Frames {
    /// So many frames, all home and of zeros. No memory where it can't be had. This is the one call that takes
    /// memory: `n` pages in one region.
    pub fn zeroed(alloc: Global, n: u32) -> Result<Frames, NoMemory>
        requires at_least { MIN_FRAMES ≤ n }
        requires at_most { n ≤ MAX_FRAMES }
        ensures pages { IfOk result (λ f. f.pages ≡ replicate n (Some zero_page)) }
        ensures count { IfOk result (λ f. f.home.frames ≡ n) }
    {
        let len = n as usize * PAGE_BYTES as usize;
        match allocate(&alloc, len) {
            Ok((base, cells, deed)) => {
                let mut cells = cells;
                for i in 0..len {
                    cells.write(base, i, 0);
                }
                Ok(Frames {
                    base,
                    cells,
                    deed,
                    alloc,
                    count: n,
                    out: 0,
                })
            }
            Err(_) => Err(NoMemory),
        }
    }

    /// Gives the memory back. All frames are home.
    pub fn end(self)
        requires { AllHome self }
    {
        let Frames {
            base,
            cells,
            deed,
            alloc,
            count,
            out: _,
        } = self;
        let len = count as usize * PAGE_BYTES as usize;
        deallocate(&alloc, base, len, cells, deed);
    }

    /// Gives the frames up where some of them may be out. Their memory is not given back: it stays taken until the
    /// process ends, so a folio that is still out keeps its bytes.
    pub fn forget(self) {
        let Frames {
            base: _,
            cells,
            deed,
            alloc: _,
            count: _,
            out: _,
        } = self;
        forget(cells, deed);
    }

    /// The home of these frames, which they keep.
    pub fn home(&self) -> Home
        ensures { result ≡ self.now.home }
    {
        Home::at(self.base, self.count, &self.deed)
    }

    /// Two that live at once have different homes: so a folio of one is never given to the other. Nothing is done.
    pub fn apart(&mut self, other: &mut Frames)
        ensures homes { ¬ (self.old.home ≡ other.old.home) }
        ensures same { (self.new ≡ self.old) × (other.new ≡ other.old) }
    {
        self.deed.differ(&mut other.deed);
    }

    /// How many frames there are.
    pub fn count(&self) -> u32
        ensures value { result ≡ length self.now.pages }
        ensures home { result ≡ self.now.home.frames }
        ensures at_least { MIN_FRAMES ≤ result }
        ensures at_most { result ≤ MAX_FRAMES }
    {
        self.count
    }

    /// Whether every frame is home.
    pub fn all_home(&self) -> bool
        ensures { IsTrue result ↔ AllHome self.now }
    {
        self.out == 0
    }

    /// The bytes of a frame that is home.
    pub fn page(&self, p: Pfn) -> &[u8]
        requires { IsHome self.now p }
        ensures value { page_at self.now p ≡ Some result.now }
        ensures len { length result.now ≡ PAGE_BYTES }
    {
        let from = p.0 as usize * PAGE_BYTES as usize;
        self.cells.slice(self.base, from, PAGE_BYTES as usize)
    }

    /// The bytes of a frame that is home, to be written. The other frames stay as they are.
    pub fn page_mut(&mut self, p: Pfn) -> &mut [u8]
        requires { IsHome self.old p }
        ensures* writes_back { sem 𝓛 (LendsFrame self.entry p result) }
        ensures value { page_at self.old p ≡ Some result.now }
        ensures len { length result.now ≡ PAGE_BYTES }
    {
        let from = p.0 as usize * PAGE_BYTES as usize;
        self.cells.slice_mut(self.base, from, PAGE_BYTES as usize)
    }

    /// Takes a run of frames that are home, and with it its bytes: they are out from then on. The folio is of these
    /// frames. The other frames stay as they are. No byte is copied.
    pub fn take(&mut self, first: Pfn, order: Order) -> Folio
        requires order { order.0 ≤ MAX_ORDER }
        requires aligned { first.0 % frames_in order ≡ 0 }
        requires home { RunHome self.old first order }
        ensures first { result.first ≡ first }
        ensures order { result.order ≡ order }
        ensures bytes { run_at self.old first order ≡ map Some (pages_in order result.bytes) }
        ensures len { length result.bytes ≡ frames_in order * PAGE_BYTES }
        ensures home { result.home ≡ self.old.home }
        ensures out { self.new ≡ without_run self.old first order }
    {
        let home = self.home();
        let from = first.0 as usize * PAGE_BYTES as usize;
        let (start, cells) = self.cells.split(self.base, from, bytes_of(order));
        self.out += frames_of(order);
        Folio {
            first,
            order,
            base: start,
            cells,
            home,
        }
    }

    /// Brings a folio of these frames home: its frames have its bytes. The other frames stay as they are. It takes no
    /// memory, and no byte is copied.
    ///
    /// Equal homes are all that is asked. That the frames were out follows from them, since nothing is owned twice.
    pub fn give(&mut self, folio: Folio)
        requires { folio.home ≡ self.old.home }
        ensures home { self.new ≡ with_folio self.old folio }
        ensures were_out { RunOut self.old folio.first folio.order }
    {
        let Folio {
            first,
            order,
            base: _,
            cells,
            home: _,
        } = folio;
        let from = first.0 as usize * PAGE_BYTES as usize;
        self.cells.join(cells, from, bytes_of(order));
        self.out -= frames_of(order);
    }
}
