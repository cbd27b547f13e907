//! The region: a run of places for bytes, of which parts are owned apart from the rest. This is the only file with
//! raw pointers.

ghost use Rattle.std.specs.Prelude.{◌≡◌, ℕ, ◌+◌, ◌<◌, ◌≤◌, ◌^◌, List, Option, IfOk, map, length, take, drop, replicate, get_or, slice_set};
ghost use Rattle.std.specs.Borrow.{sem};
ghost use base.Fml.{ftrue, fsep};
ghost use denote.RawPtr.{Ptr};
ghost use Rattle.std.specs.declared.alloc.Global.{Global};
ghost use Rattle.phys_frames.specs.Homes.{byte_at, Apart};
ghost use Rattle.phys_frames.specs.Places.{here, blank, away, AllHere, IsRun, with_away, with_part};
ghost use Rattle.phys_frames.specs.Ownership.{region_owns, region_lends, key_owns, deed_owns};

use std::alloc::{AllocError, Allocator, Global};
use std::marker::{Model, PhantomData, Send, Sync};
use std::slice;

/// Where a run of places begins. It owns nothing.
#[derive(Clone, Copy)]
pub struct Base {
    ptr: *mut u8,
}

unsafe impl Send for Base {}

unsafe impl Sync for Base {}

/// The owner of a run of places. It has no bytes: who has it has a [`Base`] and the number of places too.
///
/// Contracts see where the run begins, and of each place whether it holds a byte, is blank, or is owned elsewhere.
pub struct Cells {
    mark: PhantomData<*const u8>,
    ghost at: { Ptr },
    ghost slots: { List (Option (Option ℕ)) },
}

impl Model for Cells {
    ghost also_owns = { λ c. region_owns c.at c.slots };

    ghost also_shares = { λ c _ κ. region_lends c.at c.slots κ };
}

unsafe impl Send for Cells {}

unsafe impl Sync for Cells {}

/// The right to give a block of so many places back to the allocator that it came from. It has no bytes. Its key tells
/// it from every other one of that time.
pub struct Deed {
    mark: PhantomData<*const u8>,
    ghost at: { Ptr },
    ghost len: { ℕ },
    ghost alloc: { Global },
    ghost key: { ℕ },
}

impl Model for Deed {
    ghost also_owns = { λ d. fsep (deed_owns d.alloc d.at d.len) (key_owns d.key) };

    ghost also_shares = { λ _ _ _. ftrue };
}

unsafe impl Send for Deed {}

unsafe impl Sync for Deed {}

/// A block of so many blank places. An error where it can't be had.
pub(crate) fn allocate(alloc: &Global, len: usize) -> Result<(Base, Cells, Deed), AllocError>
    requires { len < 2 ^ 63 }
    ensures { IfOk result (λ r. (r.1.at ≡ r.0.ptr) × (r.1.slots ≡ replicate len blank) × (r.2.at ≡ r.0.ptr) × (r.2.len ≡ len) × (r.2.alloc ≡ alloc.now)) }
{
    match alloc.allocate(len, 1) {
        Ok(ptr) => Ok((
            Base { ptr },
            Cells { mark: PhantomData },
            Deed { mark: PhantomData },
        )),
        Err(error) => Err(error),
    }
}

/// Gives a block back. Each place of it holds a byte.
pub(crate) fn deallocate(alloc: &Global, base: Base, len: usize, cells: Cells, deed: Deed)
    requires { (cells.at ≡ base.ptr) × (length cells.slots ≡ len) × AllHere cells.slots × (deed.at ≡ base.ptr) × (deed.len ≡ len) × (deed.alloc ≡ alloc.now) }
{
    let Cells { mark: _ } = cells;
    let Deed { mark: _ } = deed;
    unsafe {
        alloc.deallocate(base.ptr, len, 1);
    }
}

/// Gives places and the right to their block up. The block is never given back.
pub(crate) fn forget(cells: Cells, deed: Deed) {
    let Cells { mark: _ } = cells;
    let Deed { mark: _ } = deed;
}

impl Deed {
    /// Two deeds have different keys. Nothing is done.
    pub(crate) fn differ(&mut self, other: &mut Deed)
        ensures keys { ¬ (self.old.key ≡ other.old.key) }
        ensures same { (self.new ≡ self.old) × (other.new ≡ other.old) }
    {}
}

impl Cells {
    ghost use Rattle.phys_frames.specs.Lends.{lends_run};

    /// Puts a byte into a blank place.
    pub(crate) fn write(&mut self, base: Base, index: usize, byte: u8)
        requires { (base.ptr ≡ self.old.at) × (index < length self.old.slots) × (get_or self.old.slots index away ≡ blank) }
        ensures { (self.new.at ≡ self.old.at) × (self.new.slots ≡ slice_set self.old.slots index (here byte)) }
    {
        unsafe { base.ptr.add(index).write(byte) }
    }

    /// The bytes of the `len` places from `from` on.
    pub(crate) fn slice(&self, base: Base, from: usize, len: usize) -> &[u8]
        requires { (base.ptr ≡ self.now.at) × IsRun self.now.slots from len }
        ensures { take len (drop from self.now.slots) ≡ map here result.now }
    {
        unsafe { slice::from_raw_parts(base.ptr.add(from), len) }
    }

    /// The bytes of the `len` places from `from` on, to be written.
    pub(crate) fn slice_mut(&mut self, base: Base, from: usize, len: usize) -> &mut [u8]
        requires { (base.ptr ≡ self.old.at) × IsRun self.old.slots from len }
        ensures* writes_back { sem 𝓛 (lends_run self.entry from len result) }
        ensures value { take len (drop from self.old.slots) ≡ map here result.now }
    {
        unsafe { slice::from_raw_parts_mut(base.ptr.add(from), len) }
    }

    /// Makes the `len` places from `from` on a part of their own, and says where it begins.
    pub(crate) fn split(&mut self, base: Base, from: usize, len: usize) -> (Base, Cells)
        requires { (base.ptr ≡ self.old.at) × IsRun self.old.slots from len }
        ensures part { (result.0.ptr ≡ byte_at from base.ptr) × (result.1.at ≡ result.0.ptr) × (result.1.slots ≡ take len (drop from self.old.slots)) }
        ensures left { (self.new.at ≡ self.old.at) × (self.new.slots ≡ with_away self.old.slots from len) }
    {
        let ptr = unsafe { base.ptr.add(from) };
        (Base { ptr }, Cells { mark: PhantomData })
    }

    /// Takes a part back that begins at the place `from` and has `len` places. They were owned elsewhere, since the part
    /// owned them.
    pub(crate) fn join(&mut self, part: Cells, from: usize, len: usize)
        requires { (part.at ≡ byte_at from self.old.at) × (length part.slots ≡ len) × AllHere part.slots × (from + len ≤ length self.old.slots) }
        ensures slots { (self.new.at ≡ self.old.at) × (self.new.slots ≡ with_part self.old.slots from len part.slots) }
        ensures were_away { take len (drop from self.old.slots) ≡ replicate len away }
    {
        let Cells { mark: _ } = part;
    }

    /// Two owners of places that hold bytes have no place in common. Nothing is done.
    pub(crate) fn apart(&mut self, other: &mut Cells)
        requires own { AllHere self.old.slots × (0 < length self.old.slots) }
        requires others { AllHere other.old.slots × (0 < length other.old.slots) }
        ensures apart { Apart self.old.at (length self.old.slots) other.old.at (length other.old.slots) }
        ensures same { (self.new ≡ self.old) × (other.new ≡ other.old) }
    {}
}
