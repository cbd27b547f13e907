//! Folios of single frames, which are taken for the records and brought home.

ghost use Rattle.std.specs.Prelude.{◌≡◌, ◌+◌, ◌≤◌, All, IfErr, IfOk, length};
ghost use Rattle.phys_frames.specs.Memory.{AllHome};
ghost use Rattle.records_bench.specs.Taken.{AreTaken};

use ho_base::numbers::{Order, Pfn};
use phys_frames::{Folio, Frames};
use std::alloc::{AllocError, Global};

/// Takes so many frames, from the frame `first` on.
pub(crate) fn take_folios(
    alloc: Global,
    frames: &mut Frames,
    first: u32,
    count: u32,
) -> Result<Vec<Folio>, AllocError>
    requires home { AllHome frames.old }
    requires room { first + count ≤ length frames.old.pages }
    ensures size { length frames.new.pages ≡ length frames.old.pages }
    ensures taken { IfOk result (λ folios. AreTaken frames.new first folios.items) }
    ensures none { IfErr result (λ e. AllHome frames.new) }
{
    let _all = frames.count();
    let mut folios = Vec::with_capacity(alloc, count as usize)?;
    for i in 0..count {
        folios.push(frames.take(Pfn(first + i), Order(0))).unwrap();
    }
    Ok(folios)
}

/// Brings the folios of the frames from `first` on home.
pub(crate) fn give_folios(first: u32, mut folios: Vec<Folio>, frames: &mut Frames)
    requires { AreTaken frames.old first folios.items }
    ensures home { AllHome frames.new }
    ensures size { length frames.new.pages ≡ length frames.old.pages }
{
    while let Some(folio) = folios.pop() {
        frames.give(folio);
    }
    folios.destroy_empty();
}
