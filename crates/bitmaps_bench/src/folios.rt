//! Folios of single frames, which are taken for a chain and brought home.

ghost use Rattle.std.specs.Prelude.{◌≡◌, ◌+◌, ◌<◌, All, IfErr, IfOk, length};
ghost use Rattle.phys_frames.specs.Memory.{AllHome};
ghost use Rattle.bitmaps_bench.specs.Taken.{AreTaken};

use ho_base::numbers::{Order, Pfn};
use phys_frames::{Folio, Frames};
use std::alloc::{AllocError, Global};

/// Takes so many frames, from frame 1 on.
pub(crate) fn take_folios(
    alloc: Global,
    frames: &mut Frames,
    count: u32,
) -> Result<Vec<Folio>, AllocError>
    requires home { AllHome frames.old }
    requires count { count < length frames.old.pages }
    ensures size { length frames.new.pages ≡ length frames.old.pages }
    ensures taken { IfOk result (λ folios. AreTaken frames.new folios.items) }
    ensures count { IfOk result (λ folios. length folios.items ≡ count) }
    ensures orders { IfOk result (λ folios. All (λ f. f.order.0 ≡ 0) folios.items) }
    ensures none { IfErr result (λ e. AllHome frames.new) }
{
    let mut folios = Vec::with_capacity(alloc, count as usize)?;
    for i in 0..count {
        folios.push(frames.take(Pfn(1 + i), Order(0))).unwrap();
    }
    Ok(folios)
}

/// Brings the folios home.
pub(crate) fn give_folios(mut folios: Vec<Folio>, frames: &mut Frames)
    requires { AreTaken frames.old folios.items }
    ensures home { AllHome frames.new }
    ensures size { length frames.new.pages ≡ length frames.old.pages }
{
    while let Some(folio) = folios.pop() {
        frames.give(folio);
    }
    folios.destroy_empty();
}
