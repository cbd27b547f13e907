//! The pool that files are written into, and its end.

ghost use Rattle.std.specs.Prelude.{◌≡◌, ◌≤◌, IfOk, IfSome, vec_len};
ghost use Rattle.ho_base.specs.declared.limits.TheConstants.{MAX_ORDER};
ghost use Rattle.file_folios.specs.FileAnswers.{AreFillsOf};

use file_folios::FileFolios;
use ho_base::numbers::{Order, Pfn};
use ho_base::shape::{Area, Shape};
use phys_frames::{Folio, Frames};
use pool_core::PoolFrames;
use std::alloc::{AllocError, Global};

/// How many frames the pool has: twice those of the largest file, so that there are runs enough at order 9 too.
const FRAMES: u32 = 8192;

/// How many of them are scratch frames.
const SCRATCH: u32 = 2;

/// A pool that begins cold.
pub(crate) fn cold_pool(alloc: Global) -> Result<PoolFrames, AllocError> {
    let area = Area {
        first: Pfn(1),
        count: SCRATCH,
    };
    let Ok(shape) = Shape::checked(FRAMES, vec![in alloc; area; 1]?) else {
        unreachable!()
    };
    let Ok(frames) = Frames::zeroed(alloc, FRAMES) else {
        return Err(AllocError);
    };
    match PoolFrames::new(alloc, frames, shape) {
        Ok(pool) => Ok(pool),
        Err(frames) => {
            frames.end();
            Err(AllocError)
        }
    }
}

/// A run of zeros for each of so many holes. None where too few are free.
#[tactic(auto, using(crate::proofs::Fills::taken_fill, crate::proofs::Fills::none_fill))]
pub(crate) fn fills_for(
    alloc: Global,
    pool: &mut PoolFrames,
    order: Order,
    holes: u32,
) -> Result<Option<Vec<Folio>>, AllocError>
    requires order { order.0 ≤ MAX_ORDER }
    ensures home { pool.new.home ≡ pool.old.home }
    ensures fills { IfOk result (λ r. IfSome r (λ fills. AreFillsOf pool.old.home order.0 fills.items)) }
    ensures count { IfOk result (λ r. IfSome r (λ fills. vec_len fills ≡ holes)) }
{
    let mut runs = Vec::with_capacity(alloc, holes as usize)?;
    let mut fills = Vec::with_capacity(alloc, holes as usize)?;
    if holes == 0 {
        return Ok(Some(fills));
    }
    if pool.take(order, holes, &mut runs, &mut fills) {
        return Ok(Some(fills));
    }
    fills.destroy_empty();
    Ok(None)
}

/// Brings a file's folios home and gives the memory of all frames back. False where some frame is still out: then their
/// memory stays taken.
pub(crate) fn give_up(file: FileFolios, pool: PoolFrames) -> bool
    requires { file.home ≡ pool.home }
{
    let mut frames = pool.into_frames();
    file.end(&mut frames);
    if frames.all_home() {
        frames.end();
        return true;
    }
    frames.forget();
    false
}
