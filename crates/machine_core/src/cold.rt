//! The frames and the pool of a machine that is switched on.

ghost use Rattle.std.specs.Prelude.{◌≡◌, ◌≤◌, [], IfOk};
ghost use Rattle.ho_base.specs.declared.limits.TheConstants.{MAX_FRAMES, MIN_FRAMES};
ghost use Rattle.ho_events.specs.Pool.{cold_pool};

use ho_base::numbers::NoMemory;
use ho_base::shape::Shape;
use phys_frames::Frames;
use pool_core::Pool;
use std::alloc::Global;

/// How many frames a machine of this shape has.
#[tactic(auto, using(crate::proofs::Kernels::layout_least, crate::proofs::Kernels::layout_most))]
fn frames_of(shape: &Shape) -> u32
    ensures value { result ≡ shape.now.frames }
    ensures at_least { MIN_FRAMES ≤ result }
    ensures at_most { result ≤ MAX_FRAMES }
{
    let _areas = shape.scratch();
    shape.frames()
}

/// A pool of frames of zeros that begins cold, with no history.
#[tactic(auto, using(crate::proofs::Kernels::all_home, crate::proofs::Kernels::as_many))]
pub(crate) fn cold_pool(alloc: Global, shape: Shape) -> Result<Pool, NoMemory>
    ensures start { IfOk result (λ p. p.start ≡ cold_pool shape) }
    ensures history { IfOk result (λ p. p.history ≡ []) }
    ensures shape { IfOk result (λ p. p.shape ≡ shape) }
{
    match Frames::zeroed(alloc, frames_of(&shape)) {
        Err(NoMemory) => Err(NoMemory),
        Ok(frames) => match Pool::new(alloc, frames, shape) {
            Ok(pool) => Ok(pool),
            Err(frames) => {
                frames.end();
                Err(NoMemory)
            }
        },
    }
}
