//! A pool that begins with runs that an earlier kernel handed over.

ghost use Rattle.std.specs.Prelude.{◌≡◌, ◌+◌, ◌≤◌, ◌++◌, [], IfOk, IfErr, length, map};
ghost use Rattle.std.specs.Vec.{vec_len, vec_capacity};
ghost use Rattle.phys_frames.specs.Memory.{AllHome};
ghost use Rattle.pool_core.specs.PoolAdopting.{CanAdopt, adopted_pool, adopted_run};

use crate::frames::PoolFrames;
use crate::pool::Pool;
use ho_base::numbers::{Order, Pfn};
use ho_base::shape::Shape;
use phys_frames::{Folio, Frames};
use std::alloc::Global;

impl Pool {
    /// A pool with no history that begins with these runs, of any orders: they are owned, and nothing is pinned. Their
    /// folios are put at the end of the list, with the bytes that they had. It takes memory for two numbers and the
    /// marks of each frame; where that can't be had the frames come back, and they and the list are as they were.
    pub fn adopt(
        alloc: Global,
        frames: Frames,
        shape: Shape,
        runs: &[(Pfn, Order)],
        out: &mut Vec<Folio>,
    ) -> Result<Pool, Frames>
        requires home { AllHome frames }
        requires count { shape.frames ≡ length frames.pages }
        requires free { CanAdopt shape runs.now }
        requires spare { vec_len out.old + length runs.now ≤ vec_capacity out.old }
        ensures start { IfOk result (λ p. p.start ≡ adopted_pool shape runs.now) }
        ensures history { IfOk result (λ p. p.history ≡ []) }
        ensures shape { IfOk result (λ p. p.shape ≡ shape) }
        ensures home { IfOk result (λ p. p.home ≡ frames.home) }
        ensures folios { IfOk result (λ p. out.new.items ≡ out.old.items ++ map (adopted_run frames) runs.now) }
        ensures kept { IfErr result (λ f. f ≡ frames) }
        ensures list { IfErr result (λ f. out.new.items ≡ out.old.items) }
    {
        match PoolFrames::adopt(alloc, frames, shape, runs, out) {
            Ok(frames) => Ok(Pool::of(alloc, frames)),
            Err(frames) => Err(frames),
        }
    }
}
