//! How a kernel's objects are given up.

ghost use Rattle.std.specs.Prelude.{◌≡◌, IfErr};
ghost use Rattle.std.specs.List.{All};
ghost use Rattle.phys_frames.specs.Memory.{AllHome, AreOf};
ghost use Rattle.machine_core.specs.Kernels.{IsLeft};

use crate::gathering::bring_home;
use crate::object::Object;
use phys_frames::{Folio, Frames};
use pool_core::Pool;

/// Gives the memory of the pool, of all other objects and of folios back, and, where every frame came home, that of the
/// frames. Where one is missing, the frames come back.
pub(crate) fn give_all(
    pool: Pool,
    objects: Vec<Option<Object>>,
    folios: Vec<Folio>,
) -> Result<(), Frames>
    requires objects { All (IsLeft pool.home) objects.items }
    requires folios { AreOf pool.home folios.items }
    ensures missing { IfErr result (λ f. ¬ (AllHome f)) }
    ensures home { IfErr result (λ f. f.home ≡ pool.home) }
{
    let frames = bring_home(pool, objects, folios);
    if !frames.all_home() {
        return Err(frames);
    }
    frames.end();
    Ok(())
}
