//! The frames that runs may have.

ghost use Rattle.std.specs.Prelude.{◌≡◌, ◌+◌, ◌<◌, IfOk};
ghost use Rattle.pool_core.specs.PoolFramesValues.{AreUsable, AreUsableBelow};

use buddy_pages::Buddy;
use ho_base::numbers::{NoMemory, Order, Pfn};
use ho_base::shape::Shape;
use std::alloc::Global;

/// All frames of a machine but frame 0 and the scratch frames.
#[tactic(auto, using(crate::proofs::PoolCold::all_usable))]
pub(crate) fn usable_frames(alloc: Global, shape: &Shape) -> Result<Buddy, NoMemory>
    ensures { IfOk result (λ set. AreUsable shape.now set) }
{
    let mut set = Buddy::new(alloc, shape.frames())?;
    for p in 1..shape.frames() {
        leave_out_scratch(&mut set, shape, Pfn(p));
    }
    Ok(set)
}

/// Takes a frame out if a scratch area holds it, where that is done for those below it.
fn leave_out_scratch(set: &mut Buddy, shape: &Shape, p: Pfn)
    requires later { 0 < p.0 }
    requires below { p.0 < shape.now.frames }
    requires before { AreUsableBelow shape.now p.0 set.old }
    ensures { AreUsableBelow shape.now (p.0 + 1) set.new }
{
    if shape.is_scratch(p) {
        set.reserve(p, Order(0));
    }
}
