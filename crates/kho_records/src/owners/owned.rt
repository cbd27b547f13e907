//! The owners' rule, frame by frame.

ghost use Rattle.std.specs.Prelude.{◌≡◌, ◌≤◌, All, IfOk};
ghost use Rattle.ho_base.specs.declared.limits.TheConstants.{MAX_ORDER};
ghost use Rattle.kho_records.specs.Owner.{is_right as right_rule};
ghost use Rattle.kho_records.specs.Owned.{IsFirstIll};

use crate::chain::ChunkSheet;
use crate::owners::marked::marked_owner;
use crate::owners::owner::Owner;
use crate::owners::table::owners_of;
use ho_base::numbers::Pfn;
use ho_base::shape::Shape;
use std::alloc::{AllocError, Global};

/// A run of frames that has to be marked.
#[derive(Clone, Copy, Debug, PartialEq)]
pub struct UsedRun {
    /// The first frame.
    pub first: Pfn,
    /// The order, at most 9: there are `2^order` frames.
    pub order: u8,
}

/// Whether a frame has the users and the marks that it should have.
fn is_right(p: u32, owner: Owner, marked: Owner) -> bool
    ensures { result ≡ right_rule p owner marked }
{
    match (owner, marked) {
        (Owner::Nobody, Owner::Nobody) => true,
        (Owner::Unmarked, Owner::Nobody) => p != 0,
        (
            Owner::Run { first, order },
            Owner::Run {
                first: marked_first,
                order: marked_order,
            },
        ) => p != 0 && marked_first == first && marked_order == order,
        _ => false,
    }
}

/// The least of `count` frames that breaks the owners' rule; none where all keep it.
///
/// A frame keeps the rule where it has at most one user, frame 0 none, and the marked runs that hold it are just the
/// one in `users` that holds it. A frame's users are the runs in `users`, of order 0 to 9, the scratch areas and the
/// chunk frames; what of them lies behind the last frame doesn't count.
///
/// It costs a step for each frame of each user, and for each frame of the machine one look through the elements of the
/// chain, of which there are at most 14 where the chain keeps its rules; and memory for a few bytes a frame. `Err`: out
/// of memory.
pub fn first_ill_frame(
    alloc: Global,
    count: u32,
    shape: &Shape,
    users: &[UsedRun],
    chunks: &[ChunkSheet],
) -> Result<Option<Pfn>, AllocError>
    requires { All (λ u. u.order ≤ MAX_ORDER) users.now }
    ensures { IfOk result (λ r. IsFirstIll count shape.now users.now chunks.now r) }
{
    let owners = owners_of(alloc, count, shape, users, chunks)?;
    for p in 0..count {
        if !is_right(p, owners[p as usize], marked_owner(chunks, p)) {
            return Ok(Some(Pfn(p)));
        }
    }
    Ok(None)
}
