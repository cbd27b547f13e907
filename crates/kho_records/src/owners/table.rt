//! The table of who uses each frame.

ghost use Rattle.std.specs.Prelude.{◌≡◌, ℕ, ◌<◌, ◌≤◌, ◌+◌, ◌^◌, All, IfOk, length};
ghost use Rattle.ho_base.specs.declared.limits.TheConstants.{MAX_ORDER};
ghost use Rattle.kho_records.specs.declared.owners.owner.Owner.TheVariants.{Nobody};
ghost use Rattle.kho_records.specs.Owner.{owner_in, owner_at, with_range, with_user, with_area, with_chunk, with_each};

use crate::chain::ChunkSheet;
use crate::owners::owned::UsedRun;
use crate::owners::owner::{Owner, join};
use ho_base::shape::{Area, Shape};
use std::alloc::{AllocError, Global};

/// Adds a user to the frames from `first` up to `end`, as far as the table has them.
fn add_range(owners: &mut [Owner], first: u64, end: u64, more: Owner)
    ensures { (p : ℕ) → p < length owners.old → owner_in owners.new p ≡ with_range first end more p (owner_in owners.old p) }
{
    let len = owners.len() as u64;
    let start = first.min(len) as usize;
    let stop = end.min(len).max(first.min(len)) as usize;
    for p in start..stop {
        owners[p] = join(owners[p], more);
    }
}

/// Adds a run that has to be marked.
fn add_user(owners: &mut [Owner], user: UsedRun)
    requires { user.order ≤ MAX_ORDER }
    ensures { (p : ℕ) → p < length owners.old → owner_in owners.new p ≡ with_user user p (owner_in owners.old p) }
{
    let first = u64::from(user.first.0);
    let more = Owner::Run {
        first: user.first.0,
        order: user.order,
    };
    add_range(owners, first, first + (1u64 << user.order), more);
}

/// Adds the runs that have to be marked.
fn add_users(owners: &mut [Owner], users: &[UsedRun])
    requires { All (λ u. u.order ≤ MAX_ORDER) users.now }
    ensures { (p : ℕ) → p < length owners.old → owner_in owners.new p ≡ with_each with_user users.now p (owner_in owners.old p) }
{
    for user in users {
        add_user(owners, *user);
    }
}

/// Adds a scratch area.
fn add_area(owners: &mut [Owner], area: &Area)
    ensures { (p : ℕ) → p < length owners.old → owner_in owners.new p ≡ with_area area.now p (owner_in owners.old p) }
{
    let first = u64::from(area.first.0);
    add_range(
        owners,
        first,
        first + u64::from(area.count),
        Owner::Unmarked,
    );
}

/// Adds the scratch areas.
fn add_areas(owners: &mut [Owner], areas: &[Area])
    ensures { (p : ℕ) → p < length owners.old → owner_in owners.new p ≡ with_each with_area areas.now p (owner_in owners.old p) }
{
    for area in areas {
        add_area(owners, area);
    }
}

/// Adds a chunk frame, if the table has it.
fn add_chunk(owners: &mut [Owner], chunk: &ChunkSheet)
    ensures { (p : ℕ) → p < length owners.old → owner_in owners.new p ≡ with_chunk chunk.now p (owner_in owners.old p) }
{
    if chunk.at < owners.len() as u64 {
        let at = chunk.at as usize;
        owners[at] = join(owners[at], Owner::Unmarked);
    }
}

/// Adds the chunk frames.
fn add_chunks(owners: &mut [Owner], chunks: &[ChunkSheet])
    ensures { (p : ℕ) → p < length owners.old → owner_in owners.new p ≡ with_each with_chunk chunks.now p (owner_in owners.old p) }
{
    for chunk in chunks {
        add_chunk(owners, chunk);
    }
}

/// Adds all that may use a frame.
#[tactic(auto, unfolding(crate::specs::Owner::owner_at))]
fn add_all(owners: &mut [Owner], shape: &Shape, users: &[UsedRun], chunks: &[ChunkSheet])
    requires order { All (λ u. u.order ≤ MAX_ORDER) users.now }
    requires new { (p : ℕ) → p < length owners.old → owner_in owners.old p ≡ Nobody }
    ensures { (p : ℕ) → p < length owners.old → owner_in owners.new p ≡ owner_at users.now shape.now.scratch chunks.now p }
{
    add_users(owners, users);
    add_areas(owners, shape.scratch());
    add_chunks(owners, chunks);
}

/// Who uses each of `count` frames, of these users, scratch areas and chunk frames. `Err`: out of memory.
pub(crate) fn owners_of(
    alloc: Global,
    count: u32,
    shape: &Shape,
    users: &[UsedRun],
    chunks: &[ChunkSheet],
) -> Result<Vec<Owner>, AllocError>
    requires { All (λ u. u.order ≤ MAX_ORDER) users.now }
    ensures long { IfOk result (λ v. length v.items ≡ count) }
    ensures owners { IfOk result (λ v. (p : ℕ) → p < count → owner_in v.items p ≡ owner_at users.now shape.now.scratch chunks.now p) }
{
    let mut owners = vec![in alloc; Owner::Nobody; count as usize]?;
    add_all(&mut owners, shape, users, chunks);
    Ok(owners)
}
