//! The frames of a pool that begins with owned runs.

ghost use Rattle.std.specs.Prelude.{◌≡◌, ◌+◌, ◌≤◌, ◌++◌, IfErr, IfOk, length, map, replicate};
ghost use Rattle.std.specs.FinSet as finset;
ghost use Rattle.std.specs.Vec.{vec_capacity, vec_len};
ghost use Rattle.phys_frames.specs.Memory.{AllHome, without_run};
ghost use Rattle.pool_core.specs.PoolAdopting.{CanAdopt, CanGoOut, EachBegins, EachCanGoOut, EachReserves, adopted_pool, adopted_run, adopted_tags, each_adopted, without_adopted, without_all};

use crate::frames::pool::PoolFrames;
use crate::frames::table::{Table, put};
use crate::frames::usable::usable_frames;
use buddy_pages::Buddy;
use folio_bitmaps::Tracker;
use ho_base::numbers::{NoMemory, Order, Pfn};
use ho_base::shape::Shape;
use phys_frames::{Folio, Frames};
use std::alloc::Global;

impl PoolFrames {
    /// The frames of a pool that begins with these owned runs, of any orders, and with nothing pinned. Their folios
    /// are put at the end of the list, with the bytes that they had. It takes memory for two numbers and the marks
    /// of each frame; where that can't be had the frames come back, and they and the list are as they were.
    pub fn adopt(
        alloc: Global,
        frames: Frames,
        shape: Shape,
        runs: &[(Pfn, Order)],
        out: &mut Vec<Folio>,
    ) -> Result<PoolFrames, Frames>
        requires home { AllHome frames }
        requires count { shape.frames ≡ length frames.pages }
        requires free { CanAdopt shape runs.now }
        requires spare { vec_len out.old + length runs.now ≤ vec_capacity out.old }
        ensures value { IfOk result (λ p. p ≡ record { state = adopted_pool shape runs.now; home = frames.home; marks = finset.empty }) }
        ensures folios { IfOk result (λ p. out.new.items ≡ out.old.items ++ map (adopted_run frames) runs.now) }
        ensures kept { IfErr result (λ f. f ≡ frames) }
        ensures list { IfErr result (λ f. out.new.items ≡ out.old.items) }
    {
        let n = frames.count();
        let Ok(buddy) = usable_frames(alloc, &shape) else {
            return Err(frames);
        };
        let Ok(marks) = Tracker::new(alloc, n) else {
            return Err(frames);
        };
        let Ok(tags) = no_tags(alloc, n) else {
            return Err(frames);
        };
        let mut frames = frames;
        let mut buddy = buddy;
        let mut tags = tags;
        take_all(&mut frames, runs, out);
        reserve_all(&mut buddy, runs);
        tag_all(&mut tags, runs);
        Ok(PoolFrames {
            table: Table {
                frames,
                shape,
                tags,
            },
            buddy,
            marks,
        })
    }
}

/// Takes runs of frames, with their bytes. The list has room for their folios.
fn take_all(frames: &mut Frames, runs: &[(Pfn, Order)], out: &mut Vec<Folio>)
    requires home { EachCanGoOut runs.now frames.old }
    requires spare { vec_len out.old + length runs.now ≤ vec_capacity out.old }
    ensures frames { frames.new ≡ without_all runs.now frames.old }
    ensures folios { out.new.items ≡ out.old.items ++ each_adopted frames.old runs.now }
{
    let mut left = runs;
    while let Some((run, rest)) = left.split_first() {
        let folio = take_one(frames, run.0, run.1);
        put(out, folio);
        left = rest;
    }
}

/// Takes a run of frames, with its bytes.
#[tactic(auto, using(crate::proofs::PoolAdopts::adopted_is))]
fn take_one(frames: &mut Frames, p: Pfn, order: Order) -> Folio
    requires { CanGoOut frames.old p order }
    ensures value { frames.new ≡ without_run frames.old p order }
    ensures folio { result ≡ adopted_run frames.old (p, order) }
{
    frames.take(p, order)
}

/// Takes runs out of the free frames.
fn reserve_all(buddy: &mut Buddy, runs: &[(Pfn, Order)])
    requires { EachReserves runs.now buddy.old }
    ensures { buddy.new ≡ without_adopted runs.now buddy.old }
{
    let mut left = runs;
    while let Some((run, rest)) = left.split_first() {
        buddy.reserve(run.0, run.1);
        left = rest;
    }
}

/// Sets the numbers of the frames at which runs begin.
fn tag_all(tags: &mut Vec<u8>, runs: &[(Pfn, Order)])
    requires { EachBegins (length tags.old.items) runs.now }
    ensures { tags.new.items ≡ adopted_tags runs.now tags.old.items }
{
    let mut left = runs;
    while let Some((run, rest)) = left.split_first() {
        tags[run.0.0 as usize] = run.1.0 + 1;
        left = rest;
    }
}

/// Numbers of so many frames at which no run begins.
fn no_tags(alloc: Global, n: u32) -> Result<Vec<u8>, NoMemory>
    ensures { IfOk result (λ tags. tags.items ≡ replicate n 0) }
{
    match vec![in alloc; 0u8; n as usize] {
        Ok(tags) => Ok(tags),
        Err(_) => Err(NoMemory),
    }
}
