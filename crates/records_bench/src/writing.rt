//! A state that is written into frames, and what that costs.

ghost use Rattle.std.specs.Prelude.{◌≡◌, ◌≤◌, IfOk, IfSome, IsTrue, length};
ghost use Rattle.ho_base.specs.declared.limits.TheConstants.{OUT_SLOTS};
ghost use Rattle.phys_frames.specs.Memory.{AllHome};
ghost use Rattle.kho_laws.specs.Carrying.{can_be_carried};
ghost use Rattle.kho_writer.specs.Folios.{MarksOwn, OtherBytes};
ghost use Rattle.records_bench.specs.Ready.{IsReady};

use crate::checks::can_carry;
use crate::folios::{give_folios, take_folios};
use crate::room::has_room;
use crate::state::{Amount, StateAt, make_state};
use folio_bitmaps::Tracker;
use kho_writer::{Prepared, tracker_of, write};
use phys_frames::{Folio, Frames};
use record_frames::{Carried, need};
use std::alloc::{AllocError, Global};
use std::io;
use std::time::{Clock, Instant};

/// A state with the marks of its files' runs, and the frame from which on its records are written.
#[derive(Drop)]
pub(crate) struct Work {
    /// What is carried.
    pub carried: Carried,
    /// The marks.
    pub tracker: Tracker,
    /// The entry frame. The other frames of the records follow it, and behind them the chunk frames.
    pub entry: u32,
}

/// The state of so many files on a machine of so many frames, with a scratch area of so many. None where it can't be
/// carried.
pub(crate) fn make_work(
    alloc: Global,
    frames: u32,
    scratch: u32,
    amount: Amount,
) -> io::Result<Option<Work>>
    requires { amount.sessions ≤ OUT_SLOTS }
    ensures { IfOk result (λ r. IfSome r (λ w. IsReady w)) }
{
    let Some(state) = make_state(alloc, frames, scratch, amount)? else {
        return Ok(None);
    };
    let StateAt { carried, next } = state;
    if !can_carry(&carried) {
        return Ok(None);
    }
    let Ok(tracker) = tracker_of(alloc, &carried) else {
        return Err(AllocError.into());
    };
    Ok(Some(Work {
        carried,
        tracker,
        entry: next,
    }))
}

/// The nanoseconds of writing a state into folios. None where they have no room for it.
fn write_into(
    clock: &impl Clock,
    alloc: Global,
    carried: &Carried,
    tracker: &Tracker,
    folios: &mut [Folio],
) -> io::Result<Option<u128>>
    requires { MarksOwn carried.now tracker.now }
    ensures { OtherBytes folios.old folios.new }
{
    if !has_room(carried, folios) {
        return Ok(None);
    }
    let start = Instant::now(clock)?;
    let Ok(prepared) = Prepared::make(alloc, carried) else {
        return Err(AllocError.into());
    };
    write(prepared, carried, tracker, folios);
    Ok(Some(start.elapsed(clock)?.as_nanos()))
}

/// How many frames the records of this take.
#[tactic(auto, using(crate::proofs::NeedSteps::few_sessions, crate::proofs::NeedSteps::few_files, crate::proofs::NeedSteps::few_runs))]
fn frames_for(carried: &Carried) -> u32
    requires { IsTrue (can_be_carried carried.now) }
{
    need(carried)
}

/// The nanoseconds of writing a state into the frames from its entry frame on. None where they have no room for it.
#[tactic(auto, using(crate::proofs::NeedSteps::still_taken))]
pub(crate) fn write_frames(
    clock: &impl Clock,
    alloc: Global,
    frames: &mut Frames,
    work: &Work,
) -> io::Result<Option<u128>>
    requires home { AllHome frames.old }
    requires ready { IsReady work.now }
    ensures home { AllHome frames.new }
    ensures size { length frames.new.pages ≡ length frames.old.pages }
{
    let count = frames_for(&work.carried);
    if u64::from(work.entry) + u64::from(count) > u64::from(frames.count()) {
        return Ok(None);
    }
    let mut folios = take_folios(alloc, frames, work.entry, count)?;
    let time = write_into(
        clock,
        alloc,
        &work.carried,
        &work.tracker,
        folios.as_mut_slice(),
    );
    give_folios(work.entry, folios, frames);
    time
}
