//! The turns of a kexec: frames are taken from the pool, and the kexec ends.

ghost use Rattle.std.specs.Prelude.{◌≡◌, ◌+◌, ◌<◌, ◌≤◌, ◌^◌, ◌∷◌, [], IfOk, IfErr, OnErr, OnOk, MatchOption, Some, None, map, length, vec_len, vec_capacity};
ghost use Rattle.ho_base.specs.Objects.{pool_no};
ghost use Rattle.ho_events.specs.History.{last_stamp};
ghost use Rattle.ho_world.specs.Logs.{end_with};
ghost use Rattle.phys_frames.specs.Memory.{zeroed};
ghost use Rattle.machine_core.specs.Agents.{Agent};
ghost use Rattle.machine_core.specs.Turns.{IsReady, Goes};
ghost use Rattle.luo_calls.specs.Opened.{Opens};
ghost use Rattle.luo_calls.specs.Takes.{TookRuns};
ghost use Rattle.freeze_path.specs.Ready.{folios_of, reply_for, took_by, EndedFirst, IsToldEarly, TookFrames};

use ho_base::Items;
use ho_base::numbers::{NoMemory, ObjectNo, Order, Pfn};
use ho_events::entry::{Entry, Place};
use ho_events::event::Event;
use ho_events::reply::Reply;
use ho_events::slip::{At, Listed, Slip, Turned};
use machine_core::{Object, Reach};
use phys_frames::Folio;
use pool_core::Pool;
use std::alloc::Global;
use std::snapshot::Snapshot;

/// How the turns of a kexec came out.
pub enum Took {
    /// These frames were taken.
    Got(Snapshot<Items<Pfn>>),
    /// Too few frames are free.
    TooFew,
    /// Out of memory. Nothing was done.
    Memory,
}

/// Takes the pool, with room for an entry in its history and for two in the agent's log. Where that can't be, nothing is
/// done.
fn open<R: Reach>(alloc: Global, reach: &mut R, at: At, count: u32) -> Result<(Slip, Pool), Took>
    requires free { (R.shown reach.old).hands pool_no ≡ None }
    requires early { at.last + 1 < 2 ^ 63 }
    requires told { IsToldEarly (R.shown reach.old).told }
    ensures opens { IfOk result (λ t. Opens at pool_no (R.shown reach.old) (R.shown reach.new) (Object.Pool t.1)) }
    ensures last { IfOk result (λ t. last_stamp t.1.history + 1 < 2 ^ 63) }
    ensures at { IfOk result (λ t. t.0.at ≡ at) }
    ensures listed { IfOk result (λ t. t.0.room.reply_numbers ≡ count) }
    ensures room { OnOk result (2 ≤ (R.shown reach.new).room) }
    ensures none { IfErr result (TookFrames count at (R.shown reach.old) (R.shown reach.new)) }
    ensures no_folios { IfErr result (λ took. folios_of (R.shown reach.old).anchor.home took ≡ []) }
{
    if let Err(NoMemory) = reach.room(2) {
        return Err(Took::Memory);
    }
    let slip = match Slip::make(alloc, at, Listed::in_reply(count, 0)) {
        Ok(slip) => slip,
        Err(NoMemory) => return Err(Took::Memory),
    };
    let mut state = reach.begin(ObjectNo::POOL);
    if let Err(NoMemory) = state.reserve(1) {
        reach.end(ObjectNo::POOL, state, None);
        return Err(Took::Memory);
    }
    match state {
        Object::Pool(pool) => Ok((slip, pool)),
        _ => unreachable!(),
    }
}

/// Ends the command with its reply, in an agent's log that has room.
fn end<R: Reach>(reach: &mut R, at: &mut At, reply: Reply)
    requires ready { IsReady at.old (R.shown reach.old) }
    requires room { 1 ≤ (R.shown reach.old).room }
    requires early { at.old.last < 2 ^ 63 }
    ensures { Goes (end_with reply ∷ []) at.old at.new (R.shown reach.old) (R.shown reach.new) }
{
    at.last += 1;
    reach.own(Entry {
        kernel: at.kernel,
        stamp: at.last,
        agent: at.agent,
        command: at.command,
        object: Place::Own,
        event: Event::SelfDone,
        reply,
    });
}

/// Ends the command with its reply, where the log can get room; else nothing is done.
pub(crate) fn end_first<R: Reach>(reach: &mut R, at: At, reply: Reply) -> bool
    requires ready { IsReady at (R.shown reach.old) }
    requires early { at.last < 2 ^ 63 }
    ensures { EndedFirst result reply at (R.shown reach.old) (R.shown reach.new) }
{
    if let Err(NoMemory) = reach.room(1) {
        return false;
    }
    let mut at = at;
    end(reach, &mut at, reply);
    true
}

/// Takes so many frames into the empty list; none, with nothing taken, where too few are free.
#[tactic(auto, using(crate::proofs::TakeSteps::zeroed_ones))]
fn take<R: Reach>(
    alloc: Global,
    reach: &mut R,
    at: &mut At,
    count: u32,
    out: &mut Vec<Folio>,
) -> Result<Option<Snapshot<Items<Pfn>>>, Took>
    requires ready { IsReady at.old (R.shown reach.old) }
    requires free { (R.shown reach.old).hands pool_no ≡ None }
    requires early { at.old.last + 1 < 2 ^ 63 }
    requires told { IsToldEarly (R.shown reach.old).told }
    requires some { 1 ≤ count }
    requires empty { out.old.items ≡ [] }
    requires spare { vec_len out.old + count ≤ vec_capacity out.old }
    ensures got { IfOk result (λ got. TookRuns (record { 0 = 0 }) count at.old at.new (R.shown reach.old) (R.shown reach.new) got) }
    ensures out { IfOk result (λ got. MatchOption got (out.new.items ≡ []) (λ runs. out.new.items ≡ map (zeroed (R.shown reach.old).anchor.home) runs.value)) }
    ensures room { OnOk result (1 ≤ (R.shown reach.new).room) }
    ensures early { OnOk result (at.new.last < 2 ^ 63) }
    ensures none { IfErr result (TookFrames count at.old (R.shown reach.old) (R.shown reach.new)) }
    ensures no_folios { IfErr result (λ took. folios_of (R.shown reach.old).anchor.home took ≡ []) }
    ensures err_out { OnErr result (out.new.items ≡ []) }
{
    let (slip, mut pool) = open(alloc, reach, *at, count)?;
    let Turned { entry, value } = pool.take(slip, Order(0), count, out);
    at.last = entry.stamp;
    let got = match &entry.reply {
        Reply::Got(runs) => Some(Snapshot::of(runs)),
        _ => None,
    };
    let _taken = value;
    reach.end(ObjectNo::POOL, Object::Pool(pool), Some(entry));
    Ok(got)
}

/// Ends the kexec after the take of frames: with Ok, or where there are none with `NoFrames`.
fn finish<R: Reach>(
    reach: &mut R,
    at: &mut At,
    count: u32,
    got: Option<Snapshot<Items<Pfn>>>,
) -> Took
    requires ready { IsReady at.old (R.shown reach.old) }
    requires room { 1 ≤ (R.shown reach.old).room }
    requires early { at.old.last < 2 ^ 63 }
    ensures goes { Goes (end_with (reply_for count got) ∷ []) at.old at.new (R.shown reach.old) (R.shown reach.new) }
    ensures took { result ≡ took_by got }
{
    match got {
        Some(runs) => {
            end(reach, at, Reply::Ok);
            Took::Got(runs)
        }
        None => {
            end(reach, at, Reply::NoFramesOf(count));
            Took::TooFew
        }
    }
}

/// Takes so many frames into the empty list and ends the kexec: with Ok, or where too few are free with `NoFrames`. All
/// memory is taken before the first entry.
pub(crate) fn take_frames<R: Reach>(
    alloc: Global,
    reach: &mut R,
    at: At,
    count: u32,
    out: &mut Vec<Folio>,
) -> Took
    requires ready { IsReady at (R.shown reach.old) }
    requires free { (R.shown reach.old).hands pool_no ≡ None }
    requires early { at.last + 1 < 2 ^ 63 }
    requires told { IsToldEarly (R.shown reach.old).told }
    requires some { 1 ≤ count }
    requires empty { out.old.items ≡ [] }
    requires spare { vec_len out.old + count ≤ vec_capacity out.old }
    ensures took { TookFrames count at (R.shown reach.old) (R.shown reach.new) result }
    ensures folios { out.new.items ≡ folios_of (R.shown reach.old).anchor.home result }
{
    let mut at = at;
    match take(alloc, reach, &mut at, count, out) {
        Err(took) => took,
        Ok(got) => finish(reach, &mut at, count, got),
    }
}
