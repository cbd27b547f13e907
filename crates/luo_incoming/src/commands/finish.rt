//! The command `finish`.

ghost use Rattle.std.specs.Prelude.{◌≡◌, ◌+◌, ◌<◌, IfOk, IfErr, OnOk, IsTrue, List, false};
ghost use Rattle.ho_base.specs.Objects.{registry_no, session_no};
ghost use Rattle.ho_events.specs.Session.{is_in};
ghost use Rattle.ho_world.specs.Acts.{Claim};
ghost use Rattle.ho_world.specs.Logs.{AreClaimed};
ghost use Rattle.ho_world.specs.Sequences.{Labels};
ghost use Rattle.ho_world.specs.Sequences.Parts.{finish_acts};
ghost use Rattle.phys_frames.specs.Memory.{AreOf};
ghost use Rattle.session_core.specs.SessionValues.{SessionIs};
ghost use Rattle.machine_core.specs.Agents.{Agent, begun, no_hands};
ghost use Rattle.machine_core.specs.Commands.{Comes, Halts};
ghost use Rattle.machine_core.specs.Turns.{IsReady, Goes};
ghost use Rattle.luo_calls.specs.Closing.{HasFree};
ghost use Rattle.luo_calls.specs.Doing.{AreRest, AreWhole, SticksAfter};
ghost use Rattle.luo_calls.specs.Opened.{Holds, without};
ghost use Rattle.luo_incoming.specs.Finishing.{FinishesSlot, session_ends_in};
ghost use Rattle.luo_incoming.specs.Retrieving.{slot_opened};

use crate::commands::finish_files::finish_files;
use crate::turns::registry::{drop_in, find_in};
use crate::turns::session::finish_session;
use ho_base::limits::{IN_SLOTS, OUT_SLOTS};
use ho_base::name::Name;
use ho_base::numbers::{ObjectNo, SlotNo};
use ho_events::command::Command;
use ho_events::reply::Reply;
use ho_events::slip::At;
use luo_calls::commands::close_files::are_all_different;
use luo_calls::turns::done::end_command;
use luo_calls::turns::open::begin_session;
use luo_calls::turns::resume::under;
use luo_calls::{Stopped, Stuck, empty_handed, release};
use machine_core::{Halt, Object, Reach};
use phys_frames::folio::Folio;
use session_core::SessionObject;
use std::alloc::Global;

/// Ends an opened incoming session with its name: refused with `NoSession` where no session of the name is opened. Each of
/// its files, in rising tokens, stays where a label or an outgoing session has it; else its runs and its number are given
/// back. It costs what the files give back, and compares each two of their numbers.
///
/// # Errors
///
/// The halt of a command that stops in the middle, with the folios that it had in hand. A session that lists a file
/// twice is broken.
pub fn finish<R: Reach>(
    alloc: Global,
    reach: &mut R,
    at: &mut At,
    name: Name,
) -> Result<Reply, (Vec<Folio>, Halt)>
    requires ready { IsReady at.old (R.shown reach.old) }
    requires free { (R.shown reach.old).hands ≡ no_hands }
    ensures comes { IfOk result (λ reply. (labels : Labels) → Comes labels labels (Command.Finish name) reply at.old at.new (R.shown reach.old) (R.shown reach.new)) }
    ensures halts { IfErr result (λ h. (labels : Labels) → Halts labels labels (Command.Finish name) h.1 at.old at.new (R.shown reach.old) (R.shown reach.new)) }
    ensures given_up { IfErr result (λ h. AreOf (R.shown reach.old).anchor.home h.0.items) }
{
    match finish_turns(alloc, reach, at, name) {
        Ok(reply) => Ok(reply),
        Err(Stopped { folios, stuck }) => Err((folios, release(reach, stuck))),
    }
}

/// The turns of a `finish`.
fn finish_turns<R: Reach>(
    alloc: Global,
    reach: &mut R,
    at: &mut At,
    name: Name,
) -> Result<Reply, Stopped>
    requires ready { IsReady at.old (R.shown reach.old) }
    requires free { (R.shown reach.old).hands ≡ no_hands }
    ensures comes { IfOk result (λ reply. (labels : Labels) → Comes labels labels (Command.Finish name) reply at.old at.new (R.shown reach.old) (R.shown reach.new)) }
    ensures stopped { IfErr result (λ s. SticksAfter (AreWhole (finish_acts name)) s.stuck at.old at.new (R.shown reach.old) (R.shown reach.new)) }
    ensures given_up { IfErr result (λ s. AreOf (R.shown reach.old).anchor.home s.folios.items) }
{
    let found = match find_in(alloc, reach, at, name) {
        Ok(found) => found,
        Err(stuck) => return Err(empty_handed(alloc, stuck)),
    };
    match found {
        Reply::OkSlot(slot) => finish_slot(alloc, reach, at, slot, name),
        Reply::NoSession => match end_command(reach, at, Reply::NoSession) {
            Ok(()) => Ok(Reply::NoSession),
            Err(stuck) => Err(empty_handed(alloc, stuck)),
        },
        _ => unreachable!(),
    }
}

/// Finishes the session of a slot. It stays in hand until its turn ends.
fn finish_slot<R: Reach>(
    alloc: Global,
    reach: &mut R,
    at: &mut At,
    slot: SlotNo,
    name: Name,
) -> Result<Reply, Stopped>
    requires ready { IsReady at.old (R.shown reach.old) }
    requires free { (R.shown reach.old).hands ≡ no_hands }
    requires slot { slot.0 < OUT_SLOTS + IN_SLOTS }
    ensures finishes { IfOk result (λ reply. FinishesSlot name slot reply at.old at.new (R.shown reach.old) (R.shown reach.new)) }
    ensures stopped { IfErr result (λ s. SticksAfter (AreRest (finish_acts name) (slot_opened name slot)) s.stuck at.old at.new (R.shown reach.old) (R.shown reach.new)) }
    ensures given_up { IfErr result (λ s. AreOf (R.shown reach.old).anchor.home s.folios.items) }
{
    let held = match begin_session(reach, *at, slot) {
        Ok(held) => held,
        Err(stuck) => return Err(empty_handed(alloc, stuck)),
    };
    if held.is_in(name) {
        finish_in(alloc, reach, at, slot, held, name)
    } else {
        match finish_other(alloc, reach, at, slot, held, name) {
            Ok(reply) => Ok(reply),
            Err(stuck) => Err(empty_handed(alloc, stuck)),
        }
    }
}

/// Ends the turn of a session in hand that isn't the opened incoming one of the name any more, and the command: nothing changes.
fn finish_other<R: Reach>(
    alloc: Global,
    reach: &mut R,
    at: &mut At,
    slot: SlotNo,
    held: SessionObject,
    name: Name,
) -> Result<Reply, Stuck>
    requires ready { IsReady at.old (R.shown reach.old) }
    requires slot { slot.0 < OUT_SLOTS + IN_SLOTS }
    requires holds { Holds (session_no slot.0) (R.shown reach.old) (Object.Session held) }
    requires other { SessionIs held (λ s. is_in s name ≡ false) }
    ensures finishes { IfOk result (λ reply. FinishesSlot name slot reply at.old at.new (without (session_no slot.0) (R.shown reach.old)) (R.shown reach.new)) }
    ensures sticks { IfErr result (λ stuck. SticksAfter (AreRest (finish_acts name) (slot_opened name slot)) stuck at.old at.new (without (session_no slot.0) (R.shown reach.old)) (R.shown reach.new)) }
{
    finish_session(alloc, reach, at, slot, held, name)?;
    end_command(reach, at, Reply::NoSession)?;
    Ok(Reply::NoSession)
}

/// Ends an opened incoming session in hand: first its files are finished.
fn finish_in<R: Reach>(
    alloc: Global,
    reach: &mut R,
    at: &mut At,
    slot: SlotNo,
    held: SessionObject,
    name: Name,
) -> Result<Reply, Stopped>
    requires ready { IsReady at.old (R.shown reach.old) }
    requires free { HasFree (R.shown reach.old) }
    requires slot { slot.0 < OUT_SLOTS + IN_SLOTS }
    requires holds { Holds (session_no slot.0) (R.shown reach.old) (Object.Session held) }
    requires opened { SessionIs held (λ s. IsTrue (is_in s name)) }
    ensures finishes { IfOk result (λ reply. FinishesSlot name slot reply at.old at.new (without (session_no slot.0) (R.shown reach.old)) (R.shown reach.new)) }
    ensures stopped { IfErr result (λ s. SticksAfter (AreRest (finish_acts name) (slot_opened name slot)) s.stuck at.old at.new (without (session_no slot.0) (R.shown reach.old)) (R.shown reach.new)) }
    ensures given_up { IfErr result (λ s. AreOf (R.shown reach.old).anchor.home s.folios.items) }
{
    let number = ObjectNo::of_session(slot);
    let files = held.files();
    if !are_all_different(files) {
        let stuck = Stuck {
            halt: Halt::Broken(number),
            held: Some((number, Object::Session(held))),
        };
        return Err(empty_handed(alloc, stuck));
    }
    if let Err(Stopped { folios, stuck }) = finish_files(alloc, reach, at, files) {
        let stuck = under(reach, number, Object::Session(held), stuck);
        return Err(Stopped { folios, stuck });
    }
    match end_in(alloc, reach, at, slot, held, name) {
        Ok(()) => Ok(Reply::Ok),
        Err(stuck) => Err(empty_handed(alloc, stuck)),
    }
}

/// Ends the turn of an opened incoming session in hand whose files are finished, its name, and the command. What is known
/// of the objects in hand may be read at the session's end.
fn end_in<R: Reach>(
    alloc: Global,
    reach: &mut R,
    at: &mut At,
    slot: SlotNo,
    held: SessionObject,
    name: Name,
) -> Result<(), Stuck>
    requires ready { IsReady at.old (R.shown reach.old) }
    requires free { (R.shown reach.old).hands registry_no ≡ None }
    requires slot { slot.0 < OUT_SLOTS + IN_SLOTS }
    requires holds { Holds (session_no slot.0) (R.shown reach.old) (Object.Session held) }
    requires opened { SessionIs held (λ s. IsTrue (is_in s name)) }
    ensures goes { OnOk result ((claims : List Claim) → AreClaimed (begun (R.shown reach.old)) (R.shown reach.old).hands claims → Goes (session_ends_in slot name claims) at.old at.new (without (session_no slot.0) (R.shown reach.old)) (R.shown reach.new)) }
    ensures sticks { IfErr result (λ stuck. (claims : List Claim) → AreClaimed (begun (R.shown reach.old)) (R.shown reach.old).hands claims → SticksAfter (λ ds. ds ≡ session_ends_in slot name claims) stuck at.old at.new (without (session_no slot.0) (R.shown reach.old)) (R.shown reach.new)) }
{
    finish_session(alloc, reach, at, slot, held, name)?;
    drop_in(alloc, reach, at, name)?;
    end_command(reach, at, Reply::Ok)?;
    Ok(())
}
