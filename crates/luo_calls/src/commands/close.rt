//! The command `close`.

ghost use Rattle.std.specs.Prelude.{◌≡◌, ◌<◌, IfOk, IfErr, OnOk, IsTrue, List, false};
ghost use Rattle.ho_base.specs.Objects.{registry_no, session_no};
ghost use Rattle.ho_events.specs.Session.{is_out};
ghost use Rattle.ho_world.specs.Acts.{Claim};
ghost use Rattle.ho_world.specs.Logs.{AreClaimed};
ghost use Rattle.ho_world.specs.Sequences.{Labels};
ghost use Rattle.ho_world.specs.Sequences.Parts.{close_acts};
ghost use Rattle.phys_frames.specs.Memory.{AreOf};
ghost use Rattle.session_core.specs.SessionValues.{SessionIs};
ghost use Rattle.machine_core.specs.Agents.{Agent, begun, no_hands};
ghost use Rattle.machine_core.specs.Commands.{Comes, Halts};
ghost use Rattle.machine_core.specs.Turns.{IsReady, Goes};
ghost use Rattle.luo_calls.specs.Closing.{ClosesSlot, HasFree, session_ends};
ghost use Rattle.luo_calls.specs.Doing.{AreRest, AreWhole, SticksAfter, slot_found};
ghost use Rattle.luo_calls.specs.Opened.{Holds, without};

use crate::commands::close_files::{are_all_different, close_files};
use crate::stuck::{Stopped, Stuck, empty_handed, release};
use crate::turns::done::end_command;
use crate::turns::open::begin_session;
use crate::turns::registry::{drop_name, find_out};
use crate::turns::resume::under;
use crate::turns::session::end_session;
use ho_base::limits::OUT_SLOTS;
use ho_base::name::Name;
use ho_base::numbers::{ObjectNo, SlotNo};
use ho_events::command::Command;
use ho_events::reply::Reply;
use ho_events::slip::At;
use machine_core::{Halt, Object, Reach};
use phys_frames::folio::Folio;
use session_core::SessionObject;
use std::alloc::Global;

/// Unpreserves the files of an outgoing session, in rising tokens, and ends it with its name: refused with `NoSession`
/// where no session of the name is outgoing. It costs what the files give back, and compares each two of their numbers.
///
/// # Errors
///
/// The halt of a command that stops in the middle, with the folios that it had in hand. A session that lists a file
/// twice is broken.
pub fn close<R: Reach>(
    alloc: Global,
    reach: &mut R,
    at: &mut At,
    name: Name,
) -> Result<Reply, (Vec<Folio>, Halt)>
    requires ready { IsReady at.old (R.shown reach.old) }
    requires free { (R.shown reach.old).hands ≡ no_hands }
    ensures comes { IfOk result (λ reply. (labels : Labels) → Comes labels labels (Command.Close name) reply at.old at.new (R.shown reach.old) (R.shown reach.new)) }
    ensures halts { IfErr result (λ h. (labels : Labels) → Halts labels labels (Command.Close name) h.1 at.old at.new (R.shown reach.old) (R.shown reach.new)) }
    ensures given_up { IfErr result (λ h. AreOf (R.shown reach.old).anchor.home h.0.items) }
{
    match close_turns(alloc, reach, at, name) {
        Ok(reply) => Ok(reply),
        Err(Stopped { folios, stuck }) => Err((folios, release(reach, stuck))),
    }
}

/// The turns of a `close`.
fn close_turns<R: Reach>(
    alloc: Global,
    reach: &mut R,
    at: &mut At,
    name: Name,
) -> Result<Reply, Stopped>
    requires ready { IsReady at.old (R.shown reach.old) }
    requires free { (R.shown reach.old).hands ≡ no_hands }
    ensures comes { IfOk result (λ reply. (labels : Labels) → Comes labels labels (Command.Close name) reply at.old at.new (R.shown reach.old) (R.shown reach.new)) }
    ensures stopped { IfErr result (λ s. SticksAfter (AreWhole (close_acts name)) s.stuck at.old at.new (R.shown reach.old) (R.shown reach.new)) }
    ensures given_up { IfErr result (λ s. AreOf (R.shown reach.old).anchor.home s.folios.items) }
{
    let found = match find_out(alloc, reach, at, name) {
        Ok(found) => found,
        Err(stuck) => return Err(empty_handed(alloc, stuck)),
    };
    match found {
        Reply::OkSlot(slot) => close_slot(alloc, reach, at, slot, name),
        Reply::NoSession => match end_command(reach, at, Reply::NoSession) {
            Ok(()) => Ok(Reply::NoSession),
            Err(stuck) => Err(empty_handed(alloc, stuck)),
        },
        _ => unreachable!(),
    }
}

/// Closes the session of a slot. It stays in hand until its turn ends.
fn close_slot<R: Reach>(
    alloc: Global,
    reach: &mut R,
    at: &mut At,
    slot: SlotNo,
    name: Name,
) -> Result<Reply, Stopped>
    requires ready { IsReady at.old (R.shown reach.old) }
    requires free { (R.shown reach.old).hands ≡ no_hands }
    requires slot { slot.0 < OUT_SLOTS }
    ensures closes { IfOk result (λ reply. ClosesSlot name slot reply at.old at.new (R.shown reach.old) (R.shown reach.new)) }
    ensures stopped { IfErr result (λ s. SticksAfter (AreRest (close_acts name) (slot_found name slot)) s.stuck at.old at.new (R.shown reach.old) (R.shown reach.new)) }
    ensures given_up { IfErr result (λ s. AreOf (R.shown reach.old).anchor.home s.folios.items) }
{
    let held = match begin_session(reach, *at, slot) {
        Ok(held) => held,
        Err(stuck) => return Err(empty_handed(alloc, stuck)),
    };
    if held.is_out(name) {
        close_out(alloc, reach, at, slot, held, name)
    } else {
        match close_other(alloc, reach, at, slot, held, name) {
            Ok(reply) => Ok(reply),
            Err(stuck) => Err(empty_handed(alloc, stuck)),
        }
    }
}

/// Ends the turn of a session in hand that isn't outgoing with the name any more, and the command: nothing changes.
fn close_other<R: Reach>(
    alloc: Global,
    reach: &mut R,
    at: &mut At,
    slot: SlotNo,
    held: SessionObject,
    name: Name,
) -> Result<Reply, Stuck>
    requires ready { IsReady at.old (R.shown reach.old) }
    requires slot { slot.0 < OUT_SLOTS }
    requires holds { Holds (session_no slot.0) (R.shown reach.old) (Object.Session held) }
    requires other { SessionIs held (λ s. is_out s name ≡ false) }
    ensures closes { IfOk result (λ reply. ClosesSlot name slot reply at.old at.new (without (session_no slot.0) (R.shown reach.old)) (R.shown reach.new)) }
    ensures sticks { IfErr result (λ stuck. SticksAfter (AreRest (close_acts name) (slot_found name slot)) stuck at.old at.new (without (session_no slot.0) (R.shown reach.old)) (R.shown reach.new)) }
{
    end_session(alloc, reach, at, slot, held, name)?;
    end_command(reach, at, Reply::NoSession)?;
    Ok(Reply::NoSession)
}

/// Ends an outgoing session in hand: first its files are unpreserved.
fn close_out<R: Reach>(
    alloc: Global,
    reach: &mut R,
    at: &mut At,
    slot: SlotNo,
    held: SessionObject,
    name: Name,
) -> Result<Reply, Stopped>
    requires ready { IsReady at.old (R.shown reach.old) }
    requires free { HasFree (R.shown reach.old) }
    requires slot { slot.0 < OUT_SLOTS }
    requires holds { Holds (session_no slot.0) (R.shown reach.old) (Object.Session held) }
    requires out { SessionIs held (λ s. IsTrue (is_out s name)) }
    ensures closes { IfOk result (λ reply. ClosesSlot name slot reply at.old at.new (without (session_no slot.0) (R.shown reach.old)) (R.shown reach.new)) }
    ensures stopped { IfErr result (λ s. SticksAfter (AreRest (close_acts name) (slot_found name slot)) s.stuck at.old at.new (without (session_no slot.0) (R.shown reach.old)) (R.shown reach.new)) }
    ensures given_up { IfErr result (λ s. AreOf (R.shown reach.old).anchor.home s.folios.items) }
{
    let number = ObjectNo::of_session(slot);
    let files = held.files();
    if !are_all_different(files) {
        let stuck = Stuck {
            halt: Halt::Broken(number),
            held: Some((number, Object::Session(held))),
        };
        return Err(empty_handed(alloc, stuck));
    }
    if let Err(Stopped { folios, stuck }) = close_files(alloc, reach, at, files) {
        let stuck = under(reach, number, Object::Session(held), stuck);
        return Err(Stopped { folios, stuck });
    }
    match end_out(alloc, reach, at, slot, held, name) {
        Ok(()) => Ok(Reply::Ok),
        Err(stuck) => Err(empty_handed(alloc, stuck)),
    }
}

/// Ends the turn of an outgoing session in hand whose files are unpreserved, its name, and the command. What is known
/// of the objects in hand may be read at the session's end.
fn end_out<R: Reach>(
    alloc: Global,
    reach: &mut R,
    at: &mut At,
    slot: SlotNo,
    held: SessionObject,
    name: Name,
) -> Result<(), Stuck>
    requires ready { IsReady at.old (R.shown reach.old) }
    requires free { (R.shown reach.old).hands registry_no ≡ None }
    requires slot { slot.0 < OUT_SLOTS }
    requires holds { Holds (session_no slot.0) (R.shown reach.old) (Object.Session held) }
    requires out { SessionIs held (λ s. IsTrue (is_out s name)) }
    ensures goes { OnOk result ((claims : List Claim) → AreClaimed (begun (R.shown reach.old)) (R.shown reach.old).hands claims → Goes (session_ends slot name claims) at.old at.new (without (session_no slot.0) (R.shown reach.old)) (R.shown reach.new)) }
    ensures sticks { IfErr result (λ stuck. (claims : List Claim) → AreClaimed (begun (R.shown reach.old)) (R.shown reach.old).hands claims → SticksAfter (λ ds. ds ≡ session_ends slot name claims) stuck at.old at.new (without (session_no slot.0) (R.shown reach.old)) (R.shown reach.new)) }
{
    end_session(alloc, reach, at, slot, held, name)?;
    drop_name(alloc, reach, at, name)?;
    end_command(reach, at, Reply::Ok)?;
    Ok(())
}
