//! The command `preserve`.

ghost use Rattle.std.specs.Prelude.{◌≡◌, ◌<◌, ◌^◌, ◌++◌, ◌∷◌, [], IfOk, OnOk, OnErr, IfErr, None, length};
ghost use Rattle.ho_base.specs.Objects.{file_no, pool_no, session_no};
ghost use Rattle.ho_world.specs.Logs.{end_with};
ghost use Rattle.ho_world.specs.Sequences.{command_acts};
ghost use Rattle.ho_world.specs.Sequences.Preserving.{preserve_acts};
ghost use Rattle.phys_frames.specs.Memory.{AreOf};
ghost use Rattle.session_core.specs.SessionValues.{SessionIs};
ghost use Rattle.session_core.specs.Sessions.{refusal_of};
ghost use Rattle.machine_core.specs.Agents.{Agent, no_hands};
ghost use Rattle.machine_core.specs.Commands.{Comes, Halts};
ghost use Rattle.machine_core.specs.Turns.{IsReady, Goes};
ghost use Rattle.luo_calls.specs.Doing.{AreRest, AreWhole, SticksAfter, slot_found};
ghost use Rattle.luo_calls.specs.Opened.{Holds, without};
ghost use Rattle.luo_calls.specs.Pins.{IsPin, pin_deeds};
ghost use Rattle.luo_calls.specs.Preserved.{PreservesSlot, added, after_pin, marked, preserve_deeds, reply_to, IsEnd, IsPreserved};
ghost use Rattle.luo_calls.specs.Stuck.{Sticks, turn_of};

use crate::stuck::{Stopped, Stuck, empty_handed, release};
use crate::turns::done::end_command;
use crate::turns::open::begin_session;
use crate::turns::pin::{Pin, pin_file};
use crate::turns::pool::mark;
use crate::turns::registry::find_out;
use crate::turns::resume::under;
use crate::turns::session::add;
use ho_base::Items;
use ho_base::limits::{FILES, OUT_SLOTS};
use ho_base::name::Name;
use ho_base::numbers::{FileNo, ObjectNo, Order, Pfn, SlotNo, Token};
use ho_events::command::Command;
use ho_events::reply::Reply;
use ho_events::slip::At;
use machine_core::{Halt, Labels, Object, Reach};
use phys_frames::folio::Folio;
use session_core::SessionObject;
use std::alloc::Global;

/// How the turns on a session, the pool and a file came out.
pub enum Preserved {
    /// The session refuses the file.
    NotAdmitted(Reply),
    /// The session admits the file, whose pin came out so.
    Tried(Pin),
}

/// Pins the label's file under a token in the outgoing session of a name. It takes runs for the file's holes, all or none.
/// It is refused with `BadFd` where no file has the label; with `NoSession` where no outgoing session has the name; then as
/// the session refuses; then as the file does; then with `NoFrames` where too few runs are free.
///
/// # Errors
///
/// The halt of a command that stops in the middle, with the folios that it had in hand.
pub fn preserve<R: Reach>(
    alloc: Global,
    reach: &mut R,
    labels: &Labels,
    at: &mut At,
    name: Name,
    token: Token,
    label: Name,
) -> Result<Reply, (Vec<Folio>, Halt)>
    requires ready { IsReady at.old (R.shown reach.old) }
    requires free { (R.shown reach.old).hands ≡ no_hands }
    ensures comes { IfOk result (λ reply. Comes labels.now.bound labels.now.bound (Command.Preserve name token label) reply at.old at.new (R.shown reach.old) (R.shown reach.new)) }
    ensures halts { IfErr result (λ h. Halts labels.now.bound labels.now.bound (Command.Preserve name token label) h.1 at.old at.new (R.shown reach.old) (R.shown reach.new)) }
    ensures given_up { IfErr result (λ h. AreOf (R.shown reach.old).anchor.home h.0.items) }
{
    match preserve_turns(alloc, reach, labels, at, name, token, label) {
        Ok(reply) => Ok(reply),
        Err(Stopped { folios, stuck }) => Err((folios, release(reach, stuck))),
    }
}

/// The turns of a `preserve`.
fn preserve_turns<R: Reach>(
    alloc: Global,
    reach: &mut R,
    labels: &Labels,
    at: &mut At,
    name: Name,
    token: Token,
    label: Name,
) -> Result<Reply, Stopped>
    requires ready { IsReady at.old (R.shown reach.old) }
    requires free { (R.shown reach.old).hands ≡ no_hands }
    ensures comes { IfOk result (λ reply. Comes labels.now.bound labels.now.bound (Command.Preserve name token label) reply at.old at.new (R.shown reach.old) (R.shown reach.new)) }
    ensures stopped { IfErr result (λ s. SticksAfter (AreWhole (command_acts labels.now.bound (Command.Preserve name token label))) s.stuck at.old at.new (R.shown reach.old) (R.shown reach.new)) }
    ensures given_up { IfErr result (λ s. AreOf (R.shown reach.old).anchor.home s.folios.items) }
{
    let Some(file) = labels.file(label) else {
        return match end_command(reach, at, Reply::BadFd) {
            Ok(()) => Ok(Reply::BadFd),
            Err(stuck) => Err(empty_handed(alloc, stuck)),
        };
    };
    let found = match find_out(alloc, reach, at, name) {
        Ok(found) => found,
        Err(stuck) => return Err(empty_handed(alloc, stuck)),
    };
    match found {
        Reply::OkSlot(slot) => preserve_slot(alloc, reach, at, slot, name, token, file),
        Reply::NoSession => match end_command(reach, at, Reply::NoSession) {
            Ok(()) => Ok(Reply::NoSession),
            Err(stuck) => Err(empty_handed(alloc, stuck)),
        },
        _ => unreachable!(),
    }
}

/// Preserves a file in the session of a slot, and ends the command.
fn preserve_slot<R: Reach>(
    alloc: Global,
    reach: &mut R,
    at: &mut At,
    slot: SlotNo,
    name: Name,
    token: Token,
    file: FileNo,
) -> Result<Reply, Stopped>
    requires ready { IsReady at.old (R.shown reach.old) }
    requires slot { slot.0 < OUT_SLOTS }
    requires file { file.0 < FILES }
    requires free { (R.shown reach.old).hands ≡ no_hands }
    ensures goes { IfOk result (λ reply. PreservesSlot name token file slot reply at.old at.new (R.shown reach.old) (R.shown reach.new)) }
    ensures stopped { IfErr result (λ s. SticksAfter (AreRest (preserve_acts name token file) (slot_found name slot)) s.stuck at.old at.new (R.shown reach.old) (R.shown reach.new)) }
    ensures given_up { IfErr result (λ s. AreOf (R.shown reach.old).anchor.home s.folios.items) }
{
    let preserved = preserve_in(alloc, reach, at, slot, name, token, file)?;
    match end_told(reach, at, reply_of(preserved)) {
        Ok(reply) => Ok(reply),
        Err(stuck) => Err(empty_handed(alloc, stuck)),
    }
}

/// What a `preserve` that came out so is answered.
fn reply_of(preserved: Preserved) -> Reply
    ensures { result ≡ reply_to preserved }
{
    match preserved {
        Preserved::NotAdmitted(reply) => reply,
        Preserved::Tried(pin) => match pin {
            Pin::Refused(reply) => reply,
            Pin::Starved(_, _) => Reply::NoFrames,
            Pin::Whole(_, _, _) => Reply::Ok,
        },
    }
}

/// One of the last replies of a `preserve`, twice.
fn twice(reply: Reply) -> (Reply, Reply)
    requires { IsEnd reply }
    ensures first { result.0 ≡ reply }
    ensures second { result.1 ≡ reply }
{
    match reply {
        Reply::Ok => (Reply::Ok, Reply::Ok),
        Reply::NoSession => (Reply::NoSession, Reply::NoSession),
        Reply::SessionFull => (Reply::SessionFull, Reply::SessionFull),
        Reply::TokenTaken => (Reply::TokenTaken, Reply::TokenTaken),
        Reply::NotFinished => (Reply::NotFinished, Reply::NotFinished),
        Reply::AlreadyPinned => (Reply::AlreadyPinned, Reply::AlreadyPinned),
        Reply::NoFrames => (Reply::NoFrames, Reply::NoFrames),
        _ => unreachable!(),
    }
}

/// Ends a `preserve` with its reply, and answers that.
fn end_told<R: Reach>(reach: &mut R, at: &mut At, reply: Reply) -> Result<Reply, Stuck>
    requires ready { IsReady at.old (R.shown reach.old) }
    requires reply { IsEnd reply }
    ensures told { IfOk result (λ told. told ≡ reply) }
    ensures goes { OnOk result (Goes (end_with reply ∷ []) at.old at.new (R.shown reach.old) (R.shown reach.new)) }
    ensures sticks { IfErr result (λ stuck. Sticks at.old None stuck (R.shown reach.old) (R.shown reach.new)) }
    ensures same_at { OnErr result (at.new ≡ at.old) }
{
    let (last, told) = twice(reply);
    end_command(reach, at, last)?;
    Ok(told)
}

/// Preserves a file in the session of a slot, which is in hand over the other turns.
fn preserve_in<R: Reach>(
    alloc: Global,
    reach: &mut R,
    at: &mut At,
    slot: SlotNo,
    name: Name,
    token: Token,
    file: FileNo,
) -> Result<Preserved, Stopped>
    requires ready { IsReady at.old (R.shown reach.old) }
    requires slot { slot.0 < OUT_SLOTS }
    requires file { file.0 < FILES }
    requires free { (R.shown reach.old).hands ≡ no_hands }
    ensures goes { IfOk result (λ p. Goes (preserve_deeds slot name token file p) at.old at.new (R.shown reach.old) (R.shown reach.new)) }
    ensures told { IfOk result IsPreserved }
    ensures stopped { IfErr result (λ s. SticksAfter (AreRest (preserve_acts name token file) (slot_found name slot)) s.stuck at.old at.new (R.shown reach.old) (R.shown reach.new)) }
    ensures given_up { IfErr result (λ s. AreOf (R.shown reach.old).anchor.home s.folios.items) }
{
    let held = match begin_session(reach, *at, slot) {
        Ok(held) => held,
        Err(stuck) => return Err(empty_handed(alloc, stuck)),
    };
    match held.admits(name, token) {
        None => pin_and_add(alloc, reach, at, slot, held, name, token, file),
        Some(_) => match add(alloc, reach, at, slot, held, name, token, file, None) {
            Ok(reply) => Ok(Preserved::NotAdmitted(reply)),
            Err(stuck) => Err(empty_handed(alloc, stuck)),
        },
    }
}

/// Pins a file, and adds it to the session in hand, which admits it.
fn pin_and_add<R: Reach>(
    alloc: Global,
    reach: &mut R,
    at: &mut At,
    slot: SlotNo,
    held: SessionObject,
    name: Name,
    token: Token,
    file: FileNo,
) -> Result<Preserved, Stopped>
    requires ready { IsReady at.old (R.shown reach.old) }
    requires slot { slot.0 < OUT_SLOTS }
    requires file { file.0 < FILES }
    requires holds { Holds (session_no slot.0) (R.shown reach.old) (Object.Session held) }
    requires free_file { (R.shown reach.old).hands (file_no file.0) ≡ None }
    requires free_pool { (R.shown reach.old).hands pool_no ≡ None }
    requires admitted { SessionIs held (λ s. refusal_of s name token.0 ≡ None) }
    ensures goes { IfOk result (λ p. Goes (preserve_deeds slot name token file p) at.old at.new (without (session_no slot.0) (R.shown reach.old)) (R.shown reach.new)) }
    ensures told { IfOk result IsPreserved }
    ensures stopped { IfErr result (λ s. SticksAfter (AreRest (preserve_acts name token file) (slot_found name slot)) s.stuck at.old at.new (without (session_no slot.0) (R.shown reach.old)) (R.shown reach.new)) }
    ensures given_up { IfErr result (λ s. AreOf (R.shown reach.old).anchor.home s.folios.items) }
{
    let pin = match pin_file(alloc, reach, at, file) {
        Ok(pin) => pin,
        Err(Stopped { folios, stuck }) => {
            let number = ObjectNo::of_session(slot);
            let stuck = under(reach, number, Object::Session(held), stuck);
            return Err(Stopped { folios, stuck });
        }
    };
    match add_pinned(alloc, reach, at, slot, held, name, token, file, pin) {
        Ok(pin) => Ok(Preserved::Tried(pin)),
        Err(stuck) => Err(empty_handed(alloc, stuck)),
    }
}

/// Adds a file to the session in hand, which admits it, once the file's pin came out so. It answers that.
fn add_pinned<R: Reach>(
    alloc: Global,
    reach: &mut R,
    at: &mut At,
    slot: SlotNo,
    held: SessionObject,
    name: Name,
    token: Token,
    file: FileNo,
    pin: Pin,
) -> Result<Pin, Stuck>
    requires ready { IsReady at.old (R.shown reach.old) }
    requires slot { slot.0 < OUT_SLOTS }
    requires file { file.0 < FILES }
    requires holds { Holds (session_no slot.0) (R.shown reach.old) (Object.Session held) }
    requires free { (R.shown reach.old).hands pool_no ≡ None }
    requires admitted { SessionIs held (λ s. refusal_of s name token.0 ≡ None) }
    requires pin { IsPin pin }
    ensures same { IfOk result (λ p. p ≡ pin) }
    ensures goes { OnOk result (Goes (after_pin slot name token file pin) at.old at.new (without (session_no slot.0) (R.shown reach.old)) (R.shown reach.new)) }
    ensures sticks { IfErr result (λ stuck. SticksAfter (λ ds. ds ≡ after_pin slot name token file pin) stuck at.old at.new (without (session_no slot.0) (R.shown reach.old)) (R.shown reach.new)) }
{
    match pin {
        Pin::Whole(order, fills, runs) => {
            mark_and_add(
                alloc, reach, at, slot, held, name, token, file, order, &runs,
            )?;
            Ok(Pin::Whole(order, fills, runs))
        }
        Pin::Starved(order, holes) => {
            let lost = Some(Reply::NoFrames);
            let _reply = add(alloc, reach, at, slot, held, name, token, file, lost)?;
            Ok(Pin::Starved(order, holes))
        }
        Pin::Refused(lost) => {
            let reply = add(alloc, reach, at, slot, held, name, token, file, Some(lost))?;
            Ok(Pin::Refused(reply))
        }
    }
}

/// Marks the runs of a file that was pinned, and adds it to the session in hand, which admits it.
fn mark_and_add<R: Reach>(
    alloc: Global,
    reach: &mut R,
    at: &mut At,
    slot: SlotNo,
    held: SessionObject,
    name: Name,
    token: Token,
    file: FileNo,
    order: Order,
    runs: &Items<Pfn>,
) -> Result<(), Stuck>
    requires ready { IsReady at.old (R.shown reach.old) }
    requires slot { slot.0 < OUT_SLOTS }
    requires file { file.0 < FILES }
    requires holds { Holds (session_no slot.0) (R.shown reach.old) (Object.Session held) }
    requires free { (R.shown reach.old).hands pool_no ≡ None }
    requires admitted { SessionIs held (λ s. refusal_of s name token.0 ≡ None) }
    requires few { length runs.now < 2 ^ 32 }
    ensures goes { OnOk result (Goes (marked order runs.now ++ added slot name token file Reply.Ok) at.old at.new (without (session_no slot.0) (R.shown reach.old)) (R.shown reach.new)) }
    ensures sticks { IfErr result (λ stuck. SticksAfter (λ ds. ds ≡ marked order runs.now ++ added slot name token file Reply.Ok) stuck at.old at.new (without (session_no slot.0) (R.shown reach.old)) (R.shown reach.new)) }
{
    if let Err(stuck) = mark_any(alloc, reach, at, order, runs.as_slice()) {
        let number = ObjectNo::of_session(slot);
        return Err(under(reach, number, Object::Session(held), stuck));
    }
    let _reply = add(alloc, reach, at, slot, held, name, token, file, None)?;
    Ok(())
}

/// Pins the frames of a file's runs, where it has some.
fn mark_any<R: Reach>(
    alloc: Global,
    reach: &mut R,
    at: &mut At,
    order: Order,
    runs: &[Pfn],
) -> Result<(), Stuck>
    requires ready { IsReady at.old (R.shown reach.old) }
    requires free { (R.shown reach.old).hands pool_no ≡ None }
    requires few { length runs.now < 2 ^ 32 }
    ensures goes { OnOk result (Goes (marked order runs.now) at.old at.new (R.shown reach.old) (R.shown reach.new)) }
    ensures sticks { IfErr result (λ stuck. Sticks at.old (turn_of (marked order runs.now)) stuck (R.shown reach.old) (R.shown reach.new)) }
    ensures same_at { OnErr result (at.new ≡ at.old) }
{
    match runs {
        [] => Ok(()),
        _ => mark(alloc, reach, at, order, runs),
    }
}
