//! The command `retrieve`.

ghost use Rattle.std.specs.Prelude.{◌≡◌, ◌+◌, ◌<◌, ◌∷◌, [], IfOk, OnOk, OnErr, IfErr, None};
ghost use Rattle.std.specs.Prelude as answer;
ghost use Rattle.ho_base.specs.Objects.{file_no, session_no};
ghost use Rattle.ho_world.specs.Logs.{end_with};
ghost use Rattle.ho_world.specs.Sequences.Sessions.{retrieve_acts};
ghost use Rattle.session_core.specs.SessionValues.{SessionIs};
ghost use Rattle.session_core.specs.Taking.{found_of};
ghost use Rattle.machine_core.specs.Agents.{Agent, no_hands};
ghost use Rattle.machine_core.specs.Commands.{Comes, Halts};
ghost use Rattle.machine_core.specs.Turns.{IsReady, Goes};
ghost use Rattle.luo_calls.specs.Doing.{AreRest, AreWhole, SticksAfter};
ghost use Rattle.luo_calls.specs.Opened.{Holds, without};
ghost use Rattle.luo_calls.specs.Stuck.{Sticks};
ghost use Rattle.luo_incoming.specs.Replies.{IsTakeRefusal};
ghost use Rattle.luo_incoming.specs.Retrieving.{IsRetrieved, retrieve_deeds, slot_opened};

use crate::turns::file::open_held;
use crate::turns::registry::find_in;
use crate::turns::session::take_token;
use ho_base::limits::{FILES, IN_SLOTS, OUT_SLOTS};
use ho_base::name::Name;
use ho_base::numbers::{FileNo, NoMemory, ObjectNo, Order, SlotNo, Token};
use ho_events::command::Command;
use ho_events::reply::Reply;
use ho_events::slip::At;
use luo_calls::turns::done::end_command;
use luo_calls::turns::open::begin_session;
use luo_calls::turns::resume::under;
use luo_calls::{Stuck, release};
use machine_core::{Halt, Labels, Object, Reach};
use session_core::SessionObject;
use std::alloc::Global;

/// How the turns on a session and a file came out.
pub enum Retrieved {
    /// The session doesn't give the token's file.
    Refused(Reply),
    /// The session gives this file, a memfd of this order that it lists with this handle, and the file is open.
    Taken(FileNo, Order, u64),
}

/// Takes the file of a token out of the opened incoming session of a name, and binds the label to it: refused with
/// `NoSession` where no session of the name is opened, then with `NoToken`, then with `AlreadyTaken`.
pub fn retrieve<R: Reach>(
    alloc: Global,
    reach: &mut R,
    labels: &mut Labels,
    at: &mut At,
    name: Name,
    token: Token,
    label: Name,
) -> Result<Reply, Halt>
    requires ready { IsReady at.old (R.shown reach.old) }
    requires free { (R.shown reach.old).hands ≡ no_hands }
    ensures comes { IfOk result (λ reply. Comes labels.old.bound labels.new.bound (Command.Retrieve name token label) reply at.old at.new (R.shown reach.old) (R.shown reach.new)) }
    ensures halts { IfErr result (λ halt. Halts labels.old.bound labels.new.bound (Command.Retrieve name token label) halt at.old at.new (R.shown reach.old) (R.shown reach.new)) }
{
    match retrieve_turns(alloc, reach, labels, at, name, token, label) {
        Ok(reply) => Ok(reply),
        Err(stuck) => Err(release(reach, stuck)),
    }
}

/// The turns of a `retrieve`. The label is bound after the last of them.
fn retrieve_turns<R: Reach>(
    alloc: Global,
    reach: &mut R,
    labels: &mut Labels,
    at: &mut At,
    name: Name,
    token: Token,
    label: Name,
) -> Result<Reply, Stuck>
    requires ready { IsReady at.old (R.shown reach.old) }
    requires free { (R.shown reach.old).hands ≡ no_hands }
    ensures comes { IfOk result (λ reply. Comes labels.old.bound labels.new.bound (Command.Retrieve name token label) reply at.old at.new (R.shown reach.old) (R.shown reach.new)) }
    ensures sticks { IfErr result (λ stuck. SticksAfter (AreWhole (retrieve_acts name token)) stuck at.old at.new (R.shown reach.old) (R.shown reach.new)) }
    ensures kept { OnErr result (labels.new.bound ≡ labels.old.bound) }
{
    if let Err(NoMemory) = labels.reserve() {
        return Err(Stuck {
            halt: Halt::Memory,
            held: None,
        });
    }
    match find_in(alloc, reach, at, name)? {
        Reply::OkSlot(slot) => {
            let retrieved = retrieve_in(alloc, reach, at, slot, name, token)?;
            match retrieved {
                Retrieved::Taken(file, _order, _handle) => {
                    end_command(reach, at, Reply::Ok)?;
                    labels.bind(label, file);
                    Ok(Reply::Ok)
                }
                Retrieved::Refused(reply) => end_refused(reach, at, reply),
            }
        }
        Reply::NoSession => {
            end_command(reach, at, Reply::NoSession)?;
            Ok(Reply::NoSession)
        }
        _ => unreachable!(),
    }
}

/// One of the replies of a session that doesn't give a file, twice.
fn twice(reply: Reply) -> (Reply, Reply)
    requires { IsTakeRefusal reply }
    ensures first { result.0 ≡ reply }
    ensures second { result.1 ≡ reply }
{
    match reply {
        Reply::NoSession => (Reply::NoSession, Reply::NoSession),
        Reply::NoToken => (Reply::NoToken, Reply::NoToken),
        Reply::AlreadyTaken => (Reply::AlreadyTaken, Reply::AlreadyTaken),
        _ => unreachable!(),
    }
}

/// Ends a refused `retrieve` with its reply, and answers that.
fn end_refused<R: Reach>(reach: &mut R, at: &mut At, reply: Reply) -> Result<Reply, Stuck>
    requires ready { IsReady at.old (R.shown reach.old) }
    requires reply { IsTakeRefusal reply }
    ensures told { IfOk result (λ told. told ≡ reply) }
    ensures goes { OnOk result (Goes (end_with reply ∷ []) at.old at.new (R.shown reach.old) (R.shown reach.new)) }
    ensures sticks { IfErr result (λ stuck. Sticks at.old None stuck (R.shown reach.old) (R.shown reach.new)) }
    ensures same_at { OnErr result (at.new ≡ at.old) }
{
    let (last, told) = twice(reply);
    end_command(reach, at, last)?;
    Ok(told)
}

/// Takes the file of a token out of the session of a slot, which is in hand over the other turns.
fn retrieve_in<R: Reach>(
    alloc: Global,
    reach: &mut R,
    at: &mut At,
    slot: SlotNo,
    name: Name,
    token: Token,
) -> Result<Retrieved, Stuck>
    requires ready { IsReady at.old (R.shown reach.old) }
    requires slot { slot.0 < OUT_SLOTS + IN_SLOTS }
    requires free { (R.shown reach.old).hands ≡ no_hands }
    ensures goes { IfOk result (λ r. Goes (retrieve_deeds slot name token r) at.old at.new (R.shown reach.old) (R.shown reach.new)) }
    ensures told { IfOk result IsRetrieved }
    ensures sticks { IfErr result (λ stuck. SticksAfter (AreRest (retrieve_acts name token) (slot_opened name slot)) stuck at.old at.new (R.shown reach.old) (R.shown reach.new)) }
{
    let held = begin_session(reach, *at, slot)?;
    match held.find(name, token) {
        Ok(found) => open_and_take(alloc, reach, at, slot, held, name, token, found.0, found.1),
        Err(_refusal) => {
            let reply = take_token(alloc, reach, at, slot, held, name, token)?;
            Ok(Retrieved::Refused(reply))
        }
    }
}

/// Opens a file that the session in hand lists under a token, and takes it out of the session.
fn open_and_take<R: Reach>(
    alloc: Global,
    reach: &mut R,
    at: &mut At,
    slot: SlotNo,
    held: SessionObject,
    name: Name,
    token: Token,
    file: FileNo,
    handle: u64,
) -> Result<Retrieved, Stuck>
    requires ready { IsReady at.old (R.shown reach.old) }
    requires slot { slot.0 < OUT_SLOTS + IN_SLOTS }
    requires file { file.0 < FILES }
    requires holds { Holds (session_no slot.0) (R.shown reach.old) (Object.Session held) }
    requires free { (R.shown reach.old).hands (file_no file.0) ≡ None }
    requires found { SessionIs held (λ s. found_of s name token.0 ≡ answer.Ok (file, handle)) }
    ensures goes { IfOk result (λ r. Goes (retrieve_deeds slot name token r) at.old at.new (without (session_no slot.0) (R.shown reach.old)) (R.shown reach.new)) }
    ensures told { IfOk result IsRetrieved }
    ensures sticks { IfErr result (λ stuck. SticksAfter (AreRest (retrieve_acts name token) (slot_opened name slot)) stuck at.old at.new (without (session_no slot.0) (R.shown reach.old)) (R.shown reach.new)) }
{
    let order = match open_held(alloc, reach, at, file) {
        Ok(order) => order,
        Err(stuck) => {
            let number = ObjectNo::of_session(slot);
            return Err(under(reach, number, Object::Session(held), stuck));
        }
    };
    let _reply = take_token(alloc, reach, at, slot, held, name, token)?;
    Ok(Retrieved::Taken(file, order, handle))
}
