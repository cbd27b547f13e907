//! The turns on a session slot.

ghost use Rattle.std.specs.Prelude.{◌≡◌, ◌<◌, ◌∷◌, [], IfOk, OnOk, OnErr, IfErr, IfSome, IsTrue, None, List};
ghost use Rattle.ho_base.specs.Objects.{session_no};
ghost use Rattle.ho_events.specs.Session.{is_out};
ghost use Rattle.ho_world.specs.Acts.{Claim};
ghost use Rattle.ho_world.specs.Logs.{deed_at, AreClaimed};
ghost use Rattle.session_core.specs.Sessions.{add_answer, close_answer, is_loss, refusal_of};
ghost use Rattle.session_core.specs.SessionValues.{SessionIs};
ghost use Rattle.machine_core.specs.Agents.{Agent, begun};
ghost use Rattle.machine_core.specs.Turns.{IsReady, Goes};
ghost use Rattle.luo_calls.specs.Opened.{Holds, without};
ghost use Rattle.luo_calls.specs.Stuck.{Sticks, turn};

use crate::stuck::Stuck;
use crate::turns::open::open_session;
use crate::turns::resume::{resume, under};
use ho_base::limits::{FILES, OUT_SLOTS};
use ho_base::name::Name;
use ho_base::numbers::{FileNo, NoMemory, ObjectNo, SlotNo, Token};
use ho_events::event::Event;
use ho_events::reply::Reply;
use ho_events::slip::{At, Listed, Turned};
use machine_core::{Halt, Object, Reach};
use session_core::SessionObject;
use std::alloc::Global;

/// Makes a free slot the outgoing session of a name.
pub fn begin_out<R: Reach>(
    alloc: Global,
    reach: &mut R,
    at: &mut At,
    slot: SlotNo,
    name: Name,
) -> Result<(), Stuck>
    requires ready { IsReady at.old (R.shown reach.old) }
    requires slot { slot.0 < OUT_SLOTS }
    requires free { (R.shown reach.old).hands (session_no slot.0) ≡ None }
    ensures goes { OnOk result (Goes (deed_at (session_no slot.0) [] (Event.SessionBegin name) Reply.Ok ∷ []) at.old at.new (R.shown reach.old) (R.shown reach.new)) }
    ensures sticks { IfErr result (λ stuck. Sticks at.old (turn (session_no slot.0) (Event.SessionBegin name)) stuck (R.shown reach.old) (R.shown reach.new)) }
    ensures same_at { OnErr result (at.new ≡ at.old) }
{
    let (slip, mut session) = open_session(alloc, reach, *at, slot, Listed::nothing())?;
    let number = ObjectNo::of_session(slot);
    if !session.is_free() {
        return Err(Stuck {
            halt: Halt::Broken(number),
            held: Some((number, Object::Session(session))),
        });
    }
    let Turned { entry, value: _ } = session.begin(slip, name);
    at.last = entry.stamp;
    reach.end(number, Object::Session(session), Some(entry));
    Ok(())
}

/// Ends the turn of a session in hand with adding a file to it, or with the refusal that the session or the caller has.
pub fn add<R: Reach>(
    alloc: Global,
    reach: &mut R,
    at: &mut At,
    slot: SlotNo,
    mut held: SessionObject,
    name: Name,
    token: Token,
    file: FileNo,
    lost: Option<Reply>,
) -> Result<Reply, Stuck>
    requires ready { IsReady at.old (R.shown reach.old) }
    requires slot { slot.0 < OUT_SLOTS }
    requires holds { Holds (session_no slot.0) (R.shown reach.old) (Object.Session held) }
    requires file { file.0 < FILES }
    requires lost { IfSome lost (λ reply. IsTrue (is_loss reply)) }
    ensures answer { IfOk result (λ reply. SessionIs held (λ s. reply ≡ add_answer (refusal_of s name token.0) lost)) }
    ensures goes { IfOk result (λ reply. Goes (deed_at (session_no slot.0) [] (Event.SessionAdd name token file 0) reply ∷ []) at.old at.new (without (session_no slot.0) (R.shown reach.old)) (R.shown reach.new)) }
    ensures sticks { IfErr result (λ stuck. Sticks at.old (turn (session_no slot.0) (Event.SessionAdd name token file 0)) stuck (without (session_no slot.0) (R.shown reach.old)) (R.shown reach.new)) }
    ensures same_at { OnErr result (at.new ≡ at.old) }
{
    let number = ObjectNo::of_session(slot);
    let slip = match resume(alloc, reach, *at, Listed::nothing()) {
        Ok(slip) => slip,
        Err(stuck) => return Err(under(reach, number, Object::Session(held), stuck)),
    };
    if let Err(NoMemory) = held.reserve(1, 1) {
        return Err(Stuck {
            halt: Halt::Memory,
            held: Some((number, Object::Session(held))),
        });
    }
    let Turned { entry, value } = held.add(slip, name, token, file, 0, lost);
    at.last = entry.stamp;
    reach.end(number, Object::Session(held), Some(entry));
    Ok(value)
}

/// Ends the turn of a session in hand with its end, or with `NoSession` where it isn't the outgoing one of this name.
/// What is known of the objects in hand may be read at this turn.
pub fn end_session<R: Reach>(
    alloc: Global,
    reach: &mut R,
    at: &mut At,
    slot: SlotNo,
    mut held: SessionObject,
    name: Name,
) -> Result<Reply, Stuck>
    requires ready { IsReady at.old (R.shown reach.old) }
    requires slot { slot.0 < OUT_SLOTS }
    requires holds { Holds (session_no slot.0) (R.shown reach.old) (Object.Session held) }
    ensures answer { IfOk result (λ reply. SessionIs held (λ s. reply ≡ close_answer (is_out s name))) }
    ensures goes { IfOk result (λ reply. (claims : List Claim) → AreClaimed (begun (R.shown reach.old)) (R.shown reach.old).hands claims → Goes (deed_at (session_no slot.0) claims (Event.SessionClose name) reply ∷ []) at.old at.new (without (session_no slot.0) (R.shown reach.old)) (R.shown reach.new)) }
    ensures sticks { IfErr result (λ stuck. Sticks at.old (turn (session_no slot.0) (Event.SessionClose name)) stuck (without (session_no slot.0) (R.shown reach.old)) (R.shown reach.new)) }
    ensures same_at { OnErr result (at.new ≡ at.old) }
{
    let number = ObjectNo::of_session(slot);
    let slip = match resume(alloc, reach, *at, Listed::nothing()) {
        Ok(slip) => slip,
        Err(stuck) => return Err(under(reach, number, Object::Session(held), stuck)),
    };
    if let Err(NoMemory) = held.reserve(1, 0) {
        return Err(Stuck {
            halt: Halt::Memory,
            held: Some((number, Object::Session(held))),
        });
    }
    let Turned { entry, value } = held.close(slip, name);
    at.last = entry.stamp;
    reach.end(number, Object::Session(held), Some(entry));
    Ok(value)
}
