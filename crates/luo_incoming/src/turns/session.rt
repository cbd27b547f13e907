//! The turns on a slot with an incoming session.

ghost use Rattle.std.specs.Prelude.{◌≡◌, ◌+◌, ◌<◌, ◌∷◌, [], IfOk, OnOk, OnErr, IfErr, None, List};
ghost use Rattle.ho_base.specs.Objects.{session_no};
ghost use Rattle.ho_events.specs.Session.{is_in};
ghost use Rattle.ho_world.specs.Acts.{Claim};
ghost use Rattle.ho_world.specs.Logs.{deed_at, AreClaimed};
ghost use Rattle.session_core.specs.Sessions.{finish_answer};
ghost use Rattle.session_core.specs.SessionValues.{SessionIs};
ghost use Rattle.session_core.specs.Taking.{found_of, take_answer};
ghost use Rattle.machine_core.specs.Agents.{Agent, begun};
ghost use Rattle.machine_core.specs.Turns.{IsReady, Goes};
ghost use Rattle.luo_calls.specs.Opened.{Holds, without};
ghost use Rattle.luo_calls.specs.Stuck.{Sticks, turn};

use ho_base::limits::{IN_SLOTS, OUT_SLOTS};
use ho_base::name::Name;
use ho_base::numbers::{NoMemory, ObjectNo, SlotNo, Token};
use ho_events::event::Event;
use ho_events::reply::Reply;
use ho_events::slip::{At, Listed, Turned};
use luo_calls::Stuck;
use luo_calls::turns::open;
use luo_calls::turns::resume::{resume, under};
use machine_core::{Halt, Object, Reach};
use session_core::SessionObject;
use std::alloc::Global;

/// Opens the incoming session of a name.
pub fn open_session<R: Reach>(
    alloc: Global,
    reach: &mut R,
    at: &mut At,
    slot: SlotNo,
    name: Name,
) -> Result<(), Stuck>
    requires ready { IsReady at.old (R.shown reach.old) }
    requires slot { slot.0 < OUT_SLOTS + IN_SLOTS }
    requires free { (R.shown reach.old).hands (session_no slot.0) ≡ None }
    ensures goes { OnOk result (Goes (deed_at (session_no slot.0) [] (Event.SessionOpen name) Reply.Ok ∷ []) at.old at.new (R.shown reach.old) (R.shown reach.new)) }
    ensures sticks { IfErr result (λ stuck. Sticks at.old (turn (session_no slot.0) (Event.SessionOpen name)) stuck (R.shown reach.old) (R.shown reach.new)) }
    ensures same_at { OnErr result (at.new ≡ at.old) }
{
    let (slip, mut session) = open::open_session(alloc, reach, *at, slot, Listed::nothing())?;
    let number = ObjectNo::of_session(slot);
    if !session.waits(name) {
        return Err(Stuck {
            halt: Halt::Broken(number),
            held: Some((number, Object::Session(session))),
        });
    }
    let Turned { entry, value: _ } = session.open(slip, name);
    at.last = entry.stamp;
    reach.end(number, Object::Session(session), Some(entry));
    Ok(())
}

/// Ends the turn of a session in hand with taking the file of a token, or with the session's refusal. What is known of
/// the objects in hand may be read at this turn.
pub fn take_token<R: Reach>(
    alloc: Global,
    reach: &mut R,
    at: &mut At,
    slot: SlotNo,
    mut held: SessionObject,
    name: Name,
    token: Token,
) -> Result<Reply, Stuck>
    requires ready { IsReady at.old (R.shown reach.old) }
    requires slot { slot.0 < OUT_SLOTS + IN_SLOTS }
    requires holds { Holds (session_no slot.0) (R.shown reach.old) (Object.Session held) }
    ensures answer { IfOk result (λ reply. SessionIs held (λ s. reply ≡ take_answer (found_of s name token.0) None)) }
    ensures goes { IfOk result (λ reply. (claims : List Claim) → AreClaimed (begun (R.shown reach.old)) (R.shown reach.old).hands claims → Goes (deed_at (session_no slot.0) claims (Event.SessionTake name token) reply ∷ []) at.old at.new (without (session_no slot.0) (R.shown reach.old)) (R.shown reach.new)) }
    ensures sticks { IfErr result (λ stuck. Sticks at.old (turn (session_no slot.0) (Event.SessionTake name token)) stuck (without (session_no slot.0) (R.shown reach.old)) (R.shown reach.new)) }
    ensures same_at { OnErr result (at.new ≡ at.old) }
{
    let number = ObjectNo::of_session(slot);
    let slip = match resume(alloc, reach, *at, Listed::nothing()) {
        Ok(slip) => slip,
        Err(stuck) => return Err(under(reach, number, Object::Session(held), stuck)),
    };
    if let Err(NoMemory) = held.reserve(1, 0) {
        return Err(Stuck {
            halt: Halt::Memory,
            held: Some((number, Object::Session(held))),
        });
    }
    let Turned { entry, value } = held.take(slip, name, token, None);
    at.last = entry.stamp;
    reach.end(number, Object::Session(held), Some(entry));
    Ok(value)
}

/// Ends the turn of a session in hand with its end, or with `NoSession` where it isn't the opened incoming one of this
/// name. What is known of the objects in hand may be read at this turn.
pub fn finish_session<R: Reach>(
    alloc: Global,
    reach: &mut R,
    at: &mut At,
    slot: SlotNo,
    mut held: SessionObject,
    name: Name,
) -> Result<Reply, Stuck>
    requires ready { IsReady at.old (R.shown reach.old) }
    requires slot { slot.0 < OUT_SLOTS + IN_SLOTS }
    requires holds { Holds (session_no slot.0) (R.shown reach.old) (Object.Session held) }
    ensures answer { IfOk result (λ reply. SessionIs held (λ s. reply ≡ finish_answer (is_in s name) None)) }
    ensures goes { IfOk result (λ reply. (claims : List Claim) → AreClaimed (begun (R.shown reach.old)) (R.shown reach.old).hands claims → Goes (deed_at (session_no slot.0) claims (Event.SessionFinish name) reply ∷ []) at.old at.new (without (session_no slot.0) (R.shown reach.old)) (R.shown reach.new)) }
    ensures sticks { IfErr result (λ stuck. Sticks at.old (turn (session_no slot.0) (Event.SessionFinish name)) stuck (without (session_no slot.0) (R.shown reach.old)) (R.shown reach.new)) }
    ensures same_at { OnErr result (at.new ≡ at.old) }
{
    let number = ObjectNo::of_session(slot);
    let slip = match resume(alloc, reach, *at, Listed::nothing()) {
        Ok(slip) => slip,
        Err(stuck) => return Err(under(reach, number, Object::Session(held), stuck)),
    };
    if let Err(NoMemory) = held.reserve(1, 0) {
        return Err(Stuck {
            halt: Halt::Memory,
            held: Some((number, Object::Session(held))),
        });
    }
    let Turned { entry, value } = held.finish(slip, name, None);
    at.last = entry.stamp;
    reach.end(number, Object::Session(held), Some(entry));
    Ok(value)
}
