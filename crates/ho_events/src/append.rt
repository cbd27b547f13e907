//! The end of a turn: its entry is put at the end of the object's history.

ghost use Rattle.std.specs.Prelude.{◌≡◌, ◌+◌, ◌<◌, ◌^◌, ◌++◌, ◌∷◌, [], vec_len, vec_capacity};
ghost use Rattle.ho_events.specs.History.{last_stamp};
ghost use Rattle.ho_events.specs.PlainTurns.{EventIsPlain, ReplyIsPlain};
ghost use Rattle.ho_events.specs.Places.{object_at};
ghost use Rattle.ho_events.specs.Slips.{HasRoomFor, HasReplyRoomFor, entry_at};

use crate::chronicle::last_stamp_of;
use crate::copies::turn;
use crate::entry::{Entry, Place};
use crate::event::Event;
use crate::reply::Reply;
use crate::slip::{At, Lists, ReplyLists, Slip, Turned};
use ho_base::numbers::ObjectNo;

/// Puts the entry of a turn at the end of its object's history, and gives it again with its reply. It takes no
/// memory.
pub fn append_turn(
    history: &mut Vec<Entry>,
    number: ObjectNo,
    at: At,
    event: Event,
    reply: Reply,
    copy: Lists,
    value: ReplyLists,
) -> Turned<Reply>
    requires room { vec_len history.old < vec_capacity history.old }
    requires agent_stamp { at.last < 2 ^ 63 }
    requires object_stamp { last_stamp history.old.items < 2 ^ 63 }
    requires copy { HasRoomFor event reply copy }
    requires value { HasReplyRoomFor reply value }
    ensures told { result.entry ≡ entry_at at (last_stamp history.old.items) (object_at number.0) event reply }
    ensures value { result.value ≡ reply }
    ensures kept { history.new.items ≡ history.old.items ++ result.entry ∷ [] }
    ensures capacity { vec_capacity history.new ≡ vec_capacity history.old }
    ensures len { vec_len history.new ≡ vec_len history.old + 1 }
{
    let last = last_stamp_of(history);
    let (kept, told) = turn(at, last, Place::Object(number), event, reply, copy, value);
    history.push_reserved(kept);
    told
}

/// The same for a turn whose event and reply list nothing.
#[tactic(auto, using(crate::proofs::PlainTurns::plain_room, crate::proofs::PlainTurns::plain_reply_room))]
pub fn append_plain_turn(
    history: &mut Vec<Entry>,
    number: ObjectNo,
    slip: Slip,
    event: Event,
    reply: Reply,
) -> Turned<Reply>
    requires room { vec_len history.old < vec_capacity history.old }
    requires agent_stamp { slip.at.last < 2 ^ 63 }
    requires object_stamp { last_stamp history.old.items < 2 ^ 63 }
    requires event { EventIsPlain event }
    requires reply { ReplyIsPlain reply }
    ensures told { result.entry ≡ entry_at slip.at (last_stamp history.old.items) (object_at number.0) event reply }
    ensures value { result.value ≡ reply }
    ensures kept { history.new.items ≡ history.old.items ++ result.entry ∷ [] }
    ensures capacity { vec_capacity history.new ≡ vec_capacity history.old }
    ensures len { vec_len history.new ≡ vec_len history.old + 1 }
{
    let (at, _own, copy, value) = slip.open();
    append_turn(history, number, at, event, reply, copy, value)
}
