//! An object that keeps its history and no more.

ghost use Rattle.std.specs.Prelude.{◌≡◌, ◌++◌, ◌∷◌, [], ◌<◌, ◌≤◌, vec_len, vec_capacity};
ghost use Rattle.ho_events.specs.declared.entry.Entry.{Entry};
ghost use Rattle.ho_events.specs.declared.entry.Place.TheVariants.{Object};
ghost use Rattle.ho_events.specs.declared.event.Event.TheVariants.{SelfDone};
ghost use Rattle.ho_events.specs.declared.reply.Reply.TheVariants.{Ok as OkReply};

use ho_base::numbers::{AgentNo, ObjectNo};
use ho_events::chronicle::{Chronicle, Recorded, last_stamp_of};
use ho_events::entry::{Entry, Place};
use ho_events::event::Event;
use ho_events::reply::Reply;

/// An object that keeps its history and no more.
#[derive(Drop)]
pub struct Tally {
    pub number: u16,
    pub entries: Vec<Entry>,
}

impl Recorded for Tally {
    ghost history = { λ t. t.entries.items };

    fn entries(&self) -> &[Entry] {
        self.entries.as_slice()
    }

    fn last_stamp(&self) -> u64 {
        last_stamp_of(self.entries.as_slice())
    }
}

impl Chronicle for Tally {
    type Start = u16;

    ghost start = { λ t. t.number };

    ghost fits = { λ _ _ _ _. Unit {0} };

    ghost balanced = { λ _ _ _. Unit {0} };

    ghost keeps = { λ _ _ _ _ _ _ _ _ _ _ _ _ _ _ _. tt };
}

/// An entry of an agent on an object.
pub fn entry(stamp: u64, agent: AgentNo, object: ObjectNo) -> Entry
    ensures { result ≡ record { kernel = 0; stamp = stamp; agent = agent; command = 1; object = Object object; event = SelfDone; reply = OkReply } }
{
    Entry {
        kernel: 0,
        stamp,
        agent,
        command: 1,
        object: Place::Object(object),
        event: Event::SelfDone,
        reply: Reply::Ok,
    }
}
