//! How a command reaches the objects: one turn at a time.

ghost use Rattle.std.specs.Prelude.{◌≡◌, ◌≢◌, ◌≤◌, OnOk, None};
ghost use Rattle.machine_core.specs.Objects.{NoSpot, spot_at, known_of};
ghost use Rattle.machine_core.specs.Agents.{Agent, CanEnd, EndsCommand, Found, HasEnded, Logged, took};

use crate::object::Object;
use ho_base::numbers::{NoMemory, ObjectNo};
use ho_events::entry::Entry;

/// Where an agent takes objects and gives them back, one turn at a time.
pub trait Reach {
    /// The agent: who it is, its log, and what it has in hand.
    ghost shown: { Self → Agent };

    /// Takes an object, which isn't in hand.
    fn begin(&mut self, object: ObjectNo) -> Object
        requires there { spot_at object.0 ≢ NoSpot }
        requires free { (shown self.old).hands object.0 ≡ None }
        ensures found { Found (shown self.old) object.0 result }
        ensures taken { shown self.new ≡ took object.0 (known_of result) (shown self.old) };

    /// Gives an object back, with the entry of the turn or without one. It takes no memory.
    fn end(&mut self, object: ObjectNo, state: Object, entry: Option<Entry>)
        requires { CanEnd (shown self.old) object.0 state entry ((shown self.old).hands object.0) }
        ensures { HasEnded (shown self.old) object.0 entry ((shown self.old).hands object.0) (shown self.new) };

    /// Makes room for more entries in the agent's log.
    fn room(&mut self, entries: u32) -> Result<(), NoMemory>
        ensures room { OnOk result (entries ≤ (shown self.new).room) }
        ensures kept { shown self.new ≡ record (shown self.old) { room = (shown self.new).room } };

    /// Adds the end of a command to the agent's own log. It takes no memory.
    fn own(&mut self, entry: Entry)
        requires { EndsCommand (shown self.old) entry }
        ensures { Logged (shown self.old) entry (shown self.new) };
}
