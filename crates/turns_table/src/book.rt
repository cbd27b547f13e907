//! What a pass does with its logs alone.

ghost use Rattle.std.specs.Prelude.{◌≡◌, ◌≢◌, ℕ, ◌+◌, ◌<◌, ◌≤◌, ◌++◌, ◌∷◌, [], List, OnOk};
ghost use Rattle.ho_events.specs.declared.entry.Entry.{Entry};
ghost use Rattle.ho_events.specs.declared.entry.Place.TheVariants.{Own};
ghost use Rattle.turns_table.specs.declared.rule.Role.TheVariants.{Has};
ghost use Rattle.turns_table.specs.Views.{role, agents, IsOnly};
ghost use Rattle.turns_table.specs.Passes.{view, log_of, room};

use crate::pass::Pass;
use crate::turns::Turns;
use ho_base::numbers::NoMemory;
use ho_events::chronicle::Chronicle;
use ho_events::entry::Entry;

impl<T: Chronicle> Turns<T> {
    /// Makes room for so many more entries in the log of the pass's only agent number.
    pub fn reserve(pass: &mut Pass<T>, entries: u32) -> Result<(), NoMemory>
        ensures seat { pass.new.seat ≡ pass.old.seat }
        ensures logs { (a : ℕ) → log_of pass.new a ≡ log_of pass.old a }
        ensures room { OnOk result (entries ≤ room pass.new) }
    {
        let number = pass.logs.number;
        match pass.logs.reserve(number, entries as usize) {
            Ok(()) => Ok(()),
            Err(_) => Err(NoMemory),
        }
    }

    /// Adds an entry of the agent's own to the log of the pass's only agent number. It takes no memory and makes no
    /// step on a word.
    pub fn own(pass: &mut Pass<T>, entry: Entry)
        requires number { (log : List (List Entry × Entry)) × (role (view pass.old) entry.agent.0 ≡ Has log) }
        requires only { IsOnly (view pass.old) entry.agent.0 }
        requires range { entry.agent.0 < agents }
        requires place { entry.object ≡ Own }
        requires room { 0 < room pass.old }
        ensures seat { pass.new.seat ≡ pass.old.seat }
        ensures log { log_of pass.new entry.agent.0 ≡ log_of pass.old entry.agent.0 ++ entry ∷ [] }
        ensures others { (a : ℕ) → a ≢ entry.agent.0 → log_of pass.new a ≡ log_of pass.old a }
        ensures room_left { room pass.new + 1 ≡ room pass.old }
    {
        pass.logs.book(entry);
    }
}
