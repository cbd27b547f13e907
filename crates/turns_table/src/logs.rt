//! The logs that a pass keeps, by agent number.

ghost use Rattle.std.specs.Prelude.{◌≡◌, ◌≢◌, ℕ, ◌+◌, ◌≤◌, ◌<◌, ◌++◌, ◌∷◌, [], true, false, cond, length, IfOk, OnOk};
ghost use Rattle.turns_table.specs.Views.{agents};
ghost use Rattle.turns_table.specs.Kept.{items_at, room_at, has_at};

use ho_events::entry::Entry;
use std::alloc::{AllocError, Global};

/// A log for each agent number, and which numbers a pass has or may give. A join can't learn otherwise, at run time,
/// which of two logs of a number is the one with entries.
#[derive(Drop)]
pub struct Logs {
    pub(crate) logs: Vec<Vec<Entry>>,
    pub(crate) has: Vec<bool>,
    /// A number that the pass has: the only one, where it has no other.
    pub(crate) number: usize,
    ghost many: { (length logs.items ≡ agents) × (length has.items ≡ agents) },
}

impl Logs {
    /// Empty logs, with each number or with none.
    pub(crate) fn empty(alloc: Global, has: bool) -> Result<Logs, AllocError>
        ensures logs { IfOk result (λ l. (a : ℕ) → (a < agents → has_at l.has.items a ≡ has) × (items_at l.logs.items a ≡ [])) }
        ensures number { IfOk result (λ l. l.number ≡ 0) }
    {
        let mut logs = Vec::with_capacity(alloc, 256)?;
        let mut flags = Vec::with_capacity(alloc, 256)?;
        for _ in 0..256usize {
            logs.push_reserved(Vec::new(alloc));
            flags.push_reserved(has);
        }
        Ok(Logs {
            logs,
            has: flags,
            number: 0,
        })
    }

    /// Adds an entry to an agent's log. It takes no memory.
    pub(crate) fn push(&mut self, agent: usize, entry: Entry)
        requires { (agent < agents) × (0 < room_at self.old.logs.items agent) }
        ensures here { items_at self.new.logs.items agent ≡ items_at self.old.logs.items agent ++ entry ∷ [] }
        ensures others { (a : ℕ) → a ≢ agent → items_at self.new.logs.items a ≡ items_at self.old.logs.items a }
        ensures room { room_at self.new.logs.items agent + 1 ≡ room_at self.old.logs.items agent }
        ensures has { self.new.has ≡ self.old.has }
        ensures number { self.new.number ≡ self.old.number }
    {
        self.logs[agent].push_reserved(entry);
    }

    /// Adds an entry to its agent's log. It takes no memory.
    pub(crate) fn book(&mut self, entry: Entry)
        requires { (entry.agent.0 < agents) × (0 < room_at self.old.logs.items entry.agent.0) }
        ensures here { items_at self.new.logs.items entry.agent.0 ≡ items_at self.old.logs.items entry.agent.0 ++ entry ∷ [] }
        ensures others { (a : ℕ) → a ≢ entry.agent.0 → items_at self.new.logs.items a ≡ items_at self.old.logs.items a }
        ensures room { room_at self.new.logs.items entry.agent.0 + 1 ≡ room_at self.old.logs.items entry.agent.0 }
        ensures has { self.new.has ≡ self.old.has }
        ensures number { self.new.number ≡ self.old.number }
    {
        self.push(usize::from(entry.agent.0), entry);
    }

    /// Makes room for entries in an agent's log.
    pub(crate) fn reserve(&mut self, agent: usize, entries: usize) -> Result<(), AllocError>
        requires { agent < agents }
        ensures same { (a : ℕ) → items_at self.new.logs.items a ≡ items_at self.old.logs.items a }
        ensures room { OnOk result (entries ≤ room_at self.new.logs.items agent) }
        ensures has { self.new.has ≡ self.old.has }
        ensures number { self.new.number ≡ self.old.number }
    {
        self.logs[agent].reserve(entries)
    }

    /// Sets whether the pass has the number.
    pub(crate) fn set_has(&mut self, agent: usize, has: bool)
        requires { agent < agents }
        ensures here { has_at self.new.has.items agent ≡ has }
        ensures others { (a : ℕ) → a ≢ agent → has_at self.new.has.items a ≡ has_at self.old.has.items a }
        ensures logs { self.new.logs ≡ self.old.logs }
        ensures number { self.new.number ≡ self.old.number }
    {
        self.has[agent] = has;
    }

    /// The first number that the pass has.
    pub(crate) fn first(&self) -> usize
        requires some { (a : ℕ) × (a < agents) × (has_at self.now.has.items a ≡ true) }
        ensures { has_at self.now.has.items result ≡ true }
    {
        for agent in 0..self.has.len() {
            if self.has[agent] {
                return agent;
            }
        }
        unreachable!()
    }

    /// Takes in the logs of the numbers that it has not. It takes no memory.
    pub(crate) fn take_in(&mut self, other: Logs)
        ensures logs { (a : ℕ) → items_at self.new.logs.items a ≡ cond (has_at self.old.has.items a) (items_at self.old.logs.items a) (items_at other.logs.items a) }
        ensures has { (a : ℕ) → has_at self.new.has.items a ≡ cond (has_at self.old.has.items a) true (has_at other.has.items a) }
        ensures number { self.new.number ≡ self.old.number }
    {
        let Logs {
            mut logs,
            has,
            number: _,
        } = other;
        while let Some(log) = logs.pop() {
            let agent = logs.len();
            if !self.has[agent] {
                self.has[agent] = has[agent];
                self.logs[agent] = log;
            }
        }
    }

    /// The logs, by agent number.
    pub(crate) fn into_logs(self) -> Vec<Vec<Entry>>
        ensures { (result ≡ self.logs) × (length result.items ≡ agents) }
    {
        let Logs {
            logs,
            has: _,
            number: _,
        } = self;
        logs
    }
}
