//! The rule of the table, and what its steps tell.

ghost use Rattle.std.specs.Prelude.{ℕ};
ghost use Rattle.turns_table.specs.Rule.{Ruled};
ghost use Rattle.turns_table.specs.Views.{first, spent, joined, gave, given};
ghost use Rattle.turns_table.specs.Plays.{tried, entered, released};

use atomic_table::{Join, Play, Split, TableRule};
use ho_events::chronicle::Chronicle;
use ho_events::entry::Entry;
use std::collections::LinkedList;
use std::marker::{Brand, PhantomData};
use std::snapshot::Snapshot;

/// What a pass has to do with an agent number.
pub enum Role {
    /// Another pass has the number, or may give it.
    Absent,
    /// It may still give the number.
    Spare,
    /// The number is its own: the entries on objects, and beside each the history that its object had just before it.
    Has(LinkedList<(LinkedList<Entry>, Entry)>),
}

/// What a pass knows. No value of it is made.
pub struct Known<T> {
    /// The objects that it found held.
    pub missed: LinkedList<u64>,
    /// By agent number.
    pub roles: LinkedList<Role>,
    /// By object number: the objects that it holds, as it found them.
    pub held: LinkedList<Option<T>>,
    /// The objects at the beginning. A pass that was joined to another has none.
    pub opening: LinkedList<T>,
    /// The last object that it let go without an entry, and its history.
    pub last: Option<(u64, LinkedList<Entry>)>,
}

/// The rule of the table: what its words, its slots and the views keep between any two steps.
pub struct Turning<T> {
    marker: PhantomData<T>,
}

impl<T: Chronicle> TableRule<Option<T>, Known<T>, Snapshot<Vec<T>>> for Turning<T> {
    ghost holds = { λ key. Ruled T.start T.history T.balanced key.value.items };

    ghost first = { λ key. first key.value.items };
}

/// The step that tries to take an object: its word's lowest bit is set.
pub struct Try<T> {
    marker: PhantomData<T>,
}

impl<T: Chronicle> Play<Option<T>, Known<T>> for Try<T> {
    ghost then = { tried T.start T.history T.balanced };
}

/// The step that ends a turn with an entry: one more in the word, which is even then.
pub struct Enter<T> {
    marker: PhantomData<T>,
}

impl<T: Chronicle> Play<Option<T>, Known<T>> for Enter<T> {
    ghost then = { entered T.start T.history T.balanced };
}

/// The step that ends a turn without an entry: one less in the word, which is even again.
pub struct Release<T> {
    marker: PhantomData<T>,
}

impl<T: Chronicle> Play<Option<T>, Known<T>> for Release<T> {
    ghost then = { released T.start T.history T.balanced };
}

/// Names an agent number in a proof.
pub trait Numbered {
    ghost number: { ℕ };
}

impl Numbered for Brand {
    ghost number = { 0 };
}

/// How a pass gives the number that `B` names to a new pass.
pub struct Cut<B> {
    marker: PhantomData<B>,
}

impl<T, B: Numbered> Split<Known<T>> for Cut<B> {
    ghost left = { gave B.number };

    ghost right = { given B.number };
}

/// How a pass takes in another's numbers.
pub struct Both;

impl<T> Join<Known<T>> for Both {
    ghost both = { joined };

    ghost spent = { spent };
}
