//! What has a history, and what all histories together keep.

ghost use Rattle.std.specs.Prelude.{◌≡◌, ℕ, ◌<◌, ◌++◌, ◌∷◌, [], List, length, slice_index_or, slice_set};
ghost use mathlib.Core.Option.{some};
ghost use lib.ListN.{get_elem?};
ghost use Rattle.ho_events.specs.declared.entry.Entry.{Entry};
ghost use Rattle.ho_events.specs.declared.entry.Place.TheVariants.{Object};
ghost use Rattle.ho_events.specs.History.{last_stamp};

use crate::entry::Entry;

/// An object that keeps the entries of all turns on it.
pub trait Recorded {
    /// The object's entries in order.
    ghost history: { Self → List Entry };

    /// The object's entries in order.
    fn entries(&self) -> &[Entry]
        ensures { result.now ≡ history self.now };

    /// The stamp of the object's last entry, and 0 where it has none.
    fn last_stamp(&self) -> u64
        ensures { result ≡ last_stamp (history self.now) };
}

/// An object that agents take turns with, and what the histories of all objects keep together with the agents' logs.
/// It needs no `Drop`: an object may hold what has to be given back.
pub trait Chronicle: Recorded {
    /// What an object is before the first entry of its history, as plain data.
    type Start;

    /// What the object was before the first entry of its history. No turn changes it.
    ghost start: { Self → Self.Start };

    /// Which entry may end a turn: by the agent's entries on objects, the object's start and its history so far.
    ghost fits: { List Entry → Self.Start → List Entry → Entry → Type 0 };

    /// What is true of all starts and histories, by object number, and of all agents' entries on objects, by agent
    /// number.
    ghost balanced: { List Self.Start → List (List Entry) → List (List Entry) → Type 0 };

    /// A turn that ends with an entry that fits keeps the balance.
    ghost keeps: { (starts : List Self.Start) (histories logs : List (List Entry)) (k : ℕ) (at : Self.Start) (before : List Entry) (e : Entry) → balanced starts histories logs → get_elem? starts k ≡ some at → get_elem? histories k ≡ some before → (o : _) → e.object ≡ Object o → o.0 ≡ k → e.agent.0 < length logs → fits (slice_index_or logs e.agent.0 []) at before e → balanced starts (slice_set histories k (before ++ e ∷ [])) (slice_set logs e.agent.0 (slice_index_or logs e.agent.0 [] ++ e ∷ [])) };
}

/// The stamp of the last of some entries, and 0 where there is none.
#[tactic(auto, using(crate::proofs::Runs::last_stamp_at, crate::proofs::Runs::last_stamp_none))]
pub fn last_stamp_of(entries: &[Entry]) -> u64
    ensures { result ≡ last_stamp entries.now }
{
    if entries.is_empty() {
        return 0;
    }
    entries[entries.len() - 1].stamp
}
