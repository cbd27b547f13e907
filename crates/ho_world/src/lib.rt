//! The world of a kernel, what a kexec carries into the next one, and what makes a history legal, as definitions,
//! with laws of them. A law is the contract of a function without a body.
#![tactic(auto)]

ghost use Rattle.ho_world.specs.Alone.{AloneIsNext, IdleIsNext, NumberedRounds};
ghost use Rattle.ho_world.specs.Readings.{ReadingsAreLegal};
ghost use Rattle.ho_world.specs.Refusals.{QuietIsQuiet, RefusedChangesNothing};
ghost use Rattle.ho_world.specs.Through.{NumberedRises, ThroughIsLegal};

/// A list of entries that reads well in three ways is a legal history: its stamps, order and blocks are right, each
/// object's entries in each kernel are a run of its steps, and each agent's commands are whole sequences.
pub fn readings_are_legal()
    ensures { ReadingsAreLegal }
{}

/// The entries of the first blocks of a script, all whole, are legal so far.
pub fn through_is_legal_so_far()
    ensures { ThroughIsLegal }
{}

/// A quiet event leaves its object as it was, in every state, but for the number of a handler's last failure.
pub fn quiet_events_change_nothing()
    ensures { QuietIsQuiet }
{}

/// A refused preserve or kexec has quiet events alone, or besides them takes runs and gives back exactly these.
pub fn refused_changes_nothing()
    ensures { RefusedChangesNothing }
{}

/// In a script whose agents' commands are numbered from 1 on over all its blocks, as every script that is read has
/// them, an agent's later command stands in no earlier block.
pub fn numbered_scripts_have_rising_numbers()
    ensures { NumberedRises }
{}

/// In such a script the tasks of a round of one agent are exactly the commands of its section, in order, and no other
/// block has a task of these numbers.
pub fn numbered_scripts_have_rounds_of_one()
    ensures { NumberedRounds }
{}

/// What one agent that works alone in a round did takes a history through one block more, where it did whole
/// sequences of its commands, one after another, and each object's entries are a run of its steps. Its labels and the
/// last stamp are then what the entries say, and the labels of all others stay.
pub fn alone_is_next()
    ensures { AloneIsNext }
{}

/// A round without an agent takes a history through one block more, without an entry.
pub fn idle_is_next()
    ensures { IdleIsNext }
{}
