//! Laws of sound worlds over histories: what an agent does alone keeps a kernel's world sound, and so does a kexec that is
//! refused; after a kexec that is answered Ok the next kernel begins in a sound world. A law is the contract of a function
//! without a body.
#![tactic(auto)]

ghost use Rattle.sound_histories.specs.Binding.{OnceMayCome, ReadBindsOnce};
ghost use Rattle.sound_histories.specs.Blocks.{RoundKeeps, RefusedBlockKeeps, EndedBlockKeeps};
ghost use Rattle.sound_histories.specs.Kept.{WorkKeeps, TakenFreezesSame, KexecKeeps, KexecBeginsSound};
ghost use Rattle.sound_histories.specs.Scripts.{ReadIsSound, BegunStands, ColdStands, RoundStands, RefusedStands, EndedStands};
ghost use Rattle.sound_histories.specs.Worlds.{EntriesAreActs};

/// Entries that were done as a whole sequence are its acts, one after another, from the world before them to the world
/// after them.
pub fn entries_are_acts()
    ensures { EntriesAreActs }
{}

/// Commands that one agent does alone keep a world sound, where each of them may come with the labels at its moment.
pub fn work_keeps()
    ensures { WorkKeeps }
{}

/// A kexec of a sound world that is answered Ok freezes what the world has before it: the frames that it takes are of no
/// file.
pub fn taken_freezes_same()
    ensures { TakenFreezesSame }
{}

/// A kexec that is refused keeps a world sound, with the same labels.
pub fn kexec_keeps()
    ensures { KexecKeeps }
{}

/// After a kexec of a sound world that is answered Ok, the next kernel begins in a sound world, without a label.
pub fn kexec_begins_sound()
    ensures { KexecBeginsSound }
{}

/// A round that one agent does alone leads from a sound world of the running kernel to a sound one, with the labels that the
/// history then gives to the agents, where each of its commands may come.
pub fn round_keeps()
    ensures { RoundKeeps }
{}

/// After a kexec block that is refused, the world of the running kernel is sound as before.
pub fn refused_block_keeps()
    ensures { RefusedBlockKeeps }
{}

/// After a kexec block that is answered Ok, the world of the next kernel is sound.
pub fn ended_block_keeps()
    ensures { EndedBlockKeeps }
{}

/// Commands of an agent that make memfds alone, bind no label that the agent may have, and none of theirs twice, may come
/// one after another.
pub fn once_may_come()
    ensures { OnceMayCome }
{}

/// A script that is read binds each label of an agent by one command at most.
pub fn read_binds_once()
    ensures { ReadBindsOnce }
{}

/// A script that is read binds each label of an agent once at most, and makes no device file, and no memfd of an order above
/// 9.
pub fn read_is_sound()
    ensures { ReadIsSound }
{}

/// A sound world in which no agent has a label is one before the first block of a script.
pub fn begun_stands()
    ensures { BegunStands }
{}

/// Before the first block, the world of a machine that is switched on is sound, and no agent has a label.
pub fn cold_stands()
    ensures { ColdStands }
{}

/// After a round that one agent does alone the world is sound, and the agents have the labels alone that commands bind.
pub fn round_stands()
    ensures { RoundStands }
{}

/// After a kexec block that is refused the world is sound.
pub fn refused_stands()
    ensures { RefusedStands }
{}

/// After a kexec block that is answered Ok the next kernel's world is sound, and no agent has a label.
pub fn ended_stands()
    ensures { EndedStands }
{}
