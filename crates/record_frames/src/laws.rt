//! Laws of what frames carry.

ghost use Rattle.record_frames.specs.Laws.{OneState, NoState, OnePlace, KeptIsRead, ReadIsKept, StateOrPlace, OneSessionFrame, ChainIsRead, ReadIsChain};

use fdt_blob::laws::law_of_reading;

/// Frames and an entry carry one state at most. Frames whose rules break carry nothing, and break the rules of one place
/// first. Nothing is done.
pub fn law_of_carrying()
    ensures one_state { OneState }
    ensures no_state { NoState }
    ensures one_place { OnePlace }
{
    law_of_reading();
}

/// What is kept in frames is what reading them in order gives, and what reading gives is kept there. Nothing is done.
pub fn law_of_keeping()
    ensures again { KeptIsRead }
    ensures found { ReadIsKept }
{}

/// Frames carry a state or break a rule, wherever the entry frame spells a tree or breaks a rule of trees, as opening its
/// blob shows. Nothing is done.
pub fn law_of_refusing()
    ensures { StateOrPlace }
{}

/// In version 1 the chain of session frames is one frame, with the slots that `reading::session_front` gives, and where
/// that gives none this frame breaks a rule. Nothing is done.
pub fn law_of_session_frames()
    ensures { OneSessionFrame }
{}

/// A chain of chunk frames that frames spell is what reading it gives, and what reading gives is a chain that they spell.
/// Nothing is done.
pub fn law_of_the_chain()
    ensures again { ChainIsRead }
    ensures found { ReadIsChain }
{}
