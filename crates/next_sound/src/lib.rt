//! What frames carry begins a sound world.
#![tactic(auto)]

ghost use Rattle.next_sound.specs.Follows.{CarriedBeginsSound};

/// A state that frames with pages of bytes carry, with memfds alone, begins a sound world. Nothing is done.
pub fn law_of_sound_beginnings()
    ensures { CarriedBeginsSound }
{}
