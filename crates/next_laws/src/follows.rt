//! What a carried state gives to the kernel that begins with it.

ghost use Rattle.next_laws.specs.Follows.{CarriedCanBegin};

/// A state that frames with pages of bytes carry, with memfds alone, has all that a kernel asks for to begin with it:
/// sessions with different names, no more than there are incoming slots; no more files than a kernel has, under rising
/// tokens; no bound record; runs that share no frame, each of which is free in a machine of its shape that is switched on;
/// and files of at most the greatest size, each with a position in it and a run for each index. Nothing is done.
pub fn law_of_following()
    ensures { CarriedCanBegin }
{}
