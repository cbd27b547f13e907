//! Laws of what a kexec carries: what is frozen of a sound world can be written into frames. A law is the contract of a
//! function without a body.
#![tactic(auto)]

ghost use Rattle.sound_carried.specs.Fitting.{CarriedIsFit, CarriedHasRoom};

/// What is frozen of a sound world is within all limits of the records, at every order: names and tokens rise, there are not
/// too many sessions and files, each file has as many runs as hold its size, and they are runs of the machine.
pub fn carried_is_fit()
    ensures { CarriedIsFit }
{}

/// Different frames that are free in the pool of a sound world can hold the records of what is frozen: together with the
/// files' runs they are runs of the machine that share no frame, and none has a frame of a scratch area.
pub fn carried_has_room()
    ensures { CarriedHasRoom }
{}
