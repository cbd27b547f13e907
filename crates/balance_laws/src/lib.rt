//! Laws of sound worlds: a machine that is switched on is sound, and each command keeps a world sound, where all files
//! are memfds. A law is the contract of a function without a body.
#![tactic(auto)]

ghost use Rattle.balance_laws.specs.Carrying.{RefusedKexecKeeps, NoDevices, FollowingIsSound, NextIsSound, SoundCanCarry};
ghost use Rattle.balance_laws.specs.Keeps.{ColdIsSound, MemfdKeeps, WriteKeeps, FillKeeps, ReadKeeps, SeekKeeps, TellKeeps, TruncateKeeps, CloseFdKeeps, CreateKeeps, PreserveKeeps, CloseKeeps, OpenKeeps, RetrieveKeeps, FinishKeeps, EachKeeps};

/// A machine that is switched on is sound, where no agent has a label.
pub fn cold_is_sound()
    ensures { ColdIsSound }
{}

/// `memfd` keeps a world sound, under a label that its agent does not have yet, at each order up to 9.
pub fn memfd_keeps()
    ensures { MemfdKeeps }
{}

/// `write` keeps a world sound, however it comes out.
pub fn write_keeps()
    ensures { WriteKeeps }
{}

/// `fill` keeps a world sound, however it comes out.
pub fn fill_keeps()
    ensures { FillKeeps }
{}

/// `read` keeps a world sound, however it comes out.
pub fn read_keeps()
    ensures { ReadKeeps }
{}

/// `seek` keeps a world sound, however it comes out.
pub fn seek_keeps()
    ensures { SeekKeeps }
{}

/// `tell` keeps a world sound.
pub fn tell_keeps()
    ensures { TellKeeps }
{}

/// `truncate` keeps a world sound, however it comes out.
pub fn truncate_keeps()
    ensures { TruncateKeeps }
{}

/// `closefd` keeps a world sound, whether the file stays or goes with its runs.
pub fn close_fd_keeps()
    ensures { CloseFdKeeps }
{}

/// `create` keeps a world sound, however it comes out.
pub fn create_keeps()
    ensures { CreateKeeps }
{}

/// `preserve` keeps a world sound, however it comes out; the ways that need a device file never come.
pub fn preserve_keeps()
    ensures { PreserveKeeps }
{}

/// `close` keeps a world sound, however it comes out, with any number of files.
pub fn close_keeps()
    ensures { CloseKeeps }
{}

/// `open` keeps a world sound, however it comes out.
pub fn open_keeps()
    ensures { OpenKeeps }
{}

/// `retrieve` keeps a world sound, under a label that its agent does not have yet.
pub fn retrieve_keeps()
    ensures { RetrieveKeeps }
{}

/// `finish` keeps a world sound, however it comes out, with any number of files.
pub fn finish_keeps()
    ensures { FinishKeeps }
{}

/// A kexec that is refused keeps a world sound.
pub fn refused_kexec_keeps()
    ensures { RefusedKexecKeeps }
{}

/// No handler is asked of a preserved file in a sound world, since there is no device file.
pub fn no_devices()
    ensures { NoDevices }
{}

/// What a sound world carries over a kexec is within all limits: at most 16 sessions under rising names, at most 31 files in
/// each under rising tokens and 256 in all; memfds with as many runs as hold their size, each of them owned at the file's
/// order; no run is of two files, or twice of one. Owned runs fit the machine and share no frame, and each is of a file.
pub fn sound_can_carry()
    ensures { SoundCanCarry }
{}

/// A world that begins with a state of sessions with different names and memfds within all limits, none of whose runs is of two
/// files, is sound, where no agent has a label.
pub fn following_is_sound()
    ensures { FollowingIsSound }
{}

/// The world in which the next kernel begins after a kexec of a sound world is sound, where no agent has a label.
pub fn next_is_sound()
    ensures { NextIsSound }
{}

/// Each command keeps a world sound, where it makes no device file, and binds a label that its agent does not have yet.
pub fn each_command_keeps()
    ensures { EachKeeps }
{}
