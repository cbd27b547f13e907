//! The objects of the next kernel.

ghost use Rattle.next_laws.specs.Begins.{PoolIsNext, RegistryIsNext, SessionIsNext};

/// A pool that begins with the runs of all carried files is the next kernel's, where there is no bound record. Nothing is
/// done.
pub fn law_of_the_pool()
    ensures { PoolIsNext }
{}

/// A registry in which the carried names wait, and as many file numbers are in use as files are carried, is the next
/// kernel's, where no two names are the same. Nothing is done.
pub fn law_of_the_registry()
    ensures { RegistryIsNext }
{}

/// An incoming session with the carried files, which have file numbers one after the other, lists what the next kernel's
/// does, where the tokens rise. Nothing is done.
pub fn law_of_sessions()
    ensures { SessionIsNext }
{}
