//! Laws of kexecs in a history: what agent 0 did of a kexec takes a history through one block more, and where it was
//! answered Ok, into the next kernel. A law is the contract of a function without a body.
#![tactic(auto)]

ghost use Rattle.kexec_laws.specs.Kexecs.{KexecIsNext, RefusedKexecRunsOn, KexecBeginsNext, NumberedKexecs, KexecsAreCounted, OnlyEndsAreOk};

/// What agent 0 did of a kexec takes a history through one block more, where it is a whole sequence of the kexec in
/// the world that the entries before it left, and each object's entries are a run of its steps. No label changes.
pub fn kexec_is_next()
    ensures { KexecIsNext }
{}

/// After a kexec that was refused, the same kernel is due.
pub fn refused_kexec_runs_on()
    ensures { RefusedKexecRunsOn }
{}

/// After a kexec that was answered Ok, the next kernel is due. It begins in the world that was frozen after all entries
/// of the kernel before it, without an entry and without a label.
pub fn kexec_begins_next()
    ensures { KexecBeginsNext }
{}

/// Where no round has an agent 0, each kexec is exactly one task of agent 0. Its number is one more than there are
/// kexecs before it, and no other task is of its block.
pub fn kexecs_are_numbered()
    ensures { NumberedKexecs }
{}

/// With one block more there is one kexec more before it, where the block is a kexec, and else as many; and never more
/// than all blocks have.
pub fn kexecs_are_counted()
    ensures { KexecsAreCounted }
{}

/// Exactly a kexec that ends its kernel is answered Ok.
pub fn only_ends_are_ok()
    ensures { OnlyEndsAreOk }
{}
