//! The command `memfd`.

ghost use Rattle.std.specs.Prelude.{◌≡◌, ◌≤◌, IfOk, IfErr, OnErr};
ghost use Rattle.ho_base.specs.declared.limits.TheConstants.{MAX_ORDER};
ghost use Rattle.ho_world.specs.Sequences.Files.{memfd_acts};
ghost use Rattle.machine_core.specs.Agents.{Agent, no_hands};
ghost use Rattle.machine_core.specs.Commands.{Comes, Halts};
ghost use Rattle.machine_core.specs.Turns.{IsReady};
ghost use Rattle.luo_calls.specs.Doing.{AreWhole, SticksAfter};

use crate::stuck::{Stuck, release};
use crate::turns::done::end_command;
use crate::turns::file::init;
use crate::turns::registry::new_file;
use ho_base::name::Name;
use ho_base::numbers::{NoMemory, Order};
use ho_events::command::Command;
use ho_events::reply::Reply;
use ho_events::slip::At;
use machine_core::{Halt, Labels, Reach};
use std::alloc::Global;

/// Makes a new empty memfd of an order and binds the label to it: refused with `FilesFull` where every file number is
/// in use.
pub fn memfd<R: Reach>(
    alloc: Global,
    reach: &mut R,
    labels: &mut Labels,
    at: &mut At,
    label: Name,
    order: Order,
) -> Result<Reply, Halt>
    requires ready { IsReady at.old (R.shown reach.old) }
    requires free { (R.shown reach.old).hands ≡ no_hands }
    requires order { order.0 ≤ MAX_ORDER }
    ensures comes { IfOk result (λ reply. Comes labels.old.bound labels.new.bound (Command.Memfd label order) reply at.old at.new (R.shown reach.old) (R.shown reach.new)) }
    ensures halts { IfErr result (λ halt. Halts labels.old.bound labels.new.bound (Command.Memfd label order) halt at.old at.new (R.shown reach.old) (R.shown reach.new)) }
{
    match memfd_turns(alloc, reach, labels, at, label, order) {
        Ok(reply) => Ok(reply),
        Err(stuck) => Err(release(reach, stuck)),
    }
}

/// The turns of a `memfd`. The label is bound after the last of them.
fn memfd_turns<R: Reach>(
    alloc: Global,
    reach: &mut R,
    labels: &mut Labels,
    at: &mut At,
    label: Name,
    order: Order,
) -> Result<Reply, Stuck>
    requires ready { IsReady at.old (R.shown reach.old) }
    requires free { (R.shown reach.old).hands ≡ no_hands }
    requires order { order.0 ≤ MAX_ORDER }
    ensures comes { IfOk result (λ reply. Comes labels.old.bound labels.new.bound (Command.Memfd label order) reply at.old at.new (R.shown reach.old) (R.shown reach.new)) }
    ensures sticks { IfErr result (λ stuck. SticksAfter (AreWhole (memfd_acts order)) stuck at.old at.new (R.shown reach.old) (R.shown reach.new)) }
    ensures kept { OnErr result (labels.new.bound ≡ labels.old.bound) }
{
    if let Err(NoMemory) = labels.reserve() {
        return Err(Stuck {
            halt: Halt::Memory,
            held: None,
        });
    }
    match new_file(alloc, reach, at)? {
        Reply::OkFile(file) => {
            init(alloc, reach, at, file, order)?;
            end_command(reach, at, Reply::Ok)?;
            labels.bind(label, file);
            Ok(Reply::Ok)
        }
        Reply::FilesFull => {
            end_command(reach, at, Reply::FilesFull)?;
            Ok(Reply::FilesFull)
        }
        _ => unreachable!(),
    }
}
