//! Runs the work of one agent, command by command.

ghost use Rattle.std.specs.Prelude.{◌≡◌, ◌+◌, ◌<◌, ◌^◌, IsTrue, IfOk, IfErr, OnOk, length, []};
ghost use Rattle.std.specs.List.{list_all};
ghost use Rattle.ho_events.specs.Script.Rules.{is_built};
ghost use Rattle.phys_frames.specs.Memory.{AreOf};
ghost use Rattle.machine_core.specs.Agents.{begun, no_hands};
ghost use Rattle.machine_core.specs.LabelsShown.{agent_count};
ghost use Rattle.machine_core.specs.Turns.{IsReady, TellsMore};
ghost use Rattle.handover_cli.specs.Rounds.{DidAll, SameAgent, WorkedAlone};

use ho_base::numbers::NoMemory;
use ho_events::command::Command;
use ho_events::entry::Entry;
use ho_events::script::AgentWork;
use ho_events::slip::At;
use luo_calls::Outcome;
use luo_incoming::do_command;
use machine_core::{Kernel, Labels, PlainReach, Reach};
use phys_frames::Folio;
use std::alloc::Global;

/// Does the commands of an agent one after another, numbered from that of `at` on, with these labels.
///
/// # Errors
///
/// The folios that were in hand when a command stopped in the middle.
#[tactic(auto, using(crate::proofs::Rounds::built_is_done))]
pub fn do_commands<R: Reach>(
    alloc: Global,
    reach: &mut R,
    labels: &mut Labels,
    at: At,
    commands: &[Command],
) -> Result<(), Vec<Folio>>
    requires ready { IsReady at (R.shown reach.old) }
    requires free { (R.shown reach.old).hands ≡ no_hands }
    requires fresh { (R.shown reach.old).log ≡ [] }
    requires built { IsTrue (list_all is_built commands.now) }
    requires numbers { at.command + length commands.now < 2 ^ 32 }
    ensures same { SameAgent (R.shown reach.old) (R.shown reach.new) }
    ensures hands { (R.shown reach.new).hands ≡ no_hands }
    ensures told { OnOk result (TellsMore (R.shown reach.new).log (R.shown reach.old).told (R.shown reach.new).told) }
    ensures done { OnOk result (DidAll (begun (R.shown reach.old)) commands.now labels.old.bound at labels.new.bound (R.shown reach.new).log) }
    ensures stopped { IfErr result (λ folios. AreOf (R.shown reach.new).anchor.home folios.items) }
{
    let mut next = at;
    for command in commands {
        match do_command(alloc, reach, labels, next, command) {
            Outcome::Done(_, last) => {
                next.command += 1;
                next.last = last;
            }
            Outcome::Halted(folios, _) => return Err(folios),
        }
    }
    Ok(())
}

/// Does the work of an agent on a kernel that it has for itself. It gives the kernel after that work, and the work's
/// entries.
///
/// # Errors
///
/// [`NoMemory`] where a command stopped in the middle. The kernel's memory is given back then.
pub fn run_alone(
    alloc: Global,
    kernel: Kernel,
    work: &AgentWork,
) -> Result<(Kernel, Vec<Entry>), NoMemory>
    requires agent { work.now.agent.0 < agent_count }
    requires lists { length kernel.labels ≡ agent_count }
    requires built { IsTrue (list_all is_built work.now.commands) }
    requires numbers { work.now.first + length work.now.commands < 2 ^ 32 }
    ensures { IfOk result (λ r. WorkedAlone kernel work.now r.0 r.1.items) }
{
    let mut kernel = kernel;
    let at = At {
        kernel: kernel.number(),
        agent: work.agent,
        command: work.first,
        last: kernel.base(),
    };
    let mut all = kernel.take_labels(alloc);
    let mut labels = all.take(alloc, work.agent);
    let mut reach = PlainReach::new(alloc, kernel, work.agent);
    match do_commands(alloc, &mut reach, &mut labels, at, work.commands.as_slice()) {
        Ok(()) => {
            let (mut kernel, entries) = reach.log();
            all.put(work.agent, labels);
            kernel.put_labels(all);
            Ok((kernel, entries))
        }
        Err(folios) => {
            let (kernel, _) = reach.log();
            end_kernel(kernel, folios);
            Err(NoMemory)
        }
    }
}

/// Gives a kernel's memory back, with that of folios which no object had. Where a frame didn't come home, the memory of
/// all frames stays taken until the program ends; that this never happens isn't proved.
pub fn end_kernel(kernel: Kernel, folios: Vec<Folio>)
    requires { AreOf kernel.home folios.items }
{
    if let Err(frames) = kernel.give_up(folios) {
        frames.forget();
    }
}
