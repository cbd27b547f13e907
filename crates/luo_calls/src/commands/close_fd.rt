//! The command `closefd`.

ghost use Rattle.std.specs.Prelude.{◌≡◌, ◌<◌, ◌^◌, ◌++◌, ◌∷◌, [], IfOk, IfErr, OnOk, OnErr, length};
ghost use Rattle.ho_events.specs.Slips.{reply_runs};
ghost use Rattle.ho_world.specs.Logs.{end_with};
ghost use Rattle.ho_world.specs.Sequences.{command_acts};
ghost use Rattle.ho_world.specs.Sequences.Files.{close_fd_acts};
ghost use Rattle.phys_frames.specs.Memory.{AreOf};
ghost use Rattle.machine_core.specs.Agents.{Agent, no_hands};
ghost use Rattle.machine_core.specs.Commands.{Comes, Halts};
ghost use Rattle.machine_core.specs.Turns.{IsReady, Goes};
ghost use Rattle.luo_calls.specs.Closing.{deeds};
ghost use Rattle.luo_calls.specs.ClosingFds.{ClosesLabel, after_close_fd};
ghost use Rattle.luo_calls.specs.Doing.{AreWhole, SticksAfter};
ghost use Rattle.luo_calls.specs.Replies.{IsCloseFdReply, IsGivenUp};

use crate::commands::close_files::give_any;
use crate::stuck::{Stopped, Stuck, empty_handed, release};
use crate::turns::done::end_command;
use crate::turns::file;
use crate::turns::registry::free_file;
use ho_base::limits::FILES;
use ho_base::name::Name;
use ho_base::numbers::{FileNo, Order, Pfn};
use ho_events::command::Command;
use ho_events::reply::Reply;
use ho_events::slip::At;
use machine_core::{Halt, Labels, Reach};
use phys_frames::folio::Folio;
use std::alloc::Global;

/// Ends a label. Its file stays where a session has it; else its runs and its number are given back.
///
/// # Errors
///
/// The halt of a command that stops in the middle, with the folios that it had in hand.
pub fn close_fd<R: Reach>(
    alloc: Global,
    reach: &mut R,
    labels: &mut Labels,
    at: &mut At,
    label: Name,
) -> Result<Reply, (Vec<Folio>, Halt)>
    requires ready { IsReady at.old (R.shown reach.old) }
    requires free { (R.shown reach.old).hands ≡ no_hands }
    ensures comes { IfOk result (λ reply. Comes labels.old.bound labels.new.bound (Command.CloseFd label) reply at.old at.new (R.shown reach.old) (R.shown reach.new)) }
    ensures halts { IfErr result (λ h. Halts labels.old.bound labels.new.bound (Command.CloseFd label) h.1 at.old at.new (R.shown reach.old) (R.shown reach.new)) }
    ensures given_up { IfErr result (λ h. AreOf (R.shown reach.old).anchor.home h.0.items) }
{
    match close_fd_turns(alloc, reach, labels, at, label) {
        Ok(reply) => Ok(reply),
        Err(Stopped { folios, stuck }) => Err((folios, release(reach, stuck))),
    }
}

/// The turns of a `closefd`. The label ends after the last of them.
fn close_fd_turns<R: Reach>(
    alloc: Global,
    reach: &mut R,
    labels: &mut Labels,
    at: &mut At,
    label: Name,
) -> Result<Reply, Stopped>
    requires ready { IsReady at.old (R.shown reach.old) }
    requires free { (R.shown reach.old).hands ≡ no_hands }
    ensures comes { IfOk result (λ reply. Comes labels.old.bound labels.new.bound (Command.CloseFd label) reply at.old at.new (R.shown reach.old) (R.shown reach.new)) }
    ensures stopped { IfErr result (λ s. SticksAfter (AreWhole (command_acts labels.old.bound (Command.CloseFd label))) s.stuck at.old at.new (R.shown reach.old) (R.shown reach.new)) }
    ensures given_up { IfErr result (λ s. AreOf (R.shown reach.old).anchor.home s.folios.items) }
    ensures kept { OnErr result (labels.new.bound ≡ labels.old.bound) }
{
    let Some(file) = labels.file(label) else {
        return match end_command(reach, at, Reply::BadFd) {
            Ok(()) => Ok(Reply::BadFd),
            Err(stuck) => Err(empty_handed(alloc, stuck)),
        };
    };
    close_label(alloc, reach, at, file)?;
    labels.unbind(label);
    Ok(Reply::Ok)
}

/// Ends the hold of the label of a file, and the command.
fn close_label<R: Reach>(
    alloc: Global,
    reach: &mut R,
    at: &mut At,
    file: FileNo,
) -> Result<(), Stopped>
    requires ready { IsReady at.old (R.shown reach.old) }
    requires free { (R.shown reach.old).hands ≡ no_hands }
    requires file { file.0 < FILES }
    ensures closes { OnOk result (ClosesLabel file at.old at.new (R.shown reach.old) (R.shown reach.new)) }
    ensures stopped { IfErr result (λ s. SticksAfter (AreWhole (close_fd_acts file)) s.stuck at.old at.new (R.shown reach.old) (R.shown reach.new)) }
    ensures given_up { IfErr result (λ s. AreOf (R.shown reach.old).anchor.home s.folios.items) }
{
    let mut given = Vec::new(alloc);
    let (order, reply) = match file::close_fd(alloc, reach, at, file, &mut given) {
        Ok(closed) => closed,
        Err(stuck) => {
            return Err(Stopped {
                folios: given,
                stuck,
            });
        }
    };
    match end_label(alloc, reach, at, file, order, reply, &mut given) {
        Ok(()) => {
            given.destroy_empty();
            Ok(())
        }
        Err(stuck) => Err(Stopped {
            folios: given,
            stuck,
        }),
    }
}

/// The rest of a `closefd`, by what the end of the label's hold was answered and which folios the file gave up.
fn end_label<R: Reach>(
    alloc: Global,
    reach: &mut R,
    at: &mut At,
    file: FileNo,
    order: Order,
    reply: Reply,
    given: &mut Vec<Folio>,
) -> Result<(), Stuck>
    requires ready { IsReady at.old (R.shown reach.old) }
    requires free { (R.shown reach.old).hands ≡ no_hands }
    requires file { file.0 < FILES }
    requires reply { IsCloseFdReply reply }
    requires few { length (reply_runs reply) < 2 ^ 32 }
    requires given { IsGivenUp (R.shown reach.old).anchor.home order reply given.old.items }
    ensures goes { OnOk result (Goes (deeds (after_close_fd file order reply) ++ end_with Reply.Ok ∷ []) at.old at.new (R.shown reach.old) (R.shown reach.new)) }
    ensures given { OnOk result (given.new.items ≡ []) }
    ensures sticks { IfErr result (λ stuck. SticksAfter (λ ds. ds ≡ deeds (after_close_fd file order reply) ++ end_with Reply.Ok ∷ []) stuck at.old at.new (R.shown reach.old) (R.shown reach.new)) }
    ensures given_up { OnErr result (AreOf (R.shown reach.old).anchor.home given.new.items) }
{
    match reply {
        Reply::Kept => end_command(reach, at, Reply::Ok),
        Reply::Gone(runs) => end_gone(alloc, reach, at, file, order, runs.as_slice(), given),
        _ => unreachable!(),
    }
}

/// The rest of a `closefd` whose file is gone: its folios go back, and its number.
fn end_gone<R: Reach>(
    alloc: Global,
    reach: &mut R,
    at: &mut At,
    file: FileNo,
    order: Order,
    runs: &[Pfn],
    given: &mut Vec<Folio>,
) -> Result<(), Stuck>
    requires ready { IsReady at.old (R.shown reach.old) }
    requires free { (R.shown reach.old).hands ≡ no_hands }
    requires file { file.0 < FILES }
    requires few { length runs.now < 2 ^ 32 }
    requires given { IsGivenUp (R.shown reach.old).anchor.home order (Reply.Gone runs.now) given.old.items }
    ensures goes { OnOk result (Goes (deeds (after_close_fd file order (Reply.Gone runs.now)) ++ end_with Reply.Ok ∷ []) at.old at.new (R.shown reach.old) (R.shown reach.new)) }
    ensures given { OnOk result (given.new.items ≡ []) }
    ensures sticks { IfErr result (λ stuck. SticksAfter (λ ds. ds ≡ deeds (after_close_fd file order (Reply.Gone runs.now)) ++ end_with Reply.Ok ∷ []) stuck at.old at.new (R.shown reach.old) (R.shown reach.new)) }
    ensures given_up { OnErr result (AreOf (R.shown reach.old).anchor.home given.new.items) }
{
    give_any(alloc, reach, at, order, given)?;
    free_file(alloc, reach, at, file)?;
    end_command(reach, at, Reply::Ok)?;
    Ok(())
}
