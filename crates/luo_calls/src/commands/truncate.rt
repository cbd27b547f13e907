//! The command `truncate`.

ghost use Rattle.std.specs.Prelude.{◌≡◌, ◌<◌, ◌^◌, ◌++◌, ◌∷◌, [], IfOk, IfErr, OnErr, OnOk, None, length};
ghost use Rattle.ho_events.specs.Slips.{reply_runs};
ghost use Rattle.ho_world.specs.Logs.{end_with};
ghost use Rattle.ho_world.specs.Sequences.{command_acts};
ghost use Rattle.phys_frames.specs.Memory.{AreOf};
ghost use Rattle.machine_core.specs.Agents.{Agent, no_hands};
ghost use Rattle.machine_core.specs.Commands.{Comes, Halts};
ghost use Rattle.machine_core.specs.Turns.{IsReady, Goes};
ghost use Rattle.luo_calls.specs.Closing.{deeds};
ghost use Rattle.luo_calls.specs.Doing.{AreWhole, SticksAfter};
ghost use Rattle.luo_calls.specs.Stuck.{Sticks};
ghost use Rattle.luo_calls.specs.Truncates.{IsCutOff, IsTruncateReply, after_truncate, truncate_answer};

use crate::commands::close_files::give_any;
use crate::stuck::{Stopped, empty_handed, release};
use crate::turns::done::end_command;
use crate::turns::truncate::truncate_file;
use ho_base::name::Name;
use ho_base::numbers::Order;
use ho_events::command::Command;
use ho_events::reply::Reply;
use ho_events::slip::At;
use machine_core::{Halt, Labels, Reach};
use phys_frames::folio::Folio;
use std::alloc::Global;

/// Changes the size of the label's file. The runs of the indexes past it are given back.
///
/// # Errors
///
/// The halt of a command that stops in the middle, with the folios that it had in hand.
pub fn truncate<R: Reach>(
    alloc: Global,
    reach: &mut R,
    labels: &Labels,
    at: &mut At,
    label: Name,
    size: u32,
) -> Result<Reply, (Vec<Folio>, Halt)>
    requires ready { IsReady at.old (R.shown reach.old) }
    requires free { (R.shown reach.old).hands ≡ no_hands }
    ensures comes { IfOk result (λ reply. Comes labels.now.bound labels.now.bound (Command.Truncate label size) reply at.old at.new (R.shown reach.old) (R.shown reach.new)) }
    ensures halts { IfErr result (λ h. Halts labels.now.bound labels.now.bound (Command.Truncate label size) h.1 at.old at.new (R.shown reach.old) (R.shown reach.new)) }
    ensures given_up { IfErr result (λ h. AreOf (R.shown reach.old).anchor.home h.0.items) }
{
    match truncate_turns(alloc, reach, labels, at, label, size) {
        Ok(reply) => Ok(reply),
        Err(Stopped { folios, stuck }) => Err((folios, release(reach, stuck))),
    }
}

/// The turns of a `truncate`.
fn truncate_turns<R: Reach>(
    alloc: Global,
    reach: &mut R,
    labels: &Labels,
    at: &mut At,
    label: Name,
    size: u32,
) -> Result<Reply, Stopped>
    requires ready { IsReady at.old (R.shown reach.old) }
    requires free { (R.shown reach.old).hands ≡ no_hands }
    ensures comes { IfOk result (λ reply. Comes labels.now.bound labels.now.bound (Command.Truncate label size) reply at.old at.new (R.shown reach.old) (R.shown reach.new)) }
    ensures stopped { IfErr result (λ s. SticksAfter (AreWhole (command_acts labels.now.bound (Command.Truncate label size))) s.stuck at.old at.new (R.shown reach.old) (R.shown reach.new)) }
    ensures given_up { IfErr result (λ s. AreOf (R.shown reach.old).anchor.home s.folios.items) }
{
    let Some(file) = labels.file(label) else {
        return match end_command(reach, at, Reply::BadFd) {
            Ok(()) => Ok(Reply::BadFd),
            Err(stuck) => Err(empty_handed(alloc, stuck)),
        };
    };
    match truncate_file(alloc, reach, at, file, size) {
        Ok((order, reply, given)) => end_truncate(alloc, reach, at, order, &reply, given),
        Err(stuck) => Err(empty_handed(alloc, stuck)),
    }
}

/// The rest of a `truncate`, by what the file answered and which folios it gave up.
#[tactic(auto, using(crate::proofs::Truncates::cut_off_home, crate::proofs::Truncates::cut_off_order, crate::proofs::Truncates::cut_off_few))]
fn end_truncate<R: Reach>(
    alloc: Global,
    reach: &mut R,
    at: &mut At,
    order: Order,
    reply: &Reply,
    mut given: Vec<Folio>,
) -> Result<Reply, Stopped>
    requires ready { IsReady at.old (R.shown reach.old) }
    requires free { (R.shown reach.old).hands ≡ no_hands }
    requires reply { IsTruncateReply reply.now }
    requires few { length (reply_runs reply.now) < 2 ^ 32 }
    requires given { IsCutOff (R.shown reach.old).anchor.home order reply.now given.items }
    ensures answer { IfOk result (λ answer. answer ≡ truncate_answer reply.now) }
    ensures goes { OnOk result (Goes (deeds (after_truncate order reply.now) ++ end_with (truncate_answer reply.now) ∷ []) at.old at.new (R.shown reach.old) (R.shown reach.new)) }
    ensures stopped { IfErr result (λ s. SticksAfter (λ ds. ds ≡ deeds (after_truncate order reply.now) ++ end_with (truncate_answer reply.now) ∷ []) s.stuck at.old at.new (R.shown reach.old) (R.shown reach.new)) }
    ensures given_up { IfErr result (λ s. AreOf (R.shown reach.old).anchor.home s.folios.items) }
{
    match give_any(alloc, reach, at, order, &mut given) {
        Ok(()) => {
            given.destroy_empty();
            end_answered(alloc, reach, at, reply)
        }
        Err(stuck) => Err(Stopped {
            folios: given,
            stuck,
        }),
    }
}

/// Ends a `truncate` whose file answered so.
fn end_answered<R: Reach>(
    alloc: Global,
    reach: &mut R,
    at: &mut At,
    reply: &Reply,
) -> Result<Reply, Stopped>
    requires ready { IsReady at.old (R.shown reach.old) }
    requires reply { IsTruncateReply reply.now }
    ensures answer { IfOk result (λ answer. answer ≡ truncate_answer reply.now) }
    ensures goes { OnOk result (Goes (end_with (truncate_answer reply.now) ∷ []) at.old at.new (R.shown reach.old) (R.shown reach.new)) }
    ensures sticks { IfErr result (λ s. Sticks at.old None s.stuck (R.shown reach.old) (R.shown reach.new)) }
    ensures same_at { OnErr result (at.new ≡ at.old) }
    ensures given_up { IfErr result (λ s. AreOf (R.shown reach.old).anchor.home s.folios.items) }
{
    match end_command(reach, at, reply_of(reply)) {
        Ok(()) => Ok(reply_of(reply)),
        Err(stuck) => Err(empty_handed(alloc, stuck)),
    }
}

/// What a truncate is answered whose file answered so.
fn reply_of(reply: &Reply) -> Reply
    requires { IsTruncateReply reply.now }
    ensures { result ≡ truncate_answer reply.now }
{
    match reply {
        Reply::TooBig => Reply::TooBig,
        Reply::SizeFrozen => Reply::SizeFrozen,
        Reply::OkRuns(_) => Reply::Ok,
        _ => unreachable!(),
    }
}
