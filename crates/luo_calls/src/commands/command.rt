//! One command of an agent.

ghost use Rattle.std.specs.Prelude.{◌≡◌, IfErr, IfOk, IsTrue};
ghost use Rattle.machine_core.specs.Agents.{Agent, no_hands};
ghost use Rattle.machine_core.specs.Turns.{IsReady};
ghost use Rattle.luo_calls.specs.Came.{CameTo, IsHalted};
ghost use Rattle.luo_calls.specs.Done.{is_done_here};

use crate::commands::close::close;
use crate::commands::close_fd::close_fd;
use crate::commands::create::create;
use crate::commands::memfd::memfd;
use crate::commands::preserve::preserve;
use crate::commands::query::query;
use crate::commands::truncate::truncate;
use crate::commands::write::write;
use crate::turns::put::Put;
use crate::turns::query::Query;
use ho_events::command::Command;
use ho_events::reply::Reply;
use ho_events::slip::At;
use machine_core::{Halt, Labels, Reach};
use phys_frames::folio::Folio;
use std::alloc::Global;

/// How a command ended: done, with its reply and its last stamp, or stopped in the middle, with the folios that were in
/// hand.
pub enum Outcome {
    Done(Reply, u64),
    Halted(Vec<Folio>, Halt),
}

/// Does one command of an agent, turn by turn. `at` has the command's number and the agent's last stamp.
#[tactic(auto, using(crate::proofs::Ended::came_bare, crate::proofs::Ended::came_full))]
pub fn do_command<R: Reach>(
    alloc: Global,
    reach: &mut R,
    labels: &mut Labels,
    at: At,
    command: &Command,
) -> Outcome
    requires ready { IsReady at (R.shown reach.old) }
    requires free { (R.shown reach.old).hands ≡ no_hands }
    requires here { IsTrue (is_done_here command.now) }
    ensures came { CameTo labels.old.bound labels.new.bound command.now at (R.shown reach.old) (R.shown reach.new) result }
{
    let mut at = at;
    match command {
        Command::Memfd(label, order) => {
            let came = memfd(alloc, reach, labels, &mut at, *label, *order);
            ended_bare(alloc, came, at)
        }
        Command::Write(label, off, bytes) => {
            let put = Put::Bytes(bytes);
            let came = write(alloc, reach, labels, &mut at, *label, *off, put);
            ended(came, at)
        }
        Command::Fill(label, off, len, byte) => {
            let put = Put::Same(*len, *byte);
            let came = write(alloc, reach, labels, &mut at, *label, *off, put);
            ended(came, at)
        }
        Command::Read(label, off, len) => {
            let asked = Query::Read(*off, *len);
            let came = query(alloc, reach, labels, &mut at, *label, asked);
            ended_bare(alloc, came, at)
        }
        Command::Truncate(label, size) => {
            let came = truncate(alloc, reach, labels, &mut at, *label, *size);
            ended(came, at)
        }
        Command::Seek(label, to) => {
            let came = query(alloc, reach, labels, &mut at, *label, Query::Seek(*to));
            ended_bare(alloc, came, at)
        }
        Command::Tell(label) => {
            let came = query(alloc, reach, labels, &mut at, *label, Query::Tell);
            ended_bare(alloc, came, at)
        }
        Command::CloseFd(label) => {
            let came = close_fd(alloc, reach, labels, &mut at, *label);
            ended(came, at)
        }
        Command::Create(name) => {
            let came = create(alloc, reach, &mut at, *name);
            ended_bare(alloc, came, at)
        }
        Command::Preserve(name, token, label) => {
            let came = preserve(alloc, reach, labels, &mut at, *name, *token, *label);
            ended(came, at)
        }
        Command::Close(name) => {
            let came = close(alloc, reach, &mut at, *name);
            ended(came, at)
        }
        _ => unreachable!(),
    }
}

/// How a command ended that gives up the folios that it had in hand.
fn ended(came: Result<Reply, (Vec<Folio>, Halt)>, at: At) -> Outcome
    ensures done { IfOk came (λ reply. result ≡ Outcome.Done reply at.last) }
    ensures halted { IfErr came (λ h. result ≡ Outcome.Halted h.0 h.1) }
{
    match came {
        Ok(reply) => Outcome::Done(reply, at.last),
        Err((folios, halt)) => Outcome::Halted(folios, halt),
    }
}

/// How a command ended that never has folios in hand.
fn ended_bare(alloc: Global, came: Result<Reply, Halt>, at: At) -> Outcome
    ensures done { IfOk came (λ reply. result ≡ Outcome.Done reply at.last) }
    ensures halted { IfErr came (λ halt. IsHalted result halt) }
{
    match came {
        Ok(reply) => Outcome::Done(reply, at.last),
        Err(halt) => Outcome::Halted(Vec::new(alloc), halt),
    }
}
