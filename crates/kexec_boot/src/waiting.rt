//! The carried sessions, as they wait in the incoming slots.

ghost use Rattle.std.specs.Prelude.{◌≡◌, ◌+◌, ◌++◌, ◌≤◌, [], IfOk, length, map, vec_len, vec_capacity};
ghost use Rattle.ho_base.specs.declared.limits.TheConstants.{FILES, IN_SLOTS, OUT_SLOTS};
ghost use Rattle.ho_base.specs.Objects.{session_no};
ghost use Rattle.machine_core.specs.Kernels.{AreWaiting};
ghost use Rattle.session_core.specs.SessionShown.{TokensRise};
ghost use Rattle.session_core.specs.Sessions.{fresh_incoming};
ghost use Rattle.kexec_boot.specs.Files.{listed_from};
ghost use Rattle.kexec_boot.specs.Waiting.{CanWait, TokensOfAll, files_of, waiting_from};

use ho_base::limits::OUT_SLOTS;
use ho_base::numbers::{FileNo, NoMemory, ObjectNo, SlotNo, Token};
use record_frames::{CarriedFile, CarriedSession};
use session_core::SessionObject;
use std::alloc::Global;

/// The sessions in their incoming slots, with their files numbered one after the other. `Err`: out of memory.
pub(crate) fn waiting_sessions(
    alloc: Global,
    carried: &[CarriedSession],
) -> Result<Vec<SessionObject>, NoMemory>
    requires { CanWait carried.now }
    ensures starts { IfOk result (λ v. map (λ s. s.start) v.items ≡ waiting_from 0 carried.now) }
    ensures waiting { IfOk result (λ v. AreWaiting OUT_SLOTS v.items) }
    ensures count { IfOk result (λ v. length v.items ≡ length carried.now) }
{
    let mut sessions = Vec::new(alloc);
    add_waiting(alloc, OUT_SLOTS as u8, 0, carried, &mut sessions)?;
    Ok(sessions)
}

/// Adds the sessions that are left, from a slot and a file number on.
#[tactic(auto, using(crate::proofs::WaitingSteps::starts_none, crate::proofs::WaitingSteps::starts_more, crate::proofs::WaitingSteps::waiting_more))]
fn add_waiting(
    alloc: Global,
    slot: u8,
    first: u16,
    left: &[CarriedSession],
    sessions: &mut Vec<SessionObject>,
) -> Result<(), NoMemory>
    requires slots { slot + length left.now ≤ OUT_SLOTS + IN_SLOTS }
    requires files { first + files_of left.now ≤ FILES }
    requires tokens { TokensOfAll left.now }
    requires next { slot ≡ OUT_SLOTS + length sessions.old.items }
    requires waiting { AreWaiting OUT_SLOTS sessions.old.items }
    ensures starts { IfOk result (λ _. map (λ s. s.start) sessions.new.items ≡ map (λ s. s.start) sessions.old.items ++ waiting_from first left.now) }
    ensures waiting { IfOk result (λ _. AreWaiting OUT_SLOTS sessions.new.items) }
    ensures count { IfOk result (λ _. length sessions.new.items ≡ length sessions.old.items + length left.now) }
{
    match left.split_first() {
        None => Ok(()),
        Some((session, rest)) => {
            let one = one_waiting(alloc, slot, first, session)?;
            if sessions.push(one).is_err() {
                return Err(NoMemory);
            }
            add_waiting(
                alloc,
                slot + 1,
                first + session.files.len() as u16,
                rest,
                sessions,
            )
        }
    }
}

/// A session in a slot, with its files numbered from one on. `Err`: out of memory.
#[tactic(auto, using(crate::proofs::WaitingSteps::are_files))]
fn one_waiting(
    alloc: Global,
    slot: u8,
    first: u16,
    session: &CarriedSession,
) -> Result<SessionObject, NoMemory>
    requires files { first + length session.now.files ≤ FILES }
    requires tokens { TokensRise (listed_from first session.now.files) }
    ensures number { IfOk result (λ s. s.number ≡ session_no slot) }
    ensures start { IfOk result (λ s. s.start ≡ fresh_incoming session.now.name (listed_from first session.now.files)) }
    ensures history { IfOk result (λ s. s.history ≡ []) }
{
    let Ok(mut files) = Vec::with_capacity(alloc, session.files.len()) else {
        return Err(NoMemory);
    };
    list_files(first, session.files.as_slice(), &mut files);
    SessionObject::incoming(
        alloc,
        ObjectNo::of_session(SlotNo(slot)),
        session.name,
        files,
    )
}

/// Lists the files that are left, numbered from one on. The list has room for them.
fn list_files(first: u16, left: &[CarriedFile], files: &mut Vec<(Token, FileNo, u64)>)
    requires within { first + length left.now ≤ FILES }
    requires room { vec_len files.old + length left.now ≤ vec_capacity files.old }
    ensures { files.new.items ≡ files.old.items ++ listed_from first left.now }
{
    match left.split_first() {
        None => {}
        Some((file, rest)) => {
            files
                .push((file.token, FileNo(first), file.handle))
                .unwrap();
            list_files(first + 1, rest, files);
        }
    }
}
