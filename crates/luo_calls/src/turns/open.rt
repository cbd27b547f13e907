//! The beginning of a turn: an object is taken, with all memory that the turn wants.

ghost use Rattle.std.specs.Prelude.{◌≡◌, ◌≢◌, ◌+◌, ◌<◌, IfOk, IfErr, None};
ghost use Rattle.ho_base.specs.Objects.{pool_no, registry_no, session_no, file_no};
ghost use Rattle.machine_core.specs.Objects.{NoSpot, spot_at};
ghost use Rattle.machine_core.specs.Agents.{Agent};
ghost use Rattle.luo_calls.specs.Opened.{Opens};
ghost use Rattle.luo_calls.specs.Stuck.{Sticks};

use crate::stuck::Stuck;
use ho_base::limits::{FILES, IN_SLOTS, OUT_SLOTS};
use ho_base::numbers::{FileNo, NoMemory, ObjectNo, SlotNo};
use ho_events::slip::{At, Listed, Slip};
use machine_core::{Halt, LATE, Object, Reach};
use memfd_file::FileObject;
use pool_core::Pool;
use registry_core::Registry;
use session_core::SessionObject;
use std::alloc::Global;

/// Takes an object for a turn, with room for its entry in its history and in the agent's log. The memory for what the
/// entry lists is taken later, when it is known how much that is.
pub fn begin_turn<R: Reach>(reach: &mut R, at: At, object: ObjectNo) -> Result<Object, Stuck>
    requires there { spot_at object.0 ≢ NoSpot }
    requires free { (R.shown reach.old).hands object.0 ≡ None }
    ensures opens { IfOk result (λ state. Opens at object.0 (R.shown reach.old) (R.shown reach.new) state) }
    ensures sticks { IfErr result (λ stuck. Sticks at None stuck (R.shown reach.old) (R.shown reach.new)) }
{
    if at.last >= LATE {
        return Err(Stuck {
            halt: Halt::Late(at.last),
            held: None,
        });
    }
    if let Err(NoMemory) = reach.room(1) {
        return Err(Stuck {
            halt: Halt::Memory,
            held: None,
        });
    }
    let mut state = reach.begin(object);
    let last = state.last_stamp();
    if last >= LATE {
        return Err(Stuck {
            halt: Halt::Late(last),
            held: Some((object, state)),
        });
    }
    if let Err(NoMemory) = state.reserve(1) {
        return Err(Stuck {
            halt: Halt::Memory,
            held: Some((object, state)),
        });
    }
    Ok(state)
}

/// Takes an object for a turn, with all memory that the turn wants: what [`begin_turn`] takes, and a slip for the entry.
pub fn open_turn<R: Reach>(
    alloc: Global,
    reach: &mut R,
    at: At,
    object: ObjectNo,
    listed: Listed,
) -> Result<(Slip, Object), Stuck>
    requires there { spot_at object.0 ≢ NoSpot }
    requires free { (R.shown reach.old).hands object.0 ≡ None }
    ensures opens { IfOk result (λ t. Opens at object.0 (R.shown reach.old) (R.shown reach.new) t.1) }
    ensures at { IfOk result (λ t. t.0.at ≡ at) }
    ensures listed { IfOk result (λ t. t.0.room ≡ listed) }
    ensures sticks { IfErr result (λ stuck. Sticks at None stuck (R.shown reach.old) (R.shown reach.new)) }
{
    let state = begin_turn(reach, at, object)?;
    match Slip::make(alloc, at, listed) {
        Ok(slip) => Ok((slip, state)),
        Err(NoMemory) => Err(Stuck {
            halt: Halt::Memory,
            held: Some((object, state)),
        }),
    }
}

/// Takes the registry for a turn.
pub fn open_registry<R: Reach>(
    alloc: Global,
    reach: &mut R,
    at: At,
    listed: Listed,
) -> Result<(Slip, Registry), Stuck>
    requires free { (R.shown reach.old).hands registry_no ≡ None }
    ensures opens { IfOk result (λ t. Opens at registry_no (R.shown reach.old) (R.shown reach.new) (Object.Registry t.1)) }
    ensures at { IfOk result (λ t. t.0.at ≡ at) }
    ensures listed { IfOk result (λ t. t.0.room ≡ listed) }
    ensures sticks { IfErr result (λ stuck. Sticks at None stuck (R.shown reach.old) (R.shown reach.new)) }
{
    match open_turn(alloc, reach, at, ObjectNo::REGISTRY, listed)? {
        (slip, Object::Registry(registry)) => Ok((slip, registry)),
        _ => unreachable!(),
    }
}

/// Takes the pool for a turn.
pub fn open_pool<R: Reach>(
    alloc: Global,
    reach: &mut R,
    at: At,
    listed: Listed,
) -> Result<(Slip, Pool), Stuck>
    requires free { (R.shown reach.old).hands pool_no ≡ None }
    ensures opens { IfOk result (λ t. Opens at pool_no (R.shown reach.old) (R.shown reach.new) (Object.Pool t.1)) }
    ensures at { IfOk result (λ t. t.0.at ≡ at) }
    ensures listed { IfOk result (λ t. t.0.room ≡ listed) }
    ensures sticks { IfErr result (λ stuck. Sticks at None stuck (R.shown reach.old) (R.shown reach.new)) }
{
    match open_turn(alloc, reach, at, ObjectNo::POOL, listed)? {
        (slip, Object::Pool(pool)) => Ok((slip, pool)),
        _ => unreachable!(),
    }
}

/// Takes a session slot for a turn.
#[tactic(auto, using(crate::proofs::Spots::spot_at_session))]
pub fn open_session<R: Reach>(
    alloc: Global,
    reach: &mut R,
    at: At,
    slot: SlotNo,
    listed: Listed,
) -> Result<(Slip, SessionObject), Stuck>
    requires slot { slot.0 < OUT_SLOTS + IN_SLOTS }
    requires free { (R.shown reach.old).hands (session_no slot.0) ≡ None }
    ensures opens { IfOk result (λ t. Opens at (session_no slot.0) (R.shown reach.old) (R.shown reach.new) (Object.Session t.1)) }
    ensures at { IfOk result (λ t. t.0.at ≡ at) }
    ensures listed { IfOk result (λ t. t.0.room ≡ listed) }
    ensures sticks { IfErr result (λ stuck. Sticks at None stuck (R.shown reach.old) (R.shown reach.new)) }
{
    match open_turn(alloc, reach, at, ObjectNo::of_session(slot), listed)? {
        (slip, Object::Session(session)) => Ok((slip, session)),
        _ => unreachable!(),
    }
}

/// Takes a session slot for a turn whose entry's memory is taken later.
#[tactic(auto, using(crate::proofs::Spots::spot_at_session))]
pub fn begin_session<R: Reach>(reach: &mut R, at: At, slot: SlotNo) -> Result<SessionObject, Stuck>
    requires slot { slot.0 < OUT_SLOTS + IN_SLOTS }
    requires free { (R.shown reach.old).hands (session_no slot.0) ≡ None }
    ensures opens { IfOk result (λ session. Opens at (session_no slot.0) (R.shown reach.old) (R.shown reach.new) (Object.Session session)) }
    ensures sticks { IfErr result (λ stuck. Sticks at None stuck (R.shown reach.old) (R.shown reach.new)) }
{
    match begin_turn(reach, at, ObjectNo::of_session(slot))? {
        Object::Session(session) => Ok(session),
        _ => unreachable!(),
    }
}

/// Takes a file for a turn.
#[tactic(auto, using(crate::proofs::Spots::spot_at_file))]
pub fn open_file<R: Reach>(
    alloc: Global,
    reach: &mut R,
    at: At,
    file: FileNo,
    listed: Listed,
) -> Result<(Slip, FileObject), Stuck>
    requires file { file.0 < FILES }
    requires free { (R.shown reach.old).hands (file_no file.0) ≡ None }
    ensures opens { IfOk result (λ t. Opens at (file_no file.0) (R.shown reach.old) (R.shown reach.new) (Object.File t.1)) }
    ensures at { IfOk result (λ t. t.0.at ≡ at) }
    ensures listed { IfOk result (λ t. t.0.room ≡ listed) }
    ensures sticks { IfErr result (λ stuck. Sticks at None stuck (R.shown reach.old) (R.shown reach.new)) }
{
    match open_turn(alloc, reach, at, ObjectNo::of_file(file), listed)? {
        (slip, Object::File(file)) => Ok((slip, file)),
        _ => unreachable!(),
    }
}

/// Takes a file for a turn whose entry's memory is taken later.
#[tactic(auto, using(crate::proofs::Spots::spot_at_file))]
pub fn begin_file<R: Reach>(reach: &mut R, at: At, file: FileNo) -> Result<FileObject, Stuck>
    requires file { file.0 < FILES }
    requires free { (R.shown reach.old).hands (file_no file.0) ≡ None }
    ensures opens { IfOk result (λ object. Opens at (file_no file.0) (R.shown reach.old) (R.shown reach.new) (Object.File object)) }
    ensures sticks { IfErr result (λ stuck. Sticks at None stuck (R.shown reach.old) (R.shown reach.new)) }
{
    match begin_turn(reach, at, ObjectNo::of_file(file))? {
        Object::File(file) => Ok(file),
        _ => unreachable!(),
    }
}
