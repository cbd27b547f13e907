//! How a kernel's objects are put together.

ghost use Rattle.std.specs.Prelude.{◌≡◌, ◌<◌, ◌≤◌, ◌+◌, [], Some, length, map, vec_len, vec_capacity};
ghost use Rattle.ho_base.specs.declared.limits.TheConstants.{FILES, IN_SLOTS, OUT_SLOTS};
ghost use Rattle.ho_base.specs.Objects.{session_no, file_no};
ghost use Rattle.machine_core.specs.declared.object.Object.TheVariants as kind_of;
ghost use Rattle.machine_core.specs.Building.{AreBuilt, AreNext, BeginAbsent, BeginFree, IsBuilt};
ghost use Rattle.machine_core.specs.Kernels.{AreHeld, AreWaiting};
ghost use Rattle.machine_core.specs.Objects.{object_count};

use crate::object::Object;
use ho_base::limits::{FILES, IN_SLOTS, OUT_SLOTS};
use ho_base::numbers::ObjectNo;
use memfd_file::FileObject;
use pool_core::Pool;
use registry_core::Registry;
use session_core::SessionObject;
use std::alloc::Global;
use std::snapshot::Snapshot;

/// The object number of the first session slot.
const SLOTS: u16 = 6;

/// The object number of the first incoming session slot.
const INCOMING: u16 = SLOTS + OUT_SLOTS as u16;

/// The object number of the first file.
const FIRST_FILE: u16 = INCOMING + IN_SLOTS as u16;

/// The number after the last object's.
const END: u16 = FIRST_FILE + FILES as u16;

/// The parts with which a kernel begins, as they were given. It has no bytes.
#[derive(Drop)]
pub(crate) struct Plan {
    pub(crate) pool: Snapshot<Pool>,
    pub(crate) registry: Snapshot<Registry>,
    pub(crate) sessions: Snapshot<Vec<SessionObject>>,
    pub(crate) files: Snapshot<Vec<FileObject>>,
}

/// Puts all objects but the pool into the empty list, which has room for them.
pub(crate) fn build(
    alloc: Global,
    plan: &Plan,
    pool: &Pool,
    registry: Registry,
    sessions: Vec<SessionObject>,
    files: Vec<FileObject>,
    objects: &mut Vec<Option<Object>>,
)
    requires pool { pool.now ≡ plan.now.pool.value }
    requires registry { registry ≡ plan.now.registry.value }
    requires registry_history { registry.history ≡ [] }
    requires sessions { sessions ≡ plan.now.sessions.value }
    requires session_count { length sessions.items ≤ IN_SLOTS }
    requires waiting { AreWaiting OUT_SLOTS sessions.items }
    requires files { files ≡ plan.now.files.value }
    requires file_count { length files.items ≤ FILES }
    requires held { AreHeld pool.now.home 0 files.items }
    requires empty { objects.old.items ≡ [] }
    requires room { object_count ≤ vec_capacity objects.old }
    ensures built { AreBuilt plan.now objects.new.items }
    ensures count { vec_len objects.new ≡ object_count }
{
    add_first(plan, registry, objects);
    add_sessions(alloc, plan, sessions, objects);
    add_files(alloc, plan, pool, files, objects);
}

/// Adds what is at the next number.
#[tactic(auto, using(crate::proofs::Built::built_push))]
fn add(plan: &Plan, object: Option<Object>, objects: &mut Vec<Option<Object>>)
    requires room { vec_len objects.old < vec_capacity objects.old }
    requires built { AreBuilt plan.now objects.old.items }
    requires object { IsBuilt plan.now (vec_len objects.old) object }
    ensures built { AreBuilt plan.now objects.new.items }
    ensures len { vec_len objects.new ≡ vec_len objects.old + 1 }
    ensures capacity { vec_capacity objects.old ≤ vec_capacity objects.new }
{
    objects.push(object).unwrap();
}

/// Adds the registry, with an empty place for the pool before it, and the handlers' places after it.
#[tactic(auto, using(crate::proofs::Built::none_built, crate::proofs::Built::pool_gap, crate::proofs::Built::registry_is, crate::proofs::Built::handler_gap))]
fn add_first(plan: &Plan, registry: Registry, objects: &mut Vec<Option<Object>>)
    requires registry { registry ≡ plan.now.registry.value }
    requires history { registry.history ≡ [] }
    requires empty { objects.old.items ≡ [] }
    requires room { session_no 0 ≤ vec_capacity objects.old }
    ensures built { AreBuilt plan.now objects.new.items }
    ensures len { vec_len objects.new ≡ session_no 0 }
    ensures capacity { vec_capacity objects.old ≤ vec_capacity objects.new }
{
    add(plan, None, objects);
    add(plan, Some(Object::Registry(registry)), objects);
    add(plan, None, objects);
    add(plan, None, objects);
    add(plan, None, objects);
    add(plan, None, objects);
}

/// Adds all session slots: the outgoing ones are free, the given sessions are the first incoming ones, and the others
/// are free.
#[tactic(auto, using(crate::proofs::Built::free_out, crate::proofs::Built::free_in, crate::proofs::Built::waiting_next))]
fn add_sessions(
    alloc: Global,
    plan: &Plan,
    sessions: Vec<SessionObject>,
    objects: &mut Vec<Option<Object>>,
)
    requires sessions { sessions ≡ plan.now.sessions.value }
    requires session_count { length sessions.items ≤ IN_SLOTS }
    requires waiting { AreWaiting OUT_SLOTS sessions.items }
    requires number { vec_len objects.old ≡ session_no 0 }
    requires room { file_no 0 ≤ vec_capacity objects.old }
    requires built { AreBuilt plan.now objects.old.items }
    ensures built { AreBuilt plan.now objects.new.items }
    ensures len { vec_len objects.new ≡ file_no 0 }
    ensures capacity { vec_capacity objects.old ≤ vec_capacity objects.new }
{
    let given = sessions.len() as u16;
    add_free(alloc, plan, SLOTS, INCOMING, objects);
    add_waiting(plan, sessions, objects);
    add_free(alloc, plan, INCOMING + given, FIRST_FILE, objects);
}

/// Adds all files: the given ones are the first, and the others are absent.
#[tactic(auto, using(crate::proofs::Built::absent_after, crate::proofs::Built::held_next))]
fn add_files(
    alloc: Global,
    plan: &Plan,
    pool: &Pool,
    files: Vec<FileObject>,
    objects: &mut Vec<Option<Object>>,
)
    requires pool { pool.now ≡ plan.now.pool.value }
    requires files { files ≡ plan.now.files.value }
    requires file_count { length files.items ≤ FILES }
    requires held { AreHeld pool.now.home 0 files.items }
    requires number { vec_len objects.old ≡ file_no 0 }
    requires room { object_count ≤ vec_capacity objects.old }
    requires built { AreBuilt plan.now objects.old.items }
    ensures built { AreBuilt plan.now objects.new.items }
    ensures len { vec_len objects.new ≡ object_count }
{
    let given = files.len() as u16;
    add_held(plan, files, objects);
    add_absent(alloc, plan, pool, FIRST_FILE + given, END, objects);
}

/// Adds session slots that begin free, from the next number up to this one.
#[tactic(auto, using(crate::proofs::Built::free_is))]
fn add_free(alloc: Global, plan: &Plan, from: u16, to: u16, objects: &mut Vec<Option<Object>>)
    requires number { vec_len objects.old ≡ from }
    requires order { from ≤ to }
    requires room { to ≤ vec_capacity objects.old }
    requires free { BeginFree plan.now from to }
    requires built { AreBuilt plan.now objects.old.items }
    ensures built { AreBuilt plan.now objects.new.items }
    ensures len { vec_len objects.new ≡ to }
    ensures capacity { vec_capacity objects.old ≤ vec_capacity objects.new }
{
    for at in from..to {
        let slot = SessionObject::free(ObjectNo(at), alloc);
        add(plan, Some(Object::Session(slot)), objects);
    }
}

/// Adds these sessions at the next numbers.
fn add_waiting(plan: &Plan, sessions: Vec<SessionObject>, objects: &mut Vec<Option<Object>>)
    requires next { AreNext plan.now (vec_len objects.old) (map (λ s. Some (kind_of.Session s)) sessions.items) }
    requires room { vec_len objects.old + length sessions.items ≤ vec_capacity objects.old }
    requires built { AreBuilt plan.now objects.old.items }
    ensures built { AreBuilt plan.now objects.new.items }
    ensures len { vec_len objects.new ≡ vec_len objects.old + length sessions.items }
    ensures capacity { vec_capacity objects.old ≤ vec_capacity objects.new }
{
    let mut rest = sessions.into_iter();
    while let Some(session) = rest.next() {
        add(plan, Some(Object::Session(session)), objects);
    }
    rest.destroy_empty();
}

/// Adds these files at the next numbers.
fn add_held(plan: &Plan, files: Vec<FileObject>, objects: &mut Vec<Option<Object>>)
    requires next { AreNext plan.now (vec_len objects.old) (map (λ f. Some (kind_of.File f)) files.items) }
    requires room { vec_len objects.old + length files.items ≤ vec_capacity objects.old }
    requires built { AreBuilt plan.now objects.old.items }
    ensures built { AreBuilt plan.now objects.new.items }
    ensures len { vec_len objects.new ≡ vec_len objects.old + length files.items }
    ensures capacity { vec_capacity objects.old ≤ vec_capacity objects.new }
{
    let mut rest = files.into_iter();
    while let Some(file) = rest.next() {
        add(plan, Some(Object::File(file)), objects);
    }
    rest.destroy_empty();
}

/// Adds files that begin absent, from the next number up to this one.
#[tactic(auto, using(crate::proofs::Built::absent_is))]
fn add_absent(
    alloc: Global,
    plan: &Plan,
    pool: &Pool,
    from: u16,
    to: u16,
    objects: &mut Vec<Option<Object>>,
)
    requires pool { pool.now ≡ plan.now.pool.value }
    requires number { vec_len objects.old ≡ from }
    requires order { from ≤ to }
    requires room { to ≤ vec_capacity objects.old }
    requires absent { BeginAbsent plan.now from to }
    requires built { AreBuilt plan.now objects.old.items }
    ensures built { AreBuilt plan.now objects.new.items }
    ensures len { vec_len objects.new ≡ to }
{
    for at in from..to {
        let file = FileObject::absent(ObjectNo(at), pool.home(), alloc);
        add(plan, Some(Object::File(file)), objects);
    }
}
