//! The turns on the registry.

ghost use Rattle.std.specs.Prelude.{◌≡◌, ◌<◌, ◌∷◌, [], IfOk, OnOk, IfErr, OnErr, None, Some};
ghost use Rattle.ho_base.specs.Objects.{registry_no};
ghost use Rattle.ho_world.specs.Logs.{deed_at};
ghost use Rattle.machine_core.specs.Agents.{Agent};
ghost use Rattle.machine_core.specs.Turns.{IsReady, Goes};
ghost use Rattle.luo_calls.specs.Replies.{IsFileReply, IsCreateReply, IsFindReply};
ghost use Rattle.luo_calls.specs.Stuck.{Sticks, turn};

use crate::stuck::Stuck;
use crate::turns::open::open_registry;
use ho_base::limits::FILES;
use ho_base::name::Name;
use ho_base::numbers::{FileNo, ObjectNo};
use ho_events::event::Event;
use ho_events::reply::Reply;
use ho_events::slip::{At, Listed, Turned};
use machine_core::{Halt, Object, Reach};
use registry_core::Registry;
use std::alloc::Global;

/// The registry, still in hand, that can't make the event that is due.
pub fn broken_registry(registry: Registry) -> Stuck
    ensures halt { result.halt ≡ Halt.Broken (record { 0 = registry_no }) }
    ensures held { result.held ≡ Some (record { 0 = registry_no }, Object.Registry registry) }
{
    Stuck {
        halt: Halt::Broken(ObjectNo::REGISTRY),
        held: Some((ObjectNo::REGISTRY, Object::Registry(registry))),
    }
}

/// Takes the least free file number.
#[tactic(auto, using(crate::proofs::Replies::file_replied))]
pub fn new_file<R: Reach>(alloc: Global, reach: &mut R, at: &mut At) -> Result<Reply, Stuck>
    requires ready { IsReady at.old (R.shown reach.old) }
    requires free { (R.shown reach.old).hands registry_no ≡ None }
    ensures reply { IfOk result IsFileReply }
    ensures goes { IfOk result (λ reply. Goes (deed_at registry_no [] Event.RegNewFile reply ∷ []) at.old at.new (R.shown reach.old) (R.shown reach.new)) }
    ensures sticks { IfErr result (λ stuck. Sticks at.old (turn registry_no Event.RegNewFile) stuck (R.shown reach.old) (R.shown reach.new)) }
    ensures same_at { OnErr result (at.new ≡ at.old) }
{
    let (slip, mut registry) = open_registry(alloc, reach, *at, Listed::nothing())?;
    let Turned { entry, value } = registry.new_file(slip);
    at.last = entry.stamp;
    reach.end(ObjectNo::REGISTRY, Object::Registry(registry), Some(entry));
    Ok(value)
}

/// Makes an outgoing name.
#[tactic(auto, using(crate::proofs::Replies::create_replied))]
pub fn create_name<R: Reach>(
    alloc: Global,
    reach: &mut R,
    at: &mut At,
    name: Name,
) -> Result<Reply, Stuck>
    requires ready { IsReady at.old (R.shown reach.old) }
    requires free { (R.shown reach.old).hands registry_no ≡ None }
    ensures reply { IfOk result IsCreateReply }
    ensures goes { IfOk result (λ reply. Goes (deed_at registry_no [] (Event.RegCreate name) reply ∷ []) at.old at.new (R.shown reach.old) (R.shown reach.new)) }
    ensures sticks { IfErr result (λ stuck. Sticks at.old (turn registry_no (Event.RegCreate name)) stuck (R.shown reach.old) (R.shown reach.new)) }
    ensures same_at { OnErr result (at.new ≡ at.old) }
{
    let (slip, mut registry) = open_registry(alloc, reach, *at, Listed::nothing())?;
    let Turned { entry, value } = registry.create(slip, name);
    at.last = entry.stamp;
    reach.end(ObjectNo::REGISTRY, Object::Registry(registry), Some(entry));
    Ok(value)
}

/// Finds the slot of an outgoing name.
#[tactic(auto, using(crate::proofs::Replies::find_replied))]
pub fn find_out<R: Reach>(
    alloc: Global,
    reach: &mut R,
    at: &mut At,
    name: Name,
) -> Result<Reply, Stuck>
    requires ready { IsReady at.old (R.shown reach.old) }
    requires free { (R.shown reach.old).hands registry_no ≡ None }
    ensures reply { IfOk result IsFindReply }
    ensures goes { IfOk result (λ reply. Goes (deed_at registry_no [] (Event.RegFindOut name) reply ∷ []) at.old at.new (R.shown reach.old) (R.shown reach.new)) }
    ensures sticks { IfErr result (λ stuck. Sticks at.old (turn registry_no (Event.RegFindOut name)) stuck (R.shown reach.old) (R.shown reach.new)) }
    ensures same_at { OnErr result (at.new ≡ at.old) }
{
    let (slip, mut registry) = open_registry(alloc, reach, *at, Listed::nothing())?;
    let Turned { entry, value } = registry.find_out(slip, name);
    at.last = entry.stamp;
    reach.end(ObjectNo::REGISTRY, Object::Registry(registry), Some(entry));
    Ok(value)
}

/// Gives a file number back.
pub fn free_file<R: Reach>(
    alloc: Global,
    reach: &mut R,
    at: &mut At,
    file: FileNo,
) -> Result<(), Stuck>
    requires ready { IsReady at.old (R.shown reach.old) }
    requires file { file.0 < FILES }
    requires free { (R.shown reach.old).hands registry_no ≡ None }
    ensures goes { OnOk result (Goes (deed_at registry_no [] (Event.RegFreeFile file) Reply.Ok ∷ []) at.old at.new (R.shown reach.old) (R.shown reach.new)) }
    ensures sticks { IfErr result (λ stuck. Sticks at.old (turn registry_no (Event.RegFreeFile file)) stuck (R.shown reach.old) (R.shown reach.new)) }
    ensures same_at { OnErr result (at.new ≡ at.old) }
{
    let (slip, mut registry) = open_registry(alloc, reach, *at, Listed::nothing())?;
    if !registry.in_use(file) {
        return Err(broken_registry(registry));
    }
    let Turned { entry, value: _ } = registry.free_file(slip, file);
    at.last = entry.stamp;
    reach.end(ObjectNo::REGISTRY, Object::Registry(registry), Some(entry));
    Ok(())
}

/// Ends an outgoing name.
pub fn drop_name<R: Reach>(
    alloc: Global,
    reach: &mut R,
    at: &mut At,
    name: Name,
) -> Result<(), Stuck>
    requires ready { IsReady at.old (R.shown reach.old) }
    requires free { (R.shown reach.old).hands registry_no ≡ None }
    ensures goes { OnOk result (Goes (deed_at registry_no [] (Event.RegDropName name) Reply.Ok ∷ []) at.old at.new (R.shown reach.old) (R.shown reach.new)) }
    ensures sticks { IfErr result (λ stuck. Sticks at.old (turn registry_no (Event.RegDropName name)) stuck (R.shown reach.old) (R.shown reach.new)) }
    ensures same_at { OnErr result (at.new ≡ at.old) }
{
    let (slip, mut registry) = open_registry(alloc, reach, *at, Listed::nothing())?;
    if !registry.is_out(name) {
        return Err(broken_registry(registry));
    }
    let Turned { entry, value: _ } = registry.drop_name(slip, name);
    at.last = entry.stamp;
    reach.end(ObjectNo::REGISTRY, Object::Registry(registry), Some(entry));
    Ok(())
}
