//! The turns on the registry.

ghost use Rattle.std.specs.Prelude.{◌≡◌, ◌∷◌, [], IfOk, OnOk, IfErr, OnErr, None};
ghost use Rattle.ho_base.specs.Objects.{registry_no};
ghost use Rattle.ho_world.specs.Logs.{deed_at};
ghost use Rattle.machine_core.specs.Agents.{Agent};
ghost use Rattle.machine_core.specs.Turns.{IsReady, Goes};
ghost use Rattle.luo_calls.specs.Stuck.{Sticks, turn};
ghost use Rattle.luo_incoming.specs.Replies.{IsFindInReply, IsOpenReply};

use ho_base::name::Name;
use ho_base::numbers::ObjectNo;
use ho_events::event::Event;
use ho_events::reply::Reply;
use ho_events::slip::{At, Listed, Turned};
use luo_calls::Stuck;
use luo_calls::turns::open::open_registry;
use luo_calls::turns::registry::broken_registry;
use machine_core::{Object, Reach};
use std::alloc::Global;

/// Opens a waiting name.
#[tactic(auto, using(crate::proofs::Replies::open_replied))]
pub fn open_name<R: Reach>(
    alloc: Global,
    reach: &mut R,
    at: &mut At,
    name: Name,
) -> Result<Reply, Stuck>
    requires ready { IsReady at.old (R.shown reach.old) }
    requires free { (R.shown reach.old).hands registry_no ≡ None }
    ensures reply { IfOk result IsOpenReply }
    ensures goes { IfOk result (λ reply. Goes (deed_at registry_no [] (Event.RegOpen name) reply ∷ []) at.old at.new (R.shown reach.old) (R.shown reach.new)) }
    ensures sticks { IfErr result (λ stuck. Sticks at.old (turn registry_no (Event.RegOpen name)) stuck (R.shown reach.old) (R.shown reach.new)) }
    ensures same_at { OnErr result (at.new ≡ at.old) }
{
    let (slip, mut registry) = open_registry(alloc, reach, *at, Listed::nothing())?;
    let Turned { entry, value } = registry.open(slip, name);
    at.last = entry.stamp;
    reach.end(ObjectNo::REGISTRY, Object::Registry(registry), Some(entry));
    Ok(value)
}

/// Finds the slot of an opened name.
#[tactic(auto, using(crate::proofs::Replies::find_in_replied))]
pub fn find_in<R: Reach>(
    alloc: Global,
    reach: &mut R,
    at: &mut At,
    name: Name,
) -> Result<Reply, Stuck>
    requires ready { IsReady at.old (R.shown reach.old) }
    requires free { (R.shown reach.old).hands registry_no ≡ None }
    ensures reply { IfOk result IsFindInReply }
    ensures goes { IfOk result (λ reply. Goes (deed_at registry_no [] (Event.RegFindIn name) reply ∷ []) at.old at.new (R.shown reach.old) (R.shown reach.new)) }
    ensures sticks { IfErr result (λ stuck. Sticks at.old (turn registry_no (Event.RegFindIn name)) stuck (R.shown reach.old) (R.shown reach.new)) }
    ensures same_at { OnErr result (at.new ≡ at.old) }
{
    let (slip, mut registry) = open_registry(alloc, reach, *at, Listed::nothing())?;
    let Turned { entry, value } = registry.find_in(slip, name);
    at.last = entry.stamp;
    reach.end(ObjectNo::REGISTRY, Object::Registry(registry), Some(entry));
    Ok(value)
}

/// Ends an opened name.
pub fn drop_in<R: Reach>(alloc: Global, reach: &mut R, at: &mut At, name: Name) -> Result<(), Stuck>
    requires ready { IsReady at.old (R.shown reach.old) }
    requires free { (R.shown reach.old).hands registry_no ≡ None }
    ensures goes { OnOk result (Goes (deed_at registry_no [] (Event.RegDropIn name) Reply.Ok ∷ []) at.old at.new (R.shown reach.old) (R.shown reach.new)) }
    ensures sticks { IfErr result (λ stuck. Sticks at.old (turn registry_no (Event.RegDropIn name)) stuck (R.shown reach.old) (R.shown reach.new)) }
    ensures same_at { OnErr result (at.new ≡ at.old) }
{
    let (slip, mut registry) = open_registry(alloc, reach, *at, Listed::nothing())?;
    if !registry.is_opened(name) {
        return Err(broken_registry(registry));
    }
    let Turned { entry, value: _ } = registry.drop_in(slip, name);
    at.last = entry.stamp;
    reach.end(ObjectNo::REGISTRY, Object::Registry(registry), Some(entry));
    Ok(())
}
