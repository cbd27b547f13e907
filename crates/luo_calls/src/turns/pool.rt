//! The turns on the pool.

ghost use Rattle.std.specs.Prelude.{◌≡◌, ◌+◌, ◌≤◌, ◌<◌, ◌^◌, ◌∷◌, [], IfOk, OnOk, OnErr, IfErr, None, Some, length, map, MatchOption, vec_len, vec_capacity};
ghost use Rattle.std.specs.List.{All};
ghost use Rattle.ho_base.specs.Objects.{pool_no};
ghost use Rattle.ho_base.specs.declared.limits.TheConstants.{MAX_ORDER};
ghost use Rattle.ho_world.specs.Logs.{deed_at};
ghost use Rattle.phys_frames.specs.Memory.{AreOf, first_frames};
ghost use Rattle.pool_core.specs.PoolLending.{zeroed_run};
ghost use Rattle.machine_core.specs.Agents.{Agent};
ghost use Rattle.machine_core.specs.Turns.{IsReady, Goes};
ghost use Rattle.luo_calls.specs.Stuck.{Sticks, turn};
ghost use Rattle.luo_calls.specs.Takes.{TookRuns};

use crate::stuck::Stuck;
use crate::turns::open::open_pool;
use ho_base::Items;
use ho_base::numbers::{ObjectNo, Order, Pfn};
use ho_events::event::Event;
use ho_events::reply::Reply;
use ho_events::slip::{At, Listed, Turned};
use machine_core::{Halt, Object, Reach};
use phys_frames::folio::Folio;
use pool_core::Pool;
use std::alloc::Global;
use std::snapshot::Snapshot;

/// The pool, still in hand, that can't make the event that is due.
fn broken_pool(pool: Pool) -> Stuck
    ensures halt { result.halt ≡ Halt.Broken (record { 0 = pool_no }) }
    ensures held { result.held ≡ Some (record { 0 = pool_no }, Object.Pool pool) }
{
    Stuck {
        halt: Halt::Broken(ObjectNo::POOL),
        held: Some((ObjectNo::POOL, Object::Pool(pool))),
    }
}

/// Takes as many runs of an order into the empty list; none, with nothing taken, where too few are free. What is known
/// of the objects in hand may be read at this turn.
pub fn take_runs<R: Reach>(
    alloc: Global,
    reach: &mut R,
    at: &mut At,
    order: Order,
    count: u32,
    out: &mut Vec<Folio>,
) -> Result<Option<Snapshot<Items<Pfn>>>, Stuck>
    requires ready { IsReady at.old (R.shown reach.old) }
    requires free { (R.shown reach.old).hands pool_no ≡ None }
    requires order { order.0 ≤ MAX_ORDER }
    requires some { 1 ≤ count }
    requires empty { out.old.items ≡ [] }
    requires spare { vec_len out.old + count ≤ vec_capacity out.old }
    ensures got { IfOk result (λ got. TookRuns order count at.old at.new (R.shown reach.old) (R.shown reach.new) got) }
    ensures out { IfOk result (λ got. MatchOption got (out.new.items ≡ []) (λ runs. out.new.items ≡ map (zeroed_run (R.shown reach.old).anchor.home order) runs.value)) }
    ensures count { IfOk result (λ got. MatchOption got (vec_len out.new ≡ 0) (λ runs. length runs.value ≡ count)) }
    ensures sticks { IfErr result (λ stuck. Sticks at.old (turn pool_no (Event.PoolTake order count)) stuck (R.shown reach.old) (R.shown reach.new)) }
    ensures same_at { OnErr result (at.new ≡ at.old) }
    ensures err_out { OnErr result (out.new.items ≡ []) }
{
    let (slip, mut pool) = open_pool(alloc, reach, *at, Listed::in_reply(count, 0))?;
    let Turned { entry, value } = pool.take(slip, order, count, out);
    at.last = entry.stamp;
    let got = match &entry.reply {
        Reply::Got(runs) => Some(Snapshot::of(runs)),
        _ => None,
    };
    let _taken = value;
    reach.end(ObjectNo::POOL, Object::Pool(pool), Some(entry));
    Ok(got)
}

/// Pins the frames of owned runs of one order.
pub fn mark<R: Reach>(
    alloc: Global,
    reach: &mut R,
    at: &mut At,
    order: Order,
    runs: &[Pfn],
) -> Result<(), Stuck>
    requires ready { IsReady at.old (R.shown reach.old) }
    requires free { (R.shown reach.old).hands pool_no ≡ None }
    requires few { length runs.now < 2 ^ 32 }
    ensures goes { OnOk result (Goes (deed_at pool_no [] (Event.PoolMark order runs.now) Reply.Ok ∷ []) at.old at.new (R.shown reach.old) (R.shown reach.new)) }
    ensures sticks { IfErr result (λ stuck. Sticks at.old (turn pool_no (Event.PoolMark order runs.now)) stuck (R.shown reach.old) (R.shown reach.new)) }
    ensures same_at { OnErr result (at.new ≡ at.old) }
{
    let listed = Listed::in_event(runs.len() as u32, 0);
    let (slip, mut pool) = open_pool(alloc, reach, *at, listed)?;
    if !pool.can_mark(order, runs) {
        return Err(broken_pool(pool));
    }
    let Turned { entry, value: _ } = pool.mark(slip, order, runs);
    at.last = entry.stamp;
    reach.end(ObjectNo::POOL, Object::Pool(pool), Some(entry));
    Ok(())
}

/// Ends the pins of the frames of runs of one order.
pub fn unmark<R: Reach>(
    alloc: Global,
    reach: &mut R,
    at: &mut At,
    order: Order,
    runs: &[Pfn],
) -> Result<(), Stuck>
    requires ready { IsReady at.old (R.shown reach.old) }
    requires free { (R.shown reach.old).hands pool_no ≡ None }
    requires few { length runs.now < 2 ^ 32 }
    ensures goes { OnOk result (Goes (deed_at pool_no [] (Event.PoolUnmark order runs.now) Reply.Ok ∷ []) at.old at.new (R.shown reach.old) (R.shown reach.new)) }
    ensures sticks { IfErr result (λ stuck. Sticks at.old (turn pool_no (Event.PoolUnmark order runs.now)) stuck (R.shown reach.old) (R.shown reach.new)) }
    ensures same_at { OnErr result (at.new ≡ at.old) }
{
    let listed = Listed::in_event(runs.len() as u32, 0);
    let (slip, mut pool) = open_pool(alloc, reach, *at, listed)?;
    if !pool.can_unmark(order, runs) {
        return Err(broken_pool(pool));
    }
    let Turned { entry, value: _ } = pool.unmark(slip, order, runs);
    at.last = entry.stamp;
    reach.end(ObjectNo::POOL, Object::Pool(pool), Some(entry));
    Ok(())
}

/// Gives folios of one order back. The list is empty afterwards; where the turn isn't taken, it is as it was.
pub fn give<R: Reach>(
    alloc: Global,
    reach: &mut R,
    at: &mut At,
    order: Order,
    folios: &mut Vec<Folio>,
) -> Result<(), Stuck>
    requires ready { IsReady at.old (R.shown reach.old) }
    requires free { (R.shown reach.old).hands pool_no ≡ None }
    requires few { vec_len folios.old < 2 ^ 32 }
    requires of_home { AreOf (R.shown reach.old).anchor.home folios.old.items }
    requires of_order { All (λ f. f.order ≡ order) folios.old.items }
    ensures goes { OnOk result (Goes (deed_at pool_no [] (Event.PoolGive order (first_frames folios.old.items)) Reply.Ok ∷ []) at.old at.new (R.shown reach.old) (R.shown reach.new)) }
    ensures given { OnOk result (folios.new.items ≡ []) }
    ensures sticks { IfErr result (λ stuck. Sticks at.old (turn pool_no (Event.PoolGive order (first_frames folios.old.items))) stuck (R.shown reach.old) (R.shown reach.new)) }
    ensures same_at { OnErr result (at.new ≡ at.old) }
    ensures kept { OnErr result (folios.new.items ≡ folios.old.items) }
{
    let listed = Listed::in_event(folios.len() as u32, 0);
    let (slip, mut pool) = open_pool(alloc, reach, *at, listed)?;
    if !pool.can_give(order, folios.as_slice()) {
        return Err(broken_pool(pool));
    }
    let Turned { entry, value: _ } = pool.give(slip, order, folios);
    at.last = entry.stamp;
    reach.end(ObjectNo::POOL, Object::Pool(pool), Some(entry));
    Ok(())
}
