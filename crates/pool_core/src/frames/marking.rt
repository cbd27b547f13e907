//! Marks of many runs.

ghost use Rattle.std.specs.Prelude.{◌≡◌};
ghost use Rattle.std.specs.List.{All};
ghost use Rattle.ho_events.specs.Lists.{firsts};
ghost use Rattle.folio_bitmaps.specs.Runs.{run_at, IsRun};
ghost use Rattle.pool_core.specs.PoolFramesValues.{is_marked, mark_runs, unmark_runs, EachIsRun, EachMarked};

use crate::frames::table::start_of;
use folio_bitmaps::Tracker;
use ho_base::limits::MAX_ORDER;
use ho_base::numbers::{Order, Pfn};

/// Marks runs of one order.
pub(crate) fn mark_all(marks: &mut Tracker, order: Order, runs: &[Pfn])
    requires { EachIsRun marks.old.frames order.0 runs.now }
    ensures { marks.new ≡ record marks.old { runs = mark_runs order.0 (firsts runs.now) marks.old.runs } }
{
    let mut left = runs;
    while let Some((run, rest)) = left.split_first() {
        marks.mark(*run, order);
        left = rest;
    }
}

/// Takes the marks off runs of one order, each of which has one when its turn comes.
pub(crate) fn unmark_all(marks: &mut Tracker, order: Order, runs: &[Pfn])
    requires { EachMarked order.0 runs.now marks.old.runs }
    ensures { marks.new ≡ record marks.old { runs = unmark_runs order.0 (firsts runs.now) marks.old.runs } }
{
    let mut left = runs;
    while let Some((run, rest)) = left.split_first() {
        marks.unmark(*run, order);
        left = rest;
    }
}

/// Whether a marked run of some order holds a frame.
#[tactic(auto, using(crate::proofs::PoolAsking::none_marks, crate::proofs::PoolAsking::marks_not))]
pub(crate) fn marks_hold(marks: &Tracker, p: Pfn) -> bool
    ensures { result ≡ is_marked marks.now.runs p.0 }
{
    for o in 0..MAX_ORDER + 1 {
        if marks.has(start_of(p, Order(o)), Order(o)) {
            return true;
        }
    }
    false
}
