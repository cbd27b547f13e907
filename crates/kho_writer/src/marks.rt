//! The marks of what is carried.

ghost use Rattle.std.specs.Prelude.{◌≡◌, ◌≤◌, IfOk, IsTrue, []};
ghost use Rattle.std.specs.List.{list_all};
ghost use Rattle.ho_events.specs.Lists.{firsts};
ghost use Rattle.ho_base.specs.declared.limits.TheConstants.{MAX_ORDER};
ghost use Rattle.record_frames.specs.Rules.{is_run};
ghost use Rattle.kho_laws.specs.Carrying.{can_be_carried};
ghost use Rattle.kho_laws.specs.Sessions.{is_carried_file, is_carried_session};
ghost use Rattle.kho_writer.specs.Folios.{MarksOwn};
ghost use Rattle.kho_writer.specs.Marking.{with_runs, with_files, with_sessions};

use folio_bitmaps::Tracker;
use ho_base::numbers::{NoMemory, Order, Pfn};
use record_frames::{Carried, CarriedFile, CarriedSession};
use std::alloc::Global;

/// Marks the runs of an order that begin at these frames.
#[tactic(auto, unfolding(crate::specs::Marking::with_runs))]
fn mark_runs(tracker: &mut Tracker, order: Order, runs: &[Pfn])
    requires order { order.0 ≤ MAX_ORDER }
    requires runs { IsTrue (list_all (is_run tracker.old.frames order.0) (firsts runs.now)) }
    ensures { tracker.new ≡ record tracker.old { runs = with_runs order.0 tracker.old.runs runs.now } }
{
    for run in runs {
        tracker.mark(*run, order);
    }
}

/// Marks the runs of files.
#[tactic(auto, unfolding(crate::specs::Marking::with_files))]
fn mark_files(tracker: &mut Tracker, files: &[CarriedFile])
    requires { IsTrue (list_all (is_carried_file tracker.old.frames) files.now) }
    ensures { tracker.new ≡ record tracker.old { runs = with_files tracker.old.runs files.now } }
{
    for file in files {
        mark_runs(tracker, file.order, file.runs.as_slice());
    }
}

/// Marks the runs of the files of sessions.
#[tactic(auto, unfolding(crate::specs::Marking::with_sessions))]
fn mark_sessions(tracker: &mut Tracker, sessions: &[CarriedSession])
    requires { IsTrue (list_all (is_carried_session tracker.old.frames) sessions.now) }
    ensures { tracker.new ≡ record tracker.old { runs = with_sessions tracker.old.runs sessions.now } }
{
    for session in sessions {
        mark_files(tracker, session.files.as_slice());
    }
}

/// A tracker of the machine's frames, in which just the runs of the files are marked. There are no bound records.
pub fn tracker_of(alloc: Global, carried: &Carried) -> Result<Tracker, NoMemory>
    requires can { IsTrue (can_be_carried carried.now) }
    requires bounds { carried.now.bounds ≡ [] }
    ensures { IfOk result (λ t. MarksOwn carried.now t) }
{
    let mut tracker = Tracker::new(alloc, carried.shape.frames())?;
    mark_sessions(&mut tracker, carried.sessions.as_slice());
    Ok(tracker)
}
