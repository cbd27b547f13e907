//! The files of an incoming session that ends: the part of each, one after another.

ghost use Rattle.std.specs.Prelude.{◌≡◌, ◌<◌, ◌^◌, ◌∷◌, [], IfErr, OnErr, OnOk, length};
ghost use Rattle.ho_events.specs.Slips.{reply_runs};
ghost use Rattle.phys_frames.specs.Memory.{AreOf};
ghost use Rattle.session_core.specs.SessionShown.{AreFiles};
ghost use Rattle.machine_core.specs.Agents.{Agent};
ghost use Rattle.machine_core.specs.Turns.{IsReady, Goes};
ghost use Rattle.luo_calls.specs.Closing.{HasFree, deeds};
ghost use Rattle.luo_calls.specs.Doing.{SticksAfter};
ghost use Rattle.luo_calls.specs.Replies.{IsGivenUp};
ghost use Rattle.luo_incoming.specs.Finishing.{AreFinishesOf, HasFinished, after_finish};
ghost use Rattle.luo_incoming.specs.Replies.{IsFinishReply};

use crate::turns::file;
use ho_base::limits::FILES;
use ho_base::numbers::{FileNo, Order, Pfn};
use ho_events::reply::Reply;
use ho_events::slip::At;
use luo_calls::commands::close_files::{Kept, give_any};
use luo_calls::turns::registry::free_file;
use luo_calls::{Stopped, Stuck};
use machine_core::Reach;
use phys_frames::folio::Folio;
use std::alloc::Global;

/// The rest of a file's part where nothing has it any more: its folios go back, and its number.
fn finish_gone<R: Reach>(
    alloc: Global,
    reach: &mut R,
    at: &mut At,
    file: FileNo,
    order: Order,
    runs: &[Pfn],
    given: &mut Vec<Folio>,
) -> Result<(), Stuck>
    requires ready { IsReady at.old (R.shown reach.old) }
    requires free { HasFree (R.shown reach.old) }
    requires file { file.0 < FILES }
    requires few { length runs.now < 2 ^ 32 }
    requires given { IsGivenUp (R.shown reach.old).anchor.home order (Reply.Gone runs.now) given.old.items }
    ensures goes { OnOk result (Goes (deeds (after_finish file order (Reply.Gone runs.now))) at.old at.new (R.shown reach.old) (R.shown reach.new)) }
    ensures given { OnOk result (given.new.items ≡ []) }
    ensures sticks { IfErr result (λ stuck. SticksAfter (λ ds. ds ≡ deeds (after_finish file order (Reply.Gone runs.now))) stuck at.old at.new (R.shown reach.old) (R.shown reach.new)) }
    ensures given_up { OnErr result (AreOf (R.shown reach.old).anchor.home given.new.items) }
{
    give_any(alloc, reach, at, order, given)?;
    free_file(alloc, reach, at, file)?;
    Ok(())
}

/// The rest of a file's part, by what the end of the session's hold was answered and which folios it gave up.
fn finish_rest<R: Reach>(
    alloc: Global,
    reach: &mut R,
    at: &mut At,
    file: FileNo,
    order: Order,
    reply: Reply,
    given: &mut Vec<Folio>,
) -> Result<(), Stuck>
    requires ready { IsReady at.old (R.shown reach.old) }
    requires free { HasFree (R.shown reach.old) }
    requires file { file.0 < FILES }
    requires reply { IsFinishReply reply }
    requires few { length (reply_runs reply) < 2 ^ 32 }
    requires given { IsGivenUp (R.shown reach.old).anchor.home order reply given.old.items }
    ensures goes { OnOk result (Goes (deeds (after_finish file order reply)) at.old at.new (R.shown reach.old) (R.shown reach.new)) }
    ensures given { OnOk result (given.new.items ≡ []) }
    ensures sticks { IfErr result (λ stuck. SticksAfter (λ ds. ds ≡ deeds (after_finish file order reply)) stuck at.old at.new (R.shown reach.old) (R.shown reach.new)) }
    ensures given_up { OnErr result (AreOf (R.shown reach.old).anchor.home given.new.items) }
{
    match reply {
        Reply::Kept => Ok(()),
        Reply::Gone(runs) => finish_gone(alloc, reach, at, file, order, runs.as_slice(), given),
        _ => unreachable!(),
    }
}

/// The part of one file: the session's hold ends, and where nothing has the file any more, it goes.
fn finish_file<R: Reach>(
    alloc: Global,
    reach: &mut R,
    at: &mut At,
    kept: Kept,
) -> Result<(), Stopped>
    requires ready { IsReady at.old (R.shown reach.old) }
    requires free { HasFree (R.shown reach.old) }
    requires file { kept.1.0 < FILES }
    ensures finished { OnOk result (HasFinished (kept ∷ []) at.old at.new (R.shown reach.old) (R.shown reach.new)) }
    ensures stopped { IfErr result (λ s. SticksAfter (AreFinishesOf (kept ∷ [])) s.stuck at.old at.new (R.shown reach.old) (R.shown reach.new)) }
    ensures given_up { IfErr result (λ s. AreOf (R.shown reach.old).anchor.home s.folios.items) }
{
    let mut given = Vec::new(alloc);
    let (order, reply) = match file::finish_file(alloc, reach, at, kept.1, &mut given) {
        Ok(ended) => ended,
        Err(stuck) => {
            return Err(Stopped {
                folios: given,
                stuck,
            });
        }
    };
    match finish_rest(alloc, reach, at, kept.1, order, reply, &mut given) {
        Ok(()) => {
            given.destroy_empty();
            Ok(())
        }
        Err(stuck) => Err(Stopped {
            folios: given,
            stuck,
        }),
    }
}

/// The parts of a session's files, one after another.
///
/// # Errors
///
/// The turn that can't be taken, with the folios that a file gave up.
pub fn finish_files<R: Reach>(
    alloc: Global,
    reach: &mut R,
    at: &mut At,
    files: &[Kept],
) -> Result<(), Stopped>
    requires ready { IsReady at.old (R.shown reach.old) }
    requires free { HasFree (R.shown reach.old) }
    requires files { AreFiles files.now }
    ensures finished { OnOk result (HasFinished files.now at.old at.new (R.shown reach.old) (R.shown reach.new)) }
    ensures stopped { IfErr result (λ s. SticksAfter (AreFinishesOf files.now) s.stuck at.old at.new (R.shown reach.old) (R.shown reach.new)) }
    ensures given_up { IfErr result (λ s. AreOf (R.shown reach.old).anchor.home s.folios.items) }
{
    for kept in files {
        finish_file(alloc, reach, at, *kept)?;
    }
    Ok(())
}
