//! The files of a session that ends: the part of each, one after another.

ghost use Rattle.std.specs.Prelude.{◌≡◌, ◌<◌, ◌^◌, ◌∷◌, [], IfErr, OnErr, OnOk, None, length, vec_len};
ghost use Rattle.std.specs.List.{All};
ghost use Rattle.ho_base.specs.Objects.{pool_no, registry_no};
ghost use Rattle.ho_events.specs.Slips.{reply_runs};
ghost use Rattle.ho_world.specs.Logs.{deed_at};
ghost use Rattle.phys_frames.specs.Memory.{AreOf, first_frames};
ghost use Rattle.session_core.specs.SessionShown.{AreFiles};
ghost use Rattle.machine_core.specs.Agents.{Agent};
ghost use Rattle.machine_core.specs.Turns.{IsReady, Goes};
ghost use Rattle.luo_calls.specs.Closing.{ArePartsOf, HasClosed, HasFree, after_unpin, deeds, given_back, has_number, have_own_numbers, unmarked};
ghost use Rattle.luo_calls.specs.Doing.{SticksAfter};
ghost use Rattle.luo_calls.specs.Replies.{IsGivenUp, IsUnpinReply};
ghost use Rattle.luo_calls.specs.Stuck.{Sticks, turn_of};

use crate::stuck::{Stopped, Stuck};
use crate::turns::file::unpin;
use crate::turns::pool::{give, unmark};
use crate::turns::registry::free_file;
use ho_base::Items;
use ho_base::limits::FILES;
use ho_base::numbers::{FileNo, Order, Pfn, Token};
use ho_events::event::Event;
use ho_events::reply::Reply;
use ho_events::slip::At;
use machine_core::Reach;
use phys_frames::folio::Folio;
use std::alloc::Global;

/// A file as its session keeps it: its token, its number and its handle.
pub type Kept = (Token, FileNo, u64);

/// Whether no file stands twice. It compares each two of them.
#[tactic(auto, using(crate::proofs::ClosedParts::repeats, crate::proofs::ClosedParts::goes_on, crate::proofs::ClosedParts::none_repeats))]
pub fn are_all_different(files: &[Kept]) -> bool
    ensures { result ≡ have_own_numbers files.now }
{
    let mut left = files;
    while let Some((kept, rest)) = left.split_first() {
        if is_among(rest, kept.1) {
            return false;
        }
        left = rest;
    }
    true
}

/// Whether a file is one of these.
#[tactic(auto, unfolding(crate::specs::Closing::has_number))]
fn is_among(files: &[Kept], file: FileNo) -> bool
    ensures { result ≡ has_number file.0 files.now }
{
    files.iter().any(|f| f.1.0 == file.0)
}

/// Ends the pins of a file's runs, where it has some.
fn unmark_any<R: Reach>(
    alloc: Global,
    reach: &mut R,
    at: &mut At,
    order: Order,
    runs: &[Pfn],
) -> Result<(), Stuck>
    requires ready { IsReady at.old (R.shown reach.old) }
    requires free { (R.shown reach.old).hands pool_no ≡ None }
    requires few { length runs.now < 2 ^ 32 }
    ensures goes { OnOk result (Goes (deeds (unmarked order runs.now)) at.old at.new (R.shown reach.old) (R.shown reach.new)) }
    ensures sticks { IfErr result (λ stuck. Sticks at.old (turn_of (deeds (unmarked order runs.now))) stuck (R.shown reach.old) (R.shown reach.new)) }
    ensures same_at { OnErr result (at.new ≡ at.old) }
{
    match runs {
        [] => Ok(()),
        _ => unmark(alloc, reach, at, order, runs),
    }
}

/// Gives folios back, where there are some. The list is empty afterwards; where the turn isn't taken, it is as it was.
pub fn give_any<R: Reach>(
    alloc: Global,
    reach: &mut R,
    at: &mut At,
    order: Order,
    folios: &mut Vec<Folio>,
) -> Result<(), Stuck>
    requires ready { IsReady at.old (R.shown reach.old) }
    requires free { (R.shown reach.old).hands pool_no ≡ None }
    requires few { vec_len folios.old < 2 ^ 32 }
    requires of_home { AreOf (R.shown reach.old).anchor.home folios.old.items }
    requires of_order { All (λ f. f.order ≡ order) folios.old.items }
    ensures goes { OnOk result (Goes (deeds (given_back order (first_frames folios.old.items))) at.old at.new (R.shown reach.old) (R.shown reach.new)) }
    ensures given { OnOk result (folios.new.items ≡ []) }
    ensures sticks { IfErr result (λ stuck. Sticks at.old (turn_of (deeds (given_back order (first_frames folios.old.items)))) stuck (R.shown reach.old) (R.shown reach.new)) }
    ensures same_at { OnErr result (at.new ≡ at.old) }
    ensures kept { OnErr result (folios.new.items ≡ folios.old.items) }
{
    match folios.as_slice() {
        [] => Ok(()),
        _ => give(alloc, reach, at, order, folios),
    }
}

/// The rest of a file's part where nothing has it any more: its folios go back, and its number.
fn close_gone<R: Reach>(
    alloc: Global,
    reach: &mut R,
    at: &mut At,
    file: FileNo,
    order: Order,
    runs: &[Pfn],
    given: &mut Vec<Folio>,
) -> Result<(), Stuck>
    requires ready { IsReady at.old (R.shown reach.old) }
    requires free { HasFree (R.shown reach.old) }
    requires file { file.0 < FILES }
    requires few { length runs.now < 2 ^ 32 }
    requires given { IsGivenUp (R.shown reach.old).anchor.home order (Reply.Gone runs.now) given.old.items }
    ensures goes { OnOk result (Goes (deeds (after_unpin file order (Reply.Gone runs.now))) at.old at.new (R.shown reach.old) (R.shown reach.new)) }
    ensures given { OnOk result (given.new.items ≡ []) }
    ensures sticks { IfErr result (λ stuck. SticksAfter (λ ds. ds ≡ deeds (after_unpin file order (Reply.Gone runs.now))) stuck at.old at.new (R.shown reach.old) (R.shown reach.new)) }
    ensures given_up { OnErr result (AreOf (R.shown reach.old).anchor.home given.new.items) }
{
    unmark_any(alloc, reach, at, order, runs)?;
    give_any(alloc, reach, at, order, given)?;
    free_file(alloc, reach, at, file)?;
    Ok(())
}

/// The rest of a file's part, by what the end of its pin was answered and which folios it gave up.
fn close_rest<R: Reach>(
    alloc: Global,
    reach: &mut R,
    at: &mut At,
    file: FileNo,
    order: Order,
    reply: Reply,
    given: &mut Vec<Folio>,
) -> Result<(), Stuck>
    requires ready { IsReady at.old (R.shown reach.old) }
    requires free { HasFree (R.shown reach.old) }
    requires file { file.0 < FILES }
    requires reply { IsUnpinReply reply }
    requires few { length (reply_runs reply) < 2 ^ 32 }
    requires given { IsGivenUp (R.shown reach.old).anchor.home order reply given.old.items }
    ensures goes { OnOk result (Goes (deeds (after_unpin file order reply)) at.old at.new (R.shown reach.old) (R.shown reach.new)) }
    ensures given { OnOk result (given.new.items ≡ []) }
    ensures sticks { IfErr result (λ stuck. SticksAfter (λ ds. ds ≡ deeds (after_unpin file order reply)) stuck at.old at.new (R.shown reach.old) (R.shown reach.new)) }
    ensures given_up { OnErr result (AreOf (R.shown reach.old).anchor.home given.new.items) }
{
    match reply {
        Reply::KeptRuns(runs) => unmark_any(alloc, reach, at, order, runs.as_slice()),
        Reply::Gone(runs) => close_gone(alloc, reach, at, file, order, runs.as_slice(), given),
        _ => unreachable!(),
    }
}

/// The part of one file: its pin ends, and where nothing has it any more, it goes.
fn close_file<R: Reach>(
    alloc: Global,
    reach: &mut R,
    at: &mut At,
    kept: Kept,
) -> Result<(), Stopped>
    requires ready { IsReady at.old (R.shown reach.old) }
    requires free { HasFree (R.shown reach.old) }
    requires file { kept.1.0 < FILES }
    ensures closed { OnOk result (HasClosed (kept ∷ []) at.old at.new (R.shown reach.old) (R.shown reach.new)) }
    ensures stopped { IfErr result (λ s. SticksAfter (ArePartsOf (kept ∷ [])) s.stuck at.old at.new (R.shown reach.old) (R.shown reach.new)) }
    ensures given_up { IfErr result (λ s. AreOf (R.shown reach.old).anchor.home s.folios.items) }
{
    let mut given = Vec::new(alloc);
    let (order, reply) = match unpin(alloc, reach, at, kept.1, &mut given) {
        Ok(unpinned) => unpinned,
        Err(stuck) => {
            return Err(Stopped {
                folios: given,
                stuck,
            });
        }
    };
    match close_rest(alloc, reach, at, kept.1, order, reply, &mut given) {
        Ok(()) => {
            given.destroy_empty();
            Ok(())
        }
        Err(stuck) => Err(Stopped {
            folios: given,
            stuck,
        }),
    }
}

/// The parts of a session's files, one after another.
///
/// # Errors
///
/// The turn that can't be taken, with the folios that a file gave up.
pub fn close_files<R: Reach>(
    alloc: Global,
    reach: &mut R,
    at: &mut At,
    files: &[Kept],
) -> Result<(), Stopped>
    requires ready { IsReady at.old (R.shown reach.old) }
    requires free { HasFree (R.shown reach.old) }
    requires files { AreFiles files.now }
    ensures closed { OnOk result (HasClosed files.now at.old at.new (R.shown reach.old) (R.shown reach.new)) }
    ensures stopped { IfErr result (λ s. SticksAfter (ArePartsOf files.now) s.stuck at.old at.new (R.shown reach.old) (R.shown reach.new)) }
    ensures given_up { IfErr result (λ s. AreOf (R.shown reach.old).anchor.home s.folios.items) }
{
    for kept in files {
        close_file(alloc, reach, at, *kept)?;
    }
    Ok(())
}
