//! The turns on a file that make it, and that end its pin or the label's hold.

ghost use Rattle.std.specs.Prelude.{◌≡◌, ◌+◌, ◌≤◌, ◌<◌, ◌^◌, ◌∷◌, [], IfOk, OnOk, OnErr, IfErr, None, Some, MatchOption, length, option_map, true, vec_len, vec_capacity};
ghost use Rattle.ho_base.specs.Objects.{file_no};
ghost use Rattle.ho_base.specs.declared.limits.TheConstants.{MAX_ORDER};
ghost use Rattle.ho_base.specs.declared.numbers.Kind.TheVariants.{Memfd};
ghost use Rattle.ho_events.specs.Slips.{reply_runs};
ghost use Rattle.ho_world.specs.Acts.{IsFile};
ghost use Rattle.ho_world.specs.Logs.{deed_at};
ghost use Rattle.file_folios.specs.FileAnswers.{facts_of};
ghost use Rattle.memfd_file.specs.FileValues.{FileIs};
ghost use Rattle.memfd_file.specs.Files.{FileHas};
ghost use Rattle.machine_core.specs.Agents.{Agent};
ghost use Rattle.machine_core.specs.Turns.{IsReady, Goes, is_by_label, is_of_runs};
ghost use Rattle.luo_calls.specs.ClosingFds.{read_of};
ghost use Rattle.luo_calls.specs.Memfds.{IsMemfd, IsOtherFile};
ghost use Rattle.luo_calls.specs.Opened.{Opens};
ghost use Rattle.luo_calls.specs.Replies.{IsUnpinReply, IsCloseFdReply, IsGivenUp};
ghost use Rattle.luo_calls.specs.Stuck.{Sticks, turn};

use crate::stuck::Stuck;
use crate::turns::open::{begin_file, open_file};
use crate::turns::resume::{resume, under};
use ho_base::limits::{FILES, MAX_ORDER};
use ho_base::numbers::{FileNo, Kind, ObjectNo, Order};
use ho_events::event::Event;
use ho_events::reply::Reply;
use ho_events::slip::{At, Listed, Slip, Turned};
use machine_core::{Halt, Object, Reach};
use memfd_file::{Facts, FileObject};
use phys_frames::folio::Folio;
use std::alloc::Global;

/// A file, still in hand, that can't make the event that is due.
pub fn broken_file(number: ObjectNo, file: FileObject) -> Stuck
    ensures halt { result.halt ≡ Halt.Broken number }
    ensures held { result.held ≡ Some (number, Object.File file) }
{
    Stuck {
        halt: Halt::Broken(number),
        held: Some((number, Object::File(file))),
    }
}

/// Makes an absent file an open, empty memfd of an order.
pub fn init<R: Reach>(
    alloc: Global,
    reach: &mut R,
    at: &mut At,
    file: FileNo,
    order: Order,
) -> Result<(), Stuck>
    requires ready { IsReady at.old (R.shown reach.old) }
    requires file { file.0 < FILES }
    requires order { order.0 ≤ MAX_ORDER }
    requires free { (R.shown reach.old).hands (file_no file.0) ≡ None }
    ensures goes { OnOk result (Goes (deed_at (file_no file.0) [] (Event.FileInit Memfd order 0 []) Reply.Ok ∷ []) at.old at.new (R.shown reach.old) (R.shown reach.new)) }
    ensures sticks { IfErr result (λ stuck. Sticks at.old (turn (file_no file.0) (Event.FileInit Memfd order 0 [])) stuck (R.shown reach.old) (R.shown reach.new)) }
    ensures same_at { OnErr result (at.new ≡ at.old) }
{
    let (slip, mut object) = open_file(alloc, reach, *at, file, Listed::nothing())?;
    let number = ObjectNo::of_file(file);
    if object.is_present() {
        return Err(broken_file(number, object));
    }
    let Turned { entry, value: _ } = object.init(alloc, slip, Kind::Memfd, order, 0);
    at.last = entry.stamp;
    reach.end(number, Object::File(object), Some(entry));
    Ok(())
}

/// The order of a file that is a memfd of an order that runs may have; none where the file is absent or another one.
pub fn memfd_order(facts: Option<Facts>) -> Option<Order>
    ensures { MatchOption result (IsOtherFile facts) (λ o. IsMemfd facts o) }
{
    match facts {
        Some(facts) => match facts.kind {
            Kind::Memfd if facts.order.0 <= MAX_ORDER => Some(facts.order),
            _ => None,
        },
        None => None,
    }
}

/// Takes a file that a label has, which is an open memfd, and tells its order.
pub fn open_label<R: Reach>(
    reach: &mut R,
    at: At,
    file: FileNo,
) -> Result<(FileObject, Order), Stuck>
    requires file { file.0 < FILES }
    requires free { (R.shown reach.old).hands (file_no file.0) ≡ None }
    ensures opens { IfOk result (λ t. Opens at (file_no file.0) (R.shown reach.old) (R.shown reach.new) (Object.File t.0)) }
    ensures memfd { IfOk result (λ t. FileIs t.0 (λ s. IsMemfd (option_map facts_of s) t.1)) }
    ensures opened { IfOk result (λ t. FileHas t.0 (λ f. f.opened ≡ true)) }
    ensures sticks { IfErr result (λ stuck. (event : Event) → is_by_label event ≡ true → is_of_runs event ≡ true → Sticks at (turn (file_no file.0) event) stuck (R.shown reach.old) (R.shown reach.new)) }
{
    let object = begin_file(reach, at, file)?;
    let number = ObjectNo::of_file(file);
    if !object.is_open() {
        return Err(broken_file(number, object));
    }
    match memfd_order(object.facts()) {
        Some(order) => Ok((object, order)),
        None => Err(broken_file(number, object)),
    }
}

/// Takes a file that an outgoing session has, which is a pinned memfd, and tells its order.
fn open_pinned<R: Reach>(reach: &mut R, at: At, file: FileNo) -> Result<(FileObject, Order), Stuck>
    requires file { file.0 < FILES }
    requires free { (R.shown reach.old).hands (file_no file.0) ≡ None }
    ensures opens { IfOk result (λ t. Opens at (file_no file.0) (R.shown reach.old) (R.shown reach.new) (Object.File t.0)) }
    ensures memfd { IfOk result (λ t. FileIs t.0 (λ s. IsMemfd (option_map facts_of s) t.1)) }
    ensures pinned { IfOk result (λ t. FileHas t.0 (λ f. f.pin ≡ true)) }
    ensures sticks { IfErr result (λ stuck. Sticks at (turn (file_no file.0) Event.FileUnpin) stuck (R.shown reach.old) (R.shown reach.new)) }
{
    let object = begin_file(reach, at, file)?;
    let number = ObjectNo::of_file(file);
    if !object.is_pinned() {
        return Err(broken_file(number, object));
    }
    match memfd_order(object.facts()) {
        Some(order) => Ok((object, order)),
        None => Err(broken_file(number, object)),
    }
}

/// What the end of a turn wants that reports so many runs and gives up as many folios, beside the file, which is in hand:
/// room in the list for the folios, and what any turn wants.
pub(crate) fn resume_giving<R: Reach>(
    alloc: Global,
    reach: &mut R,
    at: At,
    count: u32,
    given: &mut Vec<Folio>,
) -> Result<Slip, Stuck>
    requires empty { given.old.items ≡ [] }
    ensures at { IfOk result (λ slip. slip.at ≡ at) }
    ensures listed { IfOk result (λ slip. slip.room.reply_numbers ≡ count) }
    ensures early { OnOk result (at.last < 2 ^ 63) }
    ensures room { OnOk result (1 ≤ (R.shown reach.new).room) }
    ensures kept { R.shown reach.new ≡ record (R.shown reach.old) { room = (R.shown reach.new).room } }
    ensures empty { given.new.items ≡ [] }
    ensures spare { OnOk result (vec_len given.new + count ≤ vec_capacity given.new) }
    ensures sticks { IfErr result (λ stuck. Sticks at None stuck (R.shown reach.old) (R.shown reach.new)) }
{
    if given.reserve(count as usize).is_err() {
        return Err(Stuck {
            halt: Halt::Memory,
            held: None,
        });
    }
    resume(alloc, reach, at, Listed::in_reply(count, 0))
}

/// Ends the pin of a memfd. It answers the file's order and the reply with all runs; where nothing holds the file
/// any more, its folios are put into the empty list. It costs the number of the file's indexes.
#[tactic(auto, using(crate::proofs::FileReplies::unpin_replied, crate::proofs::FileReplies::runs_fit))]
pub fn unpin<R: Reach>(
    alloc: Global,
    reach: &mut R,
    at: &mut At,
    file: FileNo,
    given: &mut Vec<Folio>,
) -> Result<(Order, Reply), Stuck>
    requires ready { IsReady at.old (R.shown reach.old) }
    requires file { file.0 < FILES }
    requires free { (R.shown reach.old).hands (file_no file.0) ≡ None }
    requires empty { given.old.items ≡ [] }
    ensures reply { IfOk result (λ r. IsUnpinReply r.1) }
    ensures few { IfOk result (λ r. length (reply_runs r.1) < 2 ^ 32) }
    ensures given { IfOk result (λ r. IsGivenUp (R.shown reach.old).anchor.home r.0 r.1 given.new.items) }
    ensures goes { IfOk result (λ r. Goes (deed_at (file_no file.0) (IsFile file Memfd r.0 ∷ []) Event.FileUnpin r.1 ∷ []) at.old at.new (R.shown reach.old) (R.shown reach.new)) }
    ensures sticks { IfErr result (λ stuck. Sticks at.old (turn (file_no file.0) Event.FileUnpin) stuck (R.shown reach.old) (R.shown reach.new)) }
    ensures same_at { OnErr result (at.new ≡ at.old) }
    ensures err_given { OnErr result (given.new.items ≡ []) }
{
    let (mut object, order) = open_pinned(reach, *at, file)?;
    let number = ObjectNo::of_file(file);
    let slip = match resume_giving(alloc, reach, *at, object.index_count(), given) {
        Ok(slip) => slip,
        Err(stuck) => return Err(under(reach, number, Object::File(object), stuck)),
    };
    let Turned { entry, value } = object.unpin(slip, given);
    at.last = entry.stamp;
    reach.end(number, Object::File(object), Some(entry));
    Ok((order, value))
}

/// Ends a label's hold on a memfd. It answers the file's order and the reply; where nothing holds the file any more, that
/// lists all runs, and its folios are put into the empty list. It costs the number of the file's indexes.
#[tactic(auto, using(crate::proofs::FileReplies::close_fd_replied, crate::proofs::FileReplies::runs_fit))]
pub fn close_fd<R: Reach>(
    alloc: Global,
    reach: &mut R,
    at: &mut At,
    file: FileNo,
    given: &mut Vec<Folio>,
) -> Result<(Order, Reply), Stuck>
    requires ready { IsReady at.old (R.shown reach.old) }
    requires file { file.0 < FILES }
    requires free { (R.shown reach.old).hands (file_no file.0) ≡ None }
    requires empty { given.old.items ≡ [] }
    ensures reply { IfOk result (λ r. IsCloseFdReply r.1) }
    ensures few { IfOk result (λ r. length (reply_runs r.1) < 2 ^ 32) }
    ensures given { IfOk result (λ r. IsGivenUp (R.shown reach.old).anchor.home r.0 r.1 given.new.items) }
    ensures goes { IfOk result (λ r. Goes (deed_at (file_no file.0) (read_of file r.0 r.1) Event.FileCloseFd r.1 ∷ []) at.old at.new (R.shown reach.old) (R.shown reach.new)) }
    ensures sticks { IfErr result (λ stuck. Sticks at.old (turn (file_no file.0) Event.FileCloseFd) stuck (R.shown reach.old) (R.shown reach.new)) }
    ensures same_at { OnErr result (at.new ≡ at.old) }
    ensures err_given { OnErr result (given.new.items ≡ []) }
{
    let (mut object, order) = open_label(reach, *at, file)?;
    let number = ObjectNo::of_file(file);
    let slip = match resume_giving(alloc, reach, *at, object.index_count(), given) {
        Ok(slip) => slip,
        Err(stuck) => return Err(under(reach, number, Object::File(object), stuck)),
    };
    let Turned { entry, value } = object.close_fd(slip, given);
    at.last = entry.stamp;
    reach.end(number, Object::File(object), Some(entry));
    Ok((order, value))
}
