//! The turns on a file that an incoming session has.

ghost use Rattle.std.specs.Prelude.{◌≡◌, ◌≤◌, ◌<◌, ◌^◌, ◌∷◌, [], true, IfOk, OnErr, IfErr, IsSome, None, length, option_map};
ghost use Rattle.ho_base.specs.Objects.{file_no};
ghost use Rattle.ho_base.specs.declared.numbers.Kind.TheVariants.{Memfd};
ghost use Rattle.ho_events.specs.Slips.{reply_runs};
ghost use Rattle.ho_world.specs.Acts.{IsFile};
ghost use Rattle.ho_world.specs.Logs.{deed_at};
ghost use Rattle.file_folios.specs.FileAnswers.{facts_of};
ghost use Rattle.memfd_file.specs.FileValues.{FileIs};
ghost use Rattle.memfd_file.specs.Files.{FileHas};
ghost use Rattle.machine_core.specs.Agents.{Agent};
ghost use Rattle.machine_core.specs.Turns.{IsReady, Goes};
ghost use Rattle.luo_calls.specs.Memfds.{IsMemfd};
ghost use Rattle.luo_calls.specs.Opened.{Holds, without};
ghost use Rattle.luo_calls.specs.Replies.{IsGivenUp};
ghost use Rattle.luo_calls.specs.Stuck.{Sticks, turn};
ghost use Rattle.luo_incoming.specs.Incoming.{is_held, waits_for_label};
ghost use Rattle.luo_incoming.specs.Replies.{IsFinishReply};

use ho_base::limits::FILES;
use ho_base::numbers::{FileNo, ObjectNo, Order};
use ho_events::event::Event;
use ho_events::reply::Reply;
use ho_events::slip::{At, Listed, Turned};
use luo_calls::Stuck;
use luo_calls::turns::file::broken_file;
use luo_calls::turns::open::{begin_file, open_file};
use luo_calls::turns::resume::{resume, under};
use machine_core::{Halt, Object, Reach};
use memfd_file::{Facts, FileObject};
use phys_frames::folio::Folio;
use std::alloc::Global;

/// The order of a file that is there: it is a memfd of an order that runs may have.
#[tactic(auto, using(crate::proofs::Files::order_told))]
fn order_of(file: &FileObject) -> Order
    requires present { FileIs file.now IsSome }
    ensures { FileIs file.now (λ s. IsMemfd (option_map facts_of s) result) }
{
    match file.facts() {
        Some(facts) => facts.order,
        None => unreachable!(),
    }
}

/// Whether an incoming session has a file.
fn has_session(facts: Option<Facts>) -> bool
    ensures { result ≡ is_held facts }
{
    match facts {
        Some(facts) => facts.hold,
        None => false,
    }
}

/// Whether an incoming session has a file, and no label.
fn is_unopened(facts: Option<Facts>) -> bool
    ensures { result ≡ waits_for_label facts }
{
    match facts {
        Some(facts) => facts.hold && !facts.opened,
        None => false,
    }
}

/// Opens a held file for a label. It answers the file's order.
pub fn open_held<R: Reach>(
    alloc: Global,
    reach: &mut R,
    at: &mut At,
    file: FileNo,
) -> Result<Order, Stuck>
    requires ready { IsReady at.old (R.shown reach.old) }
    requires file { file.0 < FILES }
    requires free { (R.shown reach.old).hands (file_no file.0) ≡ None }
    ensures goes { IfOk result (λ o. Goes (deed_at (file_no file.0) (IsFile file Memfd o ∷ []) Event.FileOpenHeld Reply.Ok ∷ []) at.old at.new (R.shown reach.old) (R.shown reach.new)) }
    ensures sticks { IfErr result (λ stuck. Sticks at.old (turn (file_no file.0) Event.FileOpenHeld) stuck (R.shown reach.old) (R.shown reach.new)) }
    ensures same_at { OnErr result (at.new ≡ at.old) }
{
    let (slip, mut object) = open_file(alloc, reach, *at, file, Listed::nothing())?;
    let number = ObjectNo::of_file(file);
    if !is_unopened(object.facts()) {
        return Err(broken_file(number, object));
    }
    let order = order_of(&object);
    let Turned { entry, value: _ } = object.open_held(slip);
    at.last = entry.stamp;
    reach.end(number, Object::File(object), Some(entry));
    Ok(order)
}

/// Ends an incoming session's hold on the file in hand: its reply may list as many runs as the file has.
#[tactic(auto, using(crate::proofs::Files::finish_replied))]
fn end_hold<R: Reach>(
    alloc: Global,
    reach: &mut R,
    at: &mut At,
    file: FileNo,
    mut object: FileObject,
    given: &mut Vec<Folio>,
) -> Result<(Order, Reply), Stuck>
    requires ready { IsReady at.old (R.shown reach.old) }
    requires file { file.0 < FILES }
    requires holds { Holds (file_no file.0) (R.shown reach.old) (Object.File object) }
    requires object_room { 1 ≤ object.room }
    requires held { FileHas object (λ f. f.hold ≡ true) }
    requires empty { given.old.items ≡ [] }
    ensures reply { IfOk result (λ r. IsFinishReply r.1) }
    ensures few { IfOk result (λ r. length (reply_runs r.1) < 2 ^ 32) }
    ensures given { IfOk result (λ r. IsGivenUp (R.shown reach.old).anchor.home r.0 r.1 given.new.items) }
    ensures goes { IfOk result (λ r. Goes (deed_at (file_no file.0) (IsFile file Memfd r.0 ∷ []) Event.FileFinish r.1 ∷ []) at.old at.new (without (file_no file.0) (R.shown reach.old)) (R.shown reach.new)) }
    ensures sticks { IfErr result (λ stuck. Sticks at.old (turn (file_no file.0) Event.FileFinish) stuck (without (file_no file.0) (R.shown reach.old)) (R.shown reach.new)) }
    ensures same_at { OnErr result (at.new ≡ at.old) }
    ensures err_given { OnErr result (given.new.items ≡ []) }
{
    let number = ObjectNo::of_file(file);
    let count = object.index_count();
    if given.reserve(count as usize).is_err() {
        return Err(Stuck {
            halt: Halt::Memory,
            held: Some((number, Object::File(object))),
        });
    }
    let slip = match resume(alloc, reach, *at, Listed::in_reply(count, 0)) {
        Ok(slip) => slip,
        Err(stuck) => return Err(under(reach, number, Object::File(object), stuck)),
    };
    let order = order_of(&object);
    let Turned { entry, value } = object.finish(slip, given);
    at.last = entry.stamp;
    reach.end(number, Object::File(object), Some(entry));
    Ok((order, value))
}

/// Ends an incoming session's hold on a file. It answers the file's order and the reply; where nothing holds the file any
/// more, that lists all runs, and its folios are put into the empty list. It costs the folios that it gives up.
pub fn finish_file<R: Reach>(
    alloc: Global,
    reach: &mut R,
    at: &mut At,
    file: FileNo,
    given: &mut Vec<Folio>,
) -> Result<(Order, Reply), Stuck>
    requires ready { IsReady at.old (R.shown reach.old) }
    requires file { file.0 < FILES }
    requires free { (R.shown reach.old).hands (file_no file.0) ≡ None }
    requires empty { given.old.items ≡ [] }
    ensures reply { IfOk result (λ r. IsFinishReply r.1) }
    ensures few { IfOk result (λ r. length (reply_runs r.1) < 2 ^ 32) }
    ensures given { IfOk result (λ r. IsGivenUp (R.shown reach.old).anchor.home r.0 r.1 given.new.items) }
    ensures goes { IfOk result (λ r. Goes (deed_at (file_no file.0) (IsFile file Memfd r.0 ∷ []) Event.FileFinish r.1 ∷ []) at.old at.new (R.shown reach.old) (R.shown reach.new)) }
    ensures sticks { IfErr result (λ stuck. Sticks at.old (turn (file_no file.0) Event.FileFinish) stuck (R.shown reach.old) (R.shown reach.new)) }
    ensures same_at { OnErr result (at.new ≡ at.old) }
    ensures err_given { OnErr result (given.new.items ≡ []) }
{
    let object = begin_file(reach, *at, file)?;
    if !has_session(object.facts()) {
        return Err(broken_file(ObjectNo::of_file(file), object));
    }
    end_hold(alloc, reach, at, file, object, given)
}
