//! The turn of a `truncate`.

ghost use Rattle.std.specs.Prelude.{◌≡◌, ◌≤◌, ◌<◌, ◌^◌, ◌++◌, ◌∷◌, [], IfOk, IfErr, OnErr, None, length, option_map};
ghost use Rattle.ho_base.specs.Objects.{file_no};
ghost use Rattle.ho_events.specs.Slips.{reply_runs};
ghost use Rattle.ho_world.specs.Logs.{deed_at};
ghost use Rattle.ho_world.specs.Sequences.Files.{truncate_acts};
ghost use Rattle.file_folios.specs.FileAnswers.{facts_of, wanted_indexes};
ghost use Rattle.memfd_file.specs.FileValues.{FileIs};
ghost use Rattle.memfd_file.specs.Files.{FileHas};
ghost use Rattle.machine_core.specs.Agents.{Agent};
ghost use Rattle.machine_core.specs.Turns.{IsReady, Goes};
ghost use Rattle.luo_calls.specs.Doing.{AreWhole, SticksAfter};
ghost use Rattle.luo_calls.specs.Memfds.{IsMemfd};
ghost use Rattle.luo_calls.specs.Opened.{Holds, without};
ghost use Rattle.luo_calls.specs.Stuck.{Sticks, turn};
ghost use Rattle.luo_calls.specs.Truncates.{IsCutOff, IsTruncateReply, truncate_read};

use crate::stuck::Stuck;
use crate::turns::file::resume_giving;
use crate::turns::memfd::open_memfd;
use crate::turns::resume::under;
use ho_base::limits::FILES;
use ho_base::numbers::{FileNo, ObjectNo, Order};
use ho_events::event::Event;
use ho_events::reply::Reply;
use ho_events::slip::{At, Turned};
use machine_core::{Object, Reach};
use memfd_file::FileObject;
use phys_frames::folio::Folio;
use std::alloc::Global;

/// Changes the size of the memfd in hand, whose order is told. It answers the reply, and the folios of the indexes past
/// the size.
#[tactic(auto, using(crate::proofs::FileHalts::memfd_present))]
fn truncate_held<R: Reach>(
    alloc: Global,
    reach: &mut R,
    at: &mut At,
    file: FileNo,
    mut object: FileObject,
    order: Order,
    size: u32,
) -> Result<(Reply, Vec<Folio>), Stuck>
    requires ready { IsReady at.old (R.shown reach.old) }
    requires file { file.0 < FILES }
    requires holds { Holds (file_no file.0) (R.shown reach.old) (Object.File object) }
    requires object_room { 1 ≤ object.room }
    requires memfd { FileIs object (λ s. IsMemfd (option_map facts_of s) order) }
    requires indexes { FileHas object (λ f. wanted_indexes f size ≤ object.indexes) }
    ensures reply { IfOk result (λ r. IsTruncateReply r.0) }
    ensures few { IfOk result (λ r. length (reply_runs r.0) < 2 ^ 32) }
    ensures given { IfOk result (λ r. IsCutOff (R.shown reach.old).anchor.home order r.0 r.1.items) }
    ensures goes { IfOk result (λ r. Goes (deed_at (file_no file.0) (truncate_read file order r.0) (Event.FileTruncate size) r.0 ∷ []) at.old at.new (without (file_no file.0) (R.shown reach.old)) (R.shown reach.new)) }
    ensures sticks { IfErr result (λ stuck. Sticks at.old (turn (file_no file.0) (Event.FileTruncate size)) stuck (without (file_no file.0) (R.shown reach.old)) (R.shown reach.new)) }
    ensures same_at { OnErr result (at.new ≡ at.old) }
{
    let _order = order;
    let number = ObjectNo::of_file(file);
    let mut given = Vec::new(alloc);
    let slip = match resume_giving(alloc, reach, *at, object.index_count(), &mut given) {
        Ok(slip) => slip,
        Err(stuck) => {
            given.destroy_empty();
            return Err(under(reach, number, Object::File(object), stuck));
        }
    };
    let Turned { entry, value } = object.truncate(slip, size, &mut given);
    at.last = entry.stamp;
    reach.end(number, Object::File(object), Some(entry));
    Ok((value, given))
}

/// Changes the size of a memfd that a label has. It answers the file's order, the reply, and the folios of the indexes
/// past the size. It costs the indexes that go or that are new.
pub fn truncate_file<R: Reach>(
    alloc: Global,
    reach: &mut R,
    at: &mut At,
    file: FileNo,
    size: u32,
) -> Result<(Order, Reply, Vec<Folio>), Stuck>
    requires ready { IsReady at.old (R.shown reach.old) }
    requires file { file.0 < FILES }
    requires free { (R.shown reach.old).hands (file_no file.0) ≡ None }
    ensures reply { IfOk result (λ r. IsTruncateReply r.1) }
    ensures few { IfOk result (λ r. length (reply_runs r.1) < 2 ^ 32) }
    ensures given { IfOk result (λ r. IsCutOff (R.shown reach.old).anchor.home r.0 r.1 r.2.items) }
    ensures goes { IfOk result (λ r. Goes (deed_at (file_no file.0) (truncate_read file r.0 r.1) (Event.FileTruncate size) r.1 ∷ []) at.old at.new (R.shown reach.old) (R.shown reach.new)) }
    ensures sticks { IfErr result (λ stuck. SticksAfter (AreWhole (truncate_acts file size)) stuck at.old at.new (R.shown reach.old) (R.shown reach.new)) }
{
    let (object, order) = match open_memfd(reach, *at, file, size, 0) {
        Ok(opened) => opened,
        Err(stuck) => return Err(stuck),
    };
    match truncate_held(alloc, reach, at, file, object, order, size) {
        Ok((reply, given)) => Ok((order, reply, given)),
        Err(stuck) => Err(stuck),
    }
}
