//! The beginning of a turn on a label's memfd whose size may change.

ghost use Rattle.std.specs.Prelude.{◌≡◌, ◌+◌, ◌<◌, ◌≤◌, IfOk, IfErr, None, option_map, true};
ghost use Rattle.ho_base.specs.Objects.{file_no};
ghost use Rattle.file_folios.specs.FileAnswers.{facts_of, wanted_indexes};
ghost use Rattle.memfd_file.specs.FileValues.{FileIs};
ghost use Rattle.memfd_file.specs.Files.{FileHas};
ghost use Rattle.machine_core.specs.Agents.{Agent};
ghost use Rattle.machine_core.specs.Turns.{is_by_label, is_of_runs};
ghost use Rattle.luo_calls.specs.Memfds.{IsMemfd};
ghost use Rattle.luo_calls.specs.Opened.{Opens};
ghost use Rattle.luo_calls.specs.Stuck.{Sticks, turn};

use crate::stuck::Stuck;
use crate::turns::file::{broken_file, memfd_order};
use crate::turns::open::begin_file;
use ho_base::limits::FILES;
use ho_base::numbers::{FileNo, NoMemory, ObjectNo, Order};
use ho_events::event::Event;
use ho_events::slip::At;
use machine_core::{Halt, Object, Reach};
use memfd_file::FileObject;

/// Takes a file that a label has, which is an open memfd, and tells its order. It has memory for the indexes that a range
/// of bytes adds to it; a size is asked for as an offset with an empty range.
#[tactic(auto, using(crate::proofs::FileHalts::memfd_present))]
pub fn open_memfd<R: Reach>(
    reach: &mut R,
    at: At,
    file: FileNo,
    off: u32,
    len: u32,
) -> Result<(FileObject, Order), Stuck>
    requires file { file.0 < FILES }
    requires free { (R.shown reach.old).hands (file_no file.0) ≡ None }
    ensures opens { IfOk result (λ t. Opens at (file_no file.0) (R.shown reach.old) (R.shown reach.new) (Object.File t.0)) }
    ensures memfd { IfOk result (λ t. FileIs t.0 (λ s. IsMemfd (option_map facts_of s) t.1)) }
    ensures indexes { IfOk result (λ t. FileHas t.0 (λ f. wanted_indexes f (off + len) ≤ t.0.indexes)) }
    ensures sticks { IfErr result (λ stuck. (event : Event) → is_by_label event ≡ true → is_of_runs event ≡ true → Sticks at (turn (file_no file.0) event) stuck (R.shown reach.old) (R.shown reach.new)) }
{
    let mut object = begin_file(reach, at, file)?;
    let number = ObjectNo::of_file(file);
    if !object.is_open() {
        return Err(broken_file(number, object));
    }
    let Some(order) = memfd_order(object.facts()) else {
        return Err(broken_file(number, object));
    };
    let wanted = object.wanted_indexes(off, len);
    match object.reserve(1, wanted) {
        Ok(()) => Ok((object, order)),
        Err(NoMemory) => Err(Stuck {
            halt: Halt::Memory,
            held: Some((number, Object::File(object))),
        }),
    }
}
