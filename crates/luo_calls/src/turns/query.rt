//! The turns of a file that neither take nor give up a run.

ghost use Rattle.std.specs.Prelude.{◌≡◌, ◌≤◌, ◌<◌, ◌^◌, ◌++◌, ◌∷◌, [], IfOk, IfErr, IsSome, IsTrue, OnErr, is_some, None, length};
ghost use Rattle.ho_base.specs.Objects.{file_no};
ghost use Rattle.ho_events.specs.History.{last_stamp, file_from};
ghost use Rattle.ho_events.specs.Places.{object_at};
ghost use Rattle.ho_events.specs.Slips.{entry_at, reply_runs, reply_bytes};
ghost use Rattle.ho_world.specs.Logs.{deed_at};
ghost use Rattle.memfd_file.specs.FileValues.{FileIs};
ghost use Rattle.machine_core.specs.Agents.{Agent};
ghost use Rattle.machine_core.specs.Turns.{IsReady, Goes};
ghost use Rattle.luo_calls.specs.Queries.{query_bytes, query_event};
ghost use Rattle.luo_calls.specs.Stuck.{Sticks, turn};

use crate::stuck::Stuck;
use crate::turns::file::broken_file;
use crate::turns::open::open_file;
use ho_base::limits::FILES;
use ho_base::numbers::{FileNo, ObjectNo};
use ho_events::reply::Reply;
use ho_events::slip::{At, Listed, Slip, Turned};
use machine_core::{Object, Reach};
use memfd_file::FileObject;
use std::alloc::Global;

/// What a command asks of a file that neither takes nor gives up a run.
#[derive(Clone, Copy)]
pub enum Query {
    /// So many bytes from an offset on.
    Read(u32, u32),
    /// That the position moves there.
    Seek(u32),
    /// The position.
    Tell,
}

impl Query {
    /// How many bytes the reply has at most.
    pub fn bytes(self) -> u32
        ensures { result ≡ query_bytes self }
    {
        match self {
            Query::Read(_, len) => len,
            _ => 0,
        }
    }
}

/// Asks a file that is there.
#[tactic(auto, using(crate::proofs::QueryReplies::read_runs, crate::proofs::QueryReplies::read_bytes, crate::proofs::QueryReplies::seek_runs, crate::proofs::QueryReplies::seek_bytes, crate::proofs::QueryReplies::tell_runs, crate::proofs::QueryReplies::tell_bytes))]
fn asked(object: &mut FileObject, slip: Slip, query: Query) -> Turned<Reply>
    requires present { FileIs object.old IsSome }
    requires slip_bytes { query_bytes query ≤ slip.room.reply_bytes }
    requires room { 0 < object.old.room }
    requires agent_stamp { slip.at.last < 2 ^ 63 }
    requires object_stamp { last_stamp object.old.history < 2 ^ 63 }
    ensures runs { reply_runs result.value ≡ [] }
    ensures bytes { length (reply_bytes result.value) ≤ query_bytes query }
    ensures told { result.entry ≡ entry_at slip.at (last_stamp object.old.history) (object_at object.old.number) (query_event query) result.value }
    ensures kept { object.new.history ≡ object.old.history ++ result.entry ∷ [] }
    ensures number { object.new.number ≡ object.old.number }
    ensures start { object.new.start ≡ object.old.start }
    ensures home { object.new.home ≡ object.old.home }
    ensures run { IsTrue (is_some (file_from object.new.start object.new.history)) }
{
    match query {
        Query::Read(off, len) => object.read(slip, off, len),
        Query::Seek(to) => object.seek(slip, to),
        Query::Tell => object.tell(slip),
    }
}

/// Asks a file that a label has. It costs the bytes of the reply.
#[tactic(auto, using(crate::proofs::FileHalts::open_present))]
pub fn query_file<R: Reach>(
    alloc: Global,
    reach: &mut R,
    at: &mut At,
    file: FileNo,
    query: Query,
) -> Result<Reply, Stuck>
    requires ready { IsReady at.old (R.shown reach.old) }
    requires file { file.0 < FILES }
    requires free { (R.shown reach.old).hands (file_no file.0) ≡ None }
    ensures runs { IfOk result (λ reply. reply_runs reply ≡ []) }
    ensures bytes { IfOk result (λ reply. length (reply_bytes reply) ≤ query_bytes query) }
    ensures goes { IfOk result (λ reply. Goes (deed_at (file_no file.0) [] (query_event query) reply ∷ []) at.old at.new (R.shown reach.old) (R.shown reach.new)) }
    ensures sticks { IfErr result (λ stuck. Sticks at.old (turn (file_no file.0) (query_event query)) stuck (R.shown reach.old) (R.shown reach.new)) }
    ensures same_at { OnErr result (at.new ≡ at.old) }
{
    let (slip, mut object) = open_file(
        alloc,
        reach,
        *at,
        file,
        Listed::in_reply(0, query.bytes()),
    )?;
    let number = ObjectNo::of_file(file);
    if !object.is_open() {
        return Err(broken_file(number, object));
    }
    let Turned { entry, value } = asked(&mut object, slip, query);
    at.last = entry.stamp;
    reach.end(number, Object::File(object), Some(entry));
    Ok(value)
}
