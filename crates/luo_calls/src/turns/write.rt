//! The turns of the commands `write` and `fill`: the take of runs for the holes, and the write of the file, which is in
//! hand meanwhile.

ghost use Rattle.std.specs.Prelude.{◌≡◌, ◌+◌, ◌<◌, ◌≤◌, ◌^◌, ◌∷◌, [], IfOk, IfErr, IsSome, OnOk, OnErr, None, length, map, option_map, List};
ghost use Rattle.std.specs.Vec.{vec_len};
ghost use Rattle.ho_base.specs.Objects.{pool_no, file_no};
ghost use Rattle.ho_events.specs.File.{touched_holes};
ghost use Rattle.ho_base.specs.declared.numbers.Kind.TheVariants.{Memfd};
ghost use Rattle.ho_world.specs.Acts.{Claim, IsFile};
ghost use Rattle.ho_world.specs.Logs.{deed_at, AreClaimed};
ghost use Rattle.ho_world.specs.Sequences.Files.{write_acts};
ghost use Rattle.phys_frames.specs.Memory.{AreOf, first_frames};
ghost use Rattle.pool_core.specs.PoolLending.{zeroed_run};
ghost use Rattle.memfd_file.specs.FileValues.{FileIs};
ghost use Rattle.file_folios.specs.FileAnswers.{AreFillsOf, facts_of, fills_left, fills_used, wanted_indexes, write_answer};
ghost use Rattle.memfd_file.specs.Files.{FileHas};
ghost use Rattle.machine_core.specs.Agents.{Agent, begun, no_hands};
ghost use Rattle.machine_core.specs.Turns.{IsReady, Goes};
ghost use Rattle.luo_calls.specs.Memfds.{is_frozen_by, IsMemfd, IsPlainReply, TouchesHoles, wanted_runs};
ghost use Rattle.luo_calls.specs.Opened.{Holds, without};
ghost use Rattle.luo_calls.specs.Doing.{AreWhole, SticksAfter};
ghost use Rattle.luo_calls.specs.Puts.{put_event, put_len, put_text};
ghost use Rattle.luo_calls.specs.Stuck.{Sticks, turn};
ghost use Rattle.luo_calls.specs.Wrote.{IsTaking, IsWrote, write_deeds};

use crate::stuck::{Stopped, Stuck, empty_handed};
use crate::turns::memfd::open_memfd;
use crate::turns::pool::take_runs;
use crate::turns::put::{Put, put_into};
use crate::turns::resume::{resume, under};
use ho_base::Items;
use ho_base::limits::{FILE_BYTES, FILES};
use ho_base::numbers::{FileNo, Kind, ObjectNo, Order, Pfn};
use ho_events::reply::Reply;
use ho_events::slip::{At, Listed, Slip, Turned};
use machine_core::{Halt, Object, Reach};
use memfd_file::{Facts, FileObject};
use phys_frames::folio::Folio;
use std::alloc::Global;
use std::snapshot::Snapshot;

/// Whether a write up to this end would change the size of a file that can't change; none is told where no file is there.
fn is_frozen(facts: Option<Facts>, end: u64) -> bool
    ensures { result ≡ is_frozen_by facts end }
{
    match facts {
        None => false,
        Some(facts) => {
            let device = match facts.kind {
                Kind::Memfd => false,
                _ => true,
            };
            (facts.size as u64) < end && (facts.pin || facts.hold || device)
        }
    }
}

/// How many runs a write of a range wants for the holes that it touches: none where it is refused.
fn runs_for(object: &FileObject, off: u32, len: u32) -> u32
    requires present { FileIs object.now IsSome }
    ensures { FileHas object.now (λ f. result ≡ wanted_runs f off len) }
{
    let end = off as u64 + len as u64;
    if end > FILE_BYTES as u64 {
        return 0;
    }
    if is_frozen(object.facts(), end) {
        return 0;
    }
    object.holes(off, len)
}

/// Ends the turn of a file in hand with a write. What is known of the objects in hand may be read at this turn.
pub fn end_write<R: Reach>(
    reach: &mut R,
    at: &mut At,
    slip: Slip,
    file: FileNo,
    mut object: FileObject,
    off: u32,
    put: Put<'_>,
    fills: &mut Vec<Folio>,
) -> Reply
    requires ready { IsReady at.old (R.shown reach.old) }
    requires file { file.0 < FILES }
    requires holds { Holds (file_no file.0) (R.shown reach.old) (Object.File object) }
    requires object_room { 1 ≤ object.room }
    requires early { at.old.last < 2 ^ 63 }
    requires slip { slip.at ≡ at.old }
    requires log_room { 1 ≤ (R.shown reach.old).room }
    requires present { FileIs object IsSome }
    requires some { 0 < put_len put }
    requires indexes { FileHas object (λ f. wanted_indexes f (off + put_len put) ≤ object.indexes) }
    requires fills { FileHas object (λ f. AreFillsOf (R.shown reach.old).anchor.home f.order fills.old.items) }
    requires fills_count { 0 < vec_len fills.old → FileHas object (λ f. vec_len fills.old ≡ length (touched_holes f off (put_len put))) }
    requires slip_numbers { vec_len fills.old ≤ slip.room.event_numbers }
    requires slip_bytes { put_text put ≤ slip.room.event_bytes }
    ensures exact { FileHas object (λ f. result ≡ write_answer f off (put_len put.entry) (vec_len fills.old)) }
    ensures fills { fills.new.items ≡ fills_left result fills.old.items }
    ensures goes { (claims : List Claim) → AreClaimed (begun (R.shown reach.old)) (R.shown reach.old).hands claims → Goes (deed_at (file_no file.0) claims (put_event put.entry off (first_frames (fills_used result fills.old.items))) result ∷ []) at.old at.new (without (file_no file.0) (R.shown reach.old)) (R.shown reach.new) }
{
    let number = ObjectNo::of_file(file);
    let Turned { entry, value } = put_into(&mut object, slip, off, put, fills);
    at.last = entry.stamp;
    reach.end(number, Object::File(object), Some(entry));
    value
}

/// How the turns of a write came out.
#[derive(Drop)]
pub enum Wrote {
    /// No run was taken: the file refused, or no hole was touched.
    Plain(Reply),
    /// Too few runs are free for so many holes.
    Starved(Order, u32),
    /// The holes were filled with these runs.
    Filled(Order, Snapshot<Items<Pfn>>),
}

/// Writes the file in hand where no run is taken first: the write is refused, or touches no hole.
fn write_plain<R: Reach>(
    alloc: Global,
    reach: &mut R,
    at: &mut At,
    file: FileNo,
    object: FileObject,
    off: u32,
    put: Put<'_>,
) -> Result<Reply, Stuck>
    requires ready { IsReady at.old (R.shown reach.old) }
    requires file { file.0 < FILES }
    requires holds { Holds (file_no file.0) (R.shown reach.old) (Object.File object) }
    requires object_room { 1 ≤ object.room }
    requires present { FileIs object IsSome }
    requires some { 0 < put_len put }
    requires few { put_len put < 2 ^ 32 }
    requires indexes { FileHas object (λ f. wanted_indexes f (off + put_len put) ≤ object.indexes) }
    requires plain { FileHas object (λ f. wanted_runs f off (put_len put) ≡ 0) }
    ensures reply { IfOk result IsPlainReply }
    ensures goes { IfOk result (λ reply. Goes (deed_at (file_no file.0) [] (put_event put.entry off []) reply ∷ []) at.old at.new (without (file_no file.0) (R.shown reach.old)) (R.shown reach.new)) }
    ensures sticks { IfErr result (λ stuck. Sticks at.old (turn (file_no file.0) (put_event put.entry off [])) stuck (without (file_no file.0) (R.shown reach.old)) (R.shown reach.new)) }
    ensures same_at { OnErr result (at.new ≡ at.old) }
{
    let slip = match resume(alloc, reach, *at, Listed::in_event(0, put.text())) {
        Ok(slip) => slip,
        Err(stuck) => {
            let number = ObjectNo::of_file(file);
            return Err(under(reach, number, Object::File(object), stuck));
        }
    };
    let mut fills = Vec::new(alloc);
    let reply = end_write(reach, at, slip, file, object, off, put, &mut fills);
    fills.destroy_empty();
    Ok(reply)
}

/// Writes the file in hand, for whose holes too few runs are free.
fn write_starved<R: Reach>(
    alloc: Global,
    reach: &mut R,
    at: &mut At,
    file: FileNo,
    object: FileObject,
    order: Order,
    off: u32,
    put: Put<'_>,
    holes: u32,
) -> Result<(), Stuck>
    requires ready { IsReady at.old (R.shown reach.old) }
    requires file { file.0 < FILES }
    requires holds { Holds (file_no file.0) (R.shown reach.old) (Object.File object) }
    requires object_room { 1 ≤ object.room }
    requires memfd { FileIs object (λ s. IsMemfd (option_map facts_of s) order) }
    requires some { 0 < put_len put }
    requires few { put_len put < 2 ^ 32 }
    requires indexes { FileHas object (λ f. wanted_indexes f (off + put_len put) ≤ object.indexes) }
    requires touched { FileHas object (λ f. TouchesHoles f off (put_len put) holes) }
    ensures goes { OnOk result (Goes (deed_at (file_no file.0) (IsFile file Memfd order ∷ []) (put_event put.entry off []) (Reply.NoFramesOf holes) ∷ []) at.old at.new (without (file_no file.0) (R.shown reach.old)) (R.shown reach.new)) }
    ensures sticks { IfErr result (λ stuck. Sticks at.old (turn (file_no file.0) (put_event put.entry off [])) stuck (without (file_no file.0) (R.shown reach.old)) (R.shown reach.new)) }
    ensures same_at { OnErr result (at.new ≡ at.old) }
{
    let _order = order;
    let slip = match resume(alloc, reach, *at, Listed::in_event(0, put.text())) {
        Ok(slip) => slip,
        Err(stuck) => {
            let number = ObjectNo::of_file(file);
            return Err(under(reach, number, Object::File(object), stuck));
        }
    };
    let mut fills = Vec::new(alloc);
    let _reply = end_write(reach, at, slip, file, object, off, put, &mut fills);
    fills.destroy_empty();
    Ok(())
}

/// Writes the file in hand, with these runs of zeros for its holes. Where the turn isn't taken, they are
/// given up.
fn write_filled<R: Reach>(
    alloc: Global,
    reach: &mut R,
    at: &mut At,
    file: FileNo,
    object: FileObject,
    order: Order,
    off: u32,
    put: Put<'_>,
    runs: Snapshot<Items<Pfn>>,
    mut fills: Vec<Folio>,
) -> Result<Wrote, Stopped>
    requires ready { IsReady at.old (R.shown reach.old) }
    requires file { file.0 < FILES }
    requires holds { Holds (file_no file.0) (R.shown reach.old) (Object.File object) }
    requires object_room { 1 ≤ object.room }
    requires memfd { FileIs object (λ s. IsMemfd (option_map facts_of s) order) }
    requires some { 0 < put_len put }
    requires few { put_len put < 2 ^ 32 }
    requires indexes { FileHas object (λ f. wanted_indexes f (off + put_len put) ≤ object.indexes) }
    requires touched { FileHas object (λ f. TouchesHoles f off (put_len put) (vec_len fills)) }
    requires fills { fills.items ≡ map (zeroed_run (R.shown reach.old).anchor.home order) runs.value }
    requires few_fills { vec_len fills < 2 ^ 32 }
    ensures goes { OnOk result (Goes (deed_at (file_no file.0) (IsFile file Memfd order ∷ []) (put_event put.entry off runs.value) Reply.Ok ∷ []) at.old at.new (without (file_no file.0) (R.shown reach.old)) (R.shown reach.new)) }
    ensures wrote { IfOk result (λ w. w ≡ Wrote.Filled order runs) }
    ensures sticks { IfErr result (λ s. Sticks at.old (turn (file_no file.0) (put_event put.entry off runs.value)) s.stuck (without (file_no file.0) (R.shown reach.old)) (R.shown reach.new)) }
    ensures same_at { OnErr result (at.new ≡ at.old) }
    ensures given_up { IfErr result (λ s. AreOf (R.shown reach.old).anchor.home s.folios.items) }
{
    let listed = Listed::in_event(fills.len() as u32, put.text());
    let slip = match resume(alloc, reach, *at, listed) {
        Ok(slip) => slip,
        Err(stuck) => {
            let number = ObjectNo::of_file(file);
            let stuck = under(reach, number, Object::File(object), stuck);
            return Err(Stopped {
                folios: fills,
                stuck,
            });
        }
    };
    let _reply = end_write(reach, at, slip, file, object, off, put, &mut fills);
    fills.destroy_empty();
    Ok(Wrote::Filled(order, runs))
}

/// Takes a run for each hole that the bytes touch, and writes the file in hand.
fn write_taking<R: Reach>(
    alloc: Global,
    reach: &mut R,
    at: &mut At,
    file: FileNo,
    object: FileObject,
    order: Order,
    off: u32,
    put: Put<'_>,
    holes: u32,
) -> Result<Wrote, Stopped>
    requires ready { IsReady at.old (R.shown reach.old) }
    requires file { file.0 < FILES }
    requires holds { Holds (file_no file.0) (R.shown reach.old) (Object.File object) }
    requires free { (R.shown reach.old).hands pool_no ≡ None }
    requires object_room { 1 ≤ object.room }
    requires memfd { FileIs object (λ s. IsMemfd (option_map facts_of s) order) }
    requires some { 0 < put_len put }
    requires few { put_len put < 2 ^ 32 }
    requires indexes { FileHas object (λ f. wanted_indexes f (off + put_len put) ≤ object.indexes) }
    requires touched { FileHas object (λ f. TouchesHoles f off (put_len put) holes) }
    requires holes { 0 < holes }
    ensures goes { IfOk result (λ w. Goes (write_deeds file (put_event put.entry off) w) at.old at.new (without (file_no file.0) (R.shown reach.old)) (R.shown reach.new)) }
    ensures takes { IfOk result (λ w. IsTaking order holes w) }
    ensures stopped { IfErr result (λ s. SticksAfter (AreWhole (write_acts file off (put_len put.entry) (put_event put.entry off))) s.stuck at.old at.new (without (file_no file.0) (R.shown reach.old)) (R.shown reach.new)) }
    ensures given_up { IfErr result (λ s. AreOf (R.shown reach.old).anchor.home s.folios.items) }
{
    let number = ObjectNo::of_file(file);
    let Ok(mut fills) = Vec::with_capacity(alloc, holes as usize) else {
        return Err(Stopped {
            folios: Vec::new(alloc),
            stuck: Stuck {
                halt: Halt::Memory,
                held: Some((number, Object::File(object))),
            },
        });
    };
    let got = match take_runs(alloc, reach, at, order, holes, &mut fills) {
        Ok(got) => got,
        Err(stuck) => {
            let stuck = under(reach, number, Object::File(object), stuck);
            return Err(Stopped {
                folios: fills,
                stuck,
            });
        }
    };
    match got {
        Some(runs) => write_filled(alloc, reach, at, file, object, order, off, put, runs, fills),
        None => {
            fills.destroy_empty();
            match write_starved(alloc, reach, at, file, object, order, off, put, holes) {
                Ok(()) => Ok(Wrote::Starved(order, holes)),
                Err(stuck) => Err(Stopped {
                    folios: Vec::new(alloc),
                    stuck,
                }),
            }
        }
    }
}

/// Puts bytes at an offset of a file that a label has. It takes runs for the holes that the bytes touch, all or none.
/// It costs the bytes, the indexes that they touch or that are new, and what a take of so many runs costs.
#[tactic(auto, using(crate::proofs::FileHalts::memfd_present))]
pub fn write_file<R: Reach>(
    alloc: Global,
    reach: &mut R,
    at: &mut At,
    file: FileNo,
    off: u32,
    put: Put<'_>,
) -> Result<Wrote, Stopped>
    requires ready { IsReady at.old (R.shown reach.old) }
    requires file { file.0 < FILES }
    requires free { (R.shown reach.old).hands ≡ no_hands }
    requires some { 0 < put_len put }
    requires few { put_len put < 2 ^ 32 }
    ensures goes { IfOk result (λ w. Goes (write_deeds file (put_event put.entry off) w) at.old at.new (R.shown reach.old) (R.shown reach.new)) }
    ensures told { IfOk result (IsWrote off (put_len put.entry)) }
    ensures stopped { IfErr result (λ s. SticksAfter (AreWhole (write_acts file off (put_len put.entry) (put_event put.entry off))) s.stuck at.old at.new (R.shown reach.old) (R.shown reach.new)) }
    ensures given_up { IfErr result (λ s. AreOf (R.shown reach.old).anchor.home s.folios.items) }
{
    let len = put.len();
    let (object, order) = match open_memfd(reach, *at, file, off, len) {
        Ok(opened) => opened,
        Err(stuck) => return Err(empty_handed(alloc, stuck)),
    };
    let wanted = runs_for(&object, off, len);
    if wanted == 0 {
        match write_plain(alloc, reach, at, file, object, off, put) {
            Ok(reply) => Ok(Wrote::Plain(reply)),
            Err(stuck) => Err(empty_handed(alloc, stuck)),
        }
    } else {
        write_taking(alloc, reach, at, file, object, order, off, put, wanted)
    }
}
