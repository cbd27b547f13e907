//! The turns of a pin: the take of runs for the holes of a memfd, and its pin, with the file in hand meanwhile.

ghost use Rattle.std.specs.Prelude.{◌≡◌, ℕ, ◌<◌, ◌≤◌, ◌^◌, ◌∷◌, [], ◌||◌, ◌==◌, IfOk, IfErr, OnOk, OnErr, IsSome, IsTrue, None, List, if◌then◌else◌, length, map, option_map};
ghost use Rattle.std.specs.Vec.{vec_len};
ghost use Rattle.ho_base.specs.Objects.{pool_no, file_no};
ghost use Rattle.ho_base.specs.declared.limits.TheConstants.{FILE_BYTES, MAX_ORDER};
ghost use Rattle.ho_base.specs.declared.numbers.Kind.TheVariants.{Memfd};
ghost use Rattle.ho_events.specs.File.{FileState, holes, index_bytes, indexes};
ghost use Rattle.ho_events.specs.Lists.{pieces};
ghost use Rattle.ho_events.specs.Slips.{reply_runs};
ghost use Rattle.ho_world.specs.Acts.{Claim, IsFile};
ghost use Rattle.ho_world.specs.Logs.{deed_at, AreClaimed};
ghost use Rattle.ho_world.specs.Sequences.Files.{fits_file};
ghost use Rattle.phys_frames.specs.Memory.{AreOf, first_frames};
ghost use Rattle.pool_core.specs.PoolLending.{zeroed_run};
ghost use Rattle.file_folios.specs.FileAnswers.{AreFillsOf, IsPinAnswer, facts_of, pin_left, pin_used};
ghost use Rattle.memfd_file.specs.FileValues.{FileIs};
ghost use Rattle.memfd_file.specs.Files.{FileHas};
ghost use Rattle.machine_core.specs.Agents.{Agent, begun};
ghost use Rattle.machine_core.specs.Turns.{IsReady, Goes};
ghost use Rattle.luo_calls.specs.Doing.{SticksAfter};
ghost use Rattle.luo_calls.specs.Memfds.{IsMemfd};
ghost use Rattle.luo_calls.specs.Opened.{Holds, Opens, without};
ghost use Rattle.luo_calls.specs.Pins.{ArePins, HasHoles, IsPin, came_to, is_kept_by, pin_deeds, pinned_with, runs_in, wanted_pins};
ghost use Rattle.luo_calls.specs.Stuck.{Sticks, turn};

use crate::stuck::{Stopped, Stuck, empty_handed};
use crate::turns::file::open_label;
use crate::turns::pool::take_runs;
use crate::turns::resume::{resume, under};
use ho_base::Items;
use ho_base::limits::FILES;
use ho_base::numbers::{FileNo, ObjectNo, Order, Pfn};
use ho_events::event::Event;
use ho_events::reply::Reply;
use ho_events::slip::{At, Listed, Slip, Turned};
use machine_core::{Halt, Object, Reach};
use memfd_file::{Facts, FileObject};
use phys_frames::folio::Folio;
use std::alloc::Global;
use std::snapshot::Snapshot;

/// How the turns of a pin came out.
#[derive(Drop)]
pub enum Pin {
    /// A session has the file.
    Refused(Reply),
    /// Too few runs are free for so many holes of a memfd of this order.
    Starved(Order, u32),
    /// A memfd of this order is pinned: its holes were filled with the first of these runs, and it has the others.
    Whole(Order, Snapshot<Items<Pfn>>, Items<Pfn>),
}

/// What a pin came to that was answered so, with these runs for the holes.
#[tactic(auto, using(crate::proofs::PinTurns::other_reply))]
fn outcome(order: Order, fills: Snapshot<Items<Pfn>>, reply: Reply) -> Pin
    ensures { result ≡ came_to order fills reply }
{
    match reply {
        Reply::OkRuns(runs) => Pin::Whole(order, fills, runs),
        refusal => Pin::Refused(refusal),
    }
}

/// No runs, for holes that aren't there.
fn no_runs(alloc: Global) -> Snapshot<Items<Pfn>>
    ensures { result.value ≡ [] }
{
    let none = Items::from_vec(Vec::new(alloc));
    Snapshot::of(&none)
}

/// Whether a session has the file; none is told where no file is there.
fn is_kept(facts: Option<Facts>) -> bool
    ensures { result ≡ is_kept_by facts }
{
    match facts {
        None => false,
        Some(facts) => facts.pin || facts.hold,
    }
}

/// Nothing, or so many.
fn none_if(none: bool, count: u32) -> u32
    ensures { result ≡ if none then 0 else count }
{
    if none { 0 } else { count }
}

/// How many runs a pin of the file takes: one for each hole below its size, and none where a session has the file.
fn runs_for(object: &FileObject) -> u32
    requires present { FileIs object.now IsSome }
    ensures wanted { FileHas object.now (λ f. result ≡ wanted_pins f) }
    ensures size { FileHas object.now (λ f. length f.bytes ≤ FILE_BYTES) }
{
    let facts = object.facts();
    let kept = is_kept(facts);
    let holes = object.all_holes();
    none_if(kept, holes)
}

/// Ends the turn of a file in hand with its pin. What is known of the objects in hand may be read at this turn.
fn end_pin<R: Reach>(
    reach: &mut R,
    at: &mut At,
    slip: Slip,
    file: FileNo,
    mut object: FileObject,
    fills: &mut Vec<Folio>,
) -> Reply
    requires ready { IsReady at.old (R.shown reach.old) }
    requires file { file.0 < FILES }
    requires holds { Holds (file_no file.0) (R.shown reach.old) (Object.File object) }
    requires object_room { 1 ≤ object.room }
    requires early { at.old.last < 2 ^ 63 }
    requires slip { slip.at ≡ at.old }
    requires log_room { 1 ≤ (R.shown reach.old).room }
    requires present { FileIs object IsSome }
    requires fills { FileHas object (λ f. AreFillsOf object.home f.order fills.old.items) }
    requires fills_count { 0 < vec_len fills.old → FileHas object (λ f. vec_len fills.old ≡ length (holes f (indexes f))) }
    requires slip_fills { vec_len fills.old ≤ slip.room.event_numbers }
    requires slip_runs { FileHas object (λ f. pieces (length f.bytes) (index_bytes f) ≤ slip.room.reply_numbers) }
    ensures exact { FileHas object (λ f. (g : FileState) × IsPinAnswer f (vec_len fills.old) g result) }
    ensures few { length (reply_runs result) < 2 ^ 32 }
    ensures fills { fills.new.items ≡ pin_left result fills.old.items }
    ensures goes { (claims : List Claim) → AreClaimed (begun (R.shown reach.old)) (R.shown reach.old).hands claims → Goes (deed_at (file_no file.0) claims (Event.FilePin (first_frames (pin_used result fills.old.items))) result ∷ []) at.old at.new (without (file_no file.0) (R.shown reach.old)) (R.shown reach.new) }
{
    let number = ObjectNo::of_file(file);
    let Turned { entry, value } = object.pin(slip, fills, None);
    at.last = entry.stamp;
    reach.end(number, Object::File(object), Some(entry));
    value
}

/// What a pin lists: the runs for the holes in its event, and all runs in its reply.
fn pin_lists(fills: u32, runs: u32) -> Listed
    ensures { result ≡ record { event_numbers = fills; event_bytes = 0; reply_numbers = runs; reply_bytes = 0 } }
{
    Listed {
        event_numbers: fills,
        event_bytes: 0,
        reply_numbers: runs,
        reply_bytes: 0,
    }
}

/// Pins the file in hand where no run is taken first: a session has it, or it has no holes. Where it has holes for
/// which too few runs are free, it answers so.
fn pin_plain<R: Reach>(
    alloc: Global,
    reach: &mut R,
    at: &mut At,
    file: FileNo,
    object: FileObject,
    order: Order,
) -> Result<Reply, Stuck>
    requires ready { IsReady at.old (R.shown reach.old) }
    requires file { file.0 < FILES }
    requires holds { Holds (file_no file.0) (R.shown reach.old) (Object.File object) }
    requires object_room { 1 ≤ object.room }
    requires memfd { FileIs object (λ s. IsMemfd (option_map facts_of s) order) }
    ensures exact { IfOk result (λ reply. FileHas object (λ f. (g : FileState) × IsPinAnswer f 0 g reply)) }
    ensures few { IfOk result (λ reply. length (reply_runs reply) < 2 ^ 32) }
    ensures goes { IfOk result (λ reply. Goes (pinned_with file order [] reply ∷ []) at.old at.new (without (file_no file.0) (R.shown reach.old)) (R.shown reach.new)) }
    ensures sticks { IfErr result (λ stuck. Sticks at.old (turn (file_no file.0) (Event.FilePin [])) stuck (without (file_no file.0) (R.shown reach.old)) (R.shown reach.new)) }
    ensures same_at { OnErr result (at.new ≡ at.old) }
{
    let _order = order;
    let slip = match resume(alloc, reach, *at, pin_lists(0, object.index_count())) {
        Ok(slip) => slip,
        Err(stuck) => {
            let number = ObjectNo::of_file(file);
            return Err(under(reach, number, Object::File(object), stuck));
        }
    };
    let mut fills = Vec::new(alloc);
    let reply = end_pin(reach, at, slip, file, object, &mut fills);
    fills.destroy_empty();
    Ok(reply)
}

/// Pins the file in hand, with these runs of zeros for its holes. Where the turn isn't taken, they are given up.
fn pin_filled<R: Reach>(
    alloc: Global,
    reach: &mut R,
    at: &mut At,
    file: FileNo,
    object: FileObject,
    order: Order,
    runs: Snapshot<Items<Pfn>>,
    mut fills: Vec<Folio>,
) -> Result<Pin, Stopped>
    requires ready { IsReady at.old (R.shown reach.old) }
    requires file { file.0 < FILES }
    requires holds { Holds (file_no file.0) (R.shown reach.old) (Object.File object) }
    requires object_room { 1 ≤ object.room }
    requires memfd { FileIs object (λ s. IsMemfd (option_map facts_of s) order) }
    requires holes { FileHas object (λ f. HasHoles f (vec_len fills)) }
    requires fills { fills.items ≡ map (zeroed_run (R.shown reach.old).anchor.home order) runs.value }
    requires few { vec_len fills < 2 ^ 32 }
    ensures whole { IfOk result (λ p. p ≡ Pin.Whole order runs (runs_in p)) }
    ensures few { IfOk result (λ p. length (runs_in p) < 2 ^ 32) }
    ensures goes { IfOk result (λ p. Goes (pinned_with file order runs.value (Reply.OkRuns (runs_in p)) ∷ []) at.old at.new (without (file_no file.0) (R.shown reach.old)) (R.shown reach.new)) }
    ensures sticks { IfErr result (λ s. Sticks at.old (turn (file_no file.0) (Event.FilePin runs.value)) s.stuck (without (file_no file.0) (R.shown reach.old)) (R.shown reach.new)) }
    ensures same_at { OnErr result (at.new ≡ at.old) }
    ensures given_up { IfErr result (λ s. AreOf (R.shown reach.old).anchor.home s.folios.items) }
{
    let listed = pin_lists(fills.len() as u32, object.index_count());
    let slip = match resume(alloc, reach, *at, listed) {
        Ok(slip) => slip,
        Err(stuck) => {
            let number = ObjectNo::of_file(file);
            let stuck = under(reach, number, Object::File(object), stuck);
            return Err(Stopped {
                folios: fills,
                stuck,
            });
        }
    };
    let reply = end_pin(reach, at, slip, file, object, &mut fills);
    fills.destroy_empty();
    Ok(outcome(order, runs, reply))
}

/// Takes a run for each hole of the file in hand, and pins it.
fn pin_taking<R: Reach>(
    alloc: Global,
    reach: &mut R,
    at: &mut At,
    file: FileNo,
    object: FileObject,
    order: Order,
    holes: u32,
) -> Result<Pin, Stopped>
    requires ready { IsReady at.old (R.shown reach.old) }
    requires file { file.0 < FILES }
    requires holds { Holds (file_no file.0) (R.shown reach.old) (Object.File object) }
    requires free { (R.shown reach.old).hands pool_no ≡ None }
    requires object_room { 1 ≤ object.room }
    requires memfd { FileIs object (λ s. IsMemfd (option_map facts_of s) order) }
    requires order { order.0 ≤ MAX_ORDER }
    requires holes { FileHas object (λ f. HasHoles f holes) }
    requires fits { IsTrue (fits_file order holes) }
    ensures goes { IfOk result (λ p. Goes (pin_deeds file p) at.old at.new (without (file_no file.0) (R.shown reach.old)) (R.shown reach.new)) }
    ensures told { IfOk result IsPin }
    ensures stopped { IfErr result (λ s. SticksAfter (ArePins file) s.stuck at.old at.new (without (file_no file.0) (R.shown reach.old)) (R.shown reach.new)) }
    ensures given_up { IfErr result (λ s. AreOf (R.shown reach.old).anchor.home s.folios.items) }
{
    let number = ObjectNo::of_file(file);
    let Ok(mut fills) = Vec::with_capacity(alloc, holes as usize) else {
        let stuck = Stuck {
            halt: Halt::Memory,
            held: Some((number, Object::File(object))),
        };
        return Err(empty_handed(alloc, stuck));
    };
    let got = match take_runs(alloc, reach, at, order, holes, &mut fills) {
        Ok(got) => got,
        Err(stuck) => {
            let stuck = under(reach, number, Object::File(object), stuck);
            return Err(Stopped {
                folios: fills,
                stuck,
            });
        }
    };
    match got {
        Some(runs) => pin_filled(alloc, reach, at, file, object, order, runs, fills),
        None => {
            fills.destroy_empty();
            match pin_plain(alloc, reach, at, file, object, order) {
                Ok(_) => Ok(Pin::Starved(order, holes)),
                Err(stuck) => Err(empty_handed(alloc, stuck)),
            }
        }
    }
}

/// Pins a memfd for an outgoing session. It takes runs for the holes below its size, all or none. It costs the number of
/// the file's indexes, and what a take of so many runs costs.
#[tactic(auto, using(crate::proofs::FileHalts::memfd_present, crate::proofs::FileHalts::memfd_small))]
pub fn pin_file<R: Reach>(
    alloc: Global,
    reach: &mut R,
    at: &mut At,
    file: FileNo,
) -> Result<Pin, Stopped>
    requires ready { IsReady at.old (R.shown reach.old) }
    requires file { file.0 < FILES }
    requires free { (R.shown reach.old).hands (file_no file.0) ≡ None }
    requires free_pool { (R.shown reach.old).hands pool_no ≡ None }
    ensures goes { IfOk result (λ p. Goes (pin_deeds file p) at.old at.new (R.shown reach.old) (R.shown reach.new)) }
    ensures told { IfOk result IsPin }
    ensures stopped { IfErr result (λ s. SticksAfter (ArePins file) s.stuck at.old at.new (R.shown reach.old) (R.shown reach.new)) }
    ensures given_up { IfErr result (λ s. AreOf (R.shown reach.old).anchor.home s.folios.items) }
{
    let (object, order) = match open_label(reach, *at, file) {
        Ok(opened) => opened,
        Err(stuck) => return Err(empty_handed(alloc, stuck)),
    };
    let wanted = runs_for(&object);
    if wanted == 0 {
        match pin_plain(alloc, reach, at, file, object, order) {
            Ok(reply) => Ok(outcome(order, no_runs(alloc), reply)),
            Err(stuck) => Err(empty_handed(alloc, stuck)),
        }
    } else {
        pin_taking(alloc, reach, at, file, object, order, wanted)
    }
}
