//! The bound records, read from any bytes.

ghost use Rattle.std.specs.Prelude.{◌≡◌, length, map};
ghost use Rattle.std.specs.List.{flat_map};
ghost use Rattle.phys_frames.specs.Memory.{AllHome};
ghost use Rattle.record_frames.specs.Sheets.{items_of, kind_number as number_rule};
ghost use Rattle.record_frames.specs.Kept.{devices, files_of, has_kind as kind_rule};
ghost use Rattle.record_frames.specs.Reading.{bound_at, bounds_at};
ghost use Rattle.record_frames.specs.Slots.{Gives, Tells};
ghost use Rattle.record_frames.specs.Files.{file_record};
ghost use Rattle.record_frames.specs.Sessions.{session_record, records_view};
ghost use Rattle.record_frames.specs.Sheeted.{ram_of};
ghost use Rattle.record_frames.specs.Bounds.{bound_view};

use crate::carried::CarriedBound;
use crate::files::FileRead;
use crate::pages::{is_frame_number, page_of};
use crate::sessions::{RecordsRead, SessionRead};
use ho_base::bound::Bound;
use ho_base::bytes::get_u64;
use ho_base::limits::BOUND_BYTES;
use ho_base::numbers::{Kind, Pfn};
use phys_frames::Frames;

/// The number of a kind in a slot.
fn kind_number(kind: Kind) -> u8
    ensures { result ≡ number_rule kind }
{
    match kind {
        Kind::Memfd => 0,
        Kind::Dev0 => 1,
        Kind::Dev1 => 2,
        Kind::Dev2 => 3,
        Kind::Dev3 => 4,
    }
}

/// Whether one of the files is of this kind.
fn is_among(files: &[FileRead], kind: Kind) -> bool
    ensures { result ≡ kind_rule (map file_record files.now) kind }
{
    match files {
        [first, rest @ ..] => {
            kind_number(first.slot.kind) == kind_number(kind) || is_among(rest, kind)
        }
        [] => false,
    }
}

/// Whether one of the sessions has a file of this kind.
#[tactic(auto, using(crate::proofs::BoundSteps::kind_more))]
fn has_kind(sessions: &[SessionRead], kind: Kind) -> bool
    ensures { result ≡ kind_rule (flat_map files_of (map session_record sessions.now)) kind }
{
    match sessions {
        [first, rest @ ..] => is_among(&first.files, kind) || has_kind(rest, kind),
        [] => false,
    }
}

/// The bound record of a kind that has files or none, with the number of its frame, if there is one; none where there
/// is a number without files or files without a number, where the number isn't that of a frame from 1 on, or where the
/// record is too long.
#[tactic(auto, using(crate::proofs::BoundSteps::bound_refused, crate::proofs::BoundSteps::bound_long))]
fn read_bound(
    frames: &Frames,
    kind: Kind,
    has: bool,
    frame: Option<u64>,
) -> Option<Option<CarriedBound>>
    requires home { AllHome frames.now }
    ensures { Gives bound_view result (bound_at (ram_of frames.now) has frame) }
{
    let Some(p) = frame else {
        return if has { None } else { Some(None) };
    };
    if !has || !is_frame_number(frames, p) {
        return None;
    }
    let page = page_of(frames, p);
    let len = get_u64(page, 0);
    if len > u64::from(BOUND_BYTES) {
        return None;
    }
    let bound = Bound::checked(&page[8..8 + len as usize])?;
    Some(Some(CarriedBound {
        kind,
        frame: Pfn(p as u32),
        bound,
    }))
}

/// Reads the bound records of the four kinds of device files, in order of kinds. A kind has one exactly where it has a
/// file.
///
/// `Err(kind)`: the first kind whose bound record breaks a rule. It is there without a file of the kind, or missing with
/// one; its frame's number isn't that of a frame from 1 on; or it is longer than 64 bytes.
pub fn read_bounds(
    frames: &Frames,
    records: &RecordsRead,
    given: &[Option<u64>; 4],
) -> Result<[Option<CarriedBound>; 4], Kind>
    requires home { AllHome frames.now }
    ensures { Tells (λ bounds. map bound_view bounds) result (bounds_at (ram_of frames.now) (flat_map files_of (items_of (records_view records.now))) devices given.now) }
{
    let sessions = records.sessions.as_slice();
    let Some(dev0) = read_bound(frames, Kind::Dev0, has_kind(sessions, Kind::Dev0), given[0]) else {
        return Err(Kind::Dev0);
    };
    let Some(dev1) = read_bound(frames, Kind::Dev1, has_kind(sessions, Kind::Dev1), given[1]) else {
        return Err(Kind::Dev1);
    };
    let Some(dev2) = read_bound(frames, Kind::Dev2, has_kind(sessions, Kind::Dev2), given[2]) else {
        return Err(Kind::Dev2);
    };
    let Some(dev3) = read_bound(frames, Kind::Dev3, has_kind(sessions, Kind::Dev3), given[3]) else {
        return Err(Kind::Dev3);
    };
    Ok([dev0, dev1, dev2, dev3])
}
