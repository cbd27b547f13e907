//! The frames of the bound records.

ghost use Rattle.std.specs.Prelude.{◌≡◌, map};
ghost use Rattle.record_frames.specs.Kept.{bound_frames as frames_of_bounds, devices};
ghost use Rattle.record_frames.specs.Sheets.{kind_number as number_of_kind};
ghost use Rattle.record_frames.specs.State.{bound_among};
ghost use Rattle.kho_writer.specs.Bounds.{frame_in};
ghost use Rattle.kho_writer.specs.Entry.{number_at};

use ho_base::numbers::{Kind, Pfn};
use record_frames::CarriedBound;

/// The number of a kind.
fn kind_number(kind: Kind) -> u8
    ensures { result ≡ number_of_kind kind }
{
    match kind {
        Kind::Memfd => 0,
        Kind::Dev0 => 1,
        Kind::Dev1 => 2,
        Kind::Dev2 => 3,
        Kind::Dev3 => 4,
    }
}

/// The frame of the first bound record of a kind; none where there is no such record.
fn bound_frame(bounds: &[CarriedBound], kind: Kind) -> Option<Pfn>
    ensures { number_at result ≡ frame_in (bound_among bounds.now kind) }
{
    for bound in bounds {
        if kind_number(bound.kind) == kind_number(kind) {
            return Some(bound.frame);
        }
    }
    None
}

/// For each kind of device files, in order, the frame of its bound record, if there is one.
pub(crate) fn bound_frames(bounds: &[CarriedBound]) -> [Option<Pfn>; 4]
    ensures { map number_at result ≡ frames_of_bounds (map (bound_among bounds.now) devices) }
{
    [
        bound_frame(bounds, Kind::Dev0),
        bound_frame(bounds, Kind::Dev1),
        bound_frame(bounds, Kind::Dev2),
        bound_frame(bounds, Kind::Dev3),
    ]
}
