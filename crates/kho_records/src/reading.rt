//! All parts of an image read in their order, up to the owners of frames.

ghost use Rattle.std.specs.Prelude.{◌≡◌, ◌<◌, IfOk, length};
ghost use Rattle.std.specs.List.{All};
ghost use Rattle.phys_frames.specs.Memory.{AllHome};
ghost use Rattle.ho_events.specs.Lists.{firsts};
ghost use Rattle.record_frames.specs.Sheeted.{ram_of};
ghost use Rattle.record_frames.specs.Sheets.{record_numbers};
ghost use Rattle.record_frames.specs.Sessions.{records_view};
ghost use Rattle.kho_records.specs.Survey.{TellsFrames};

use crate::chain::{ChunkSheet, read_chunks};
use phys_frames::Frames;
use record_frames::reading::{HandoverRead, RecordsRead, read_bounds, read_handover, read_records};
use record_frames::{CarriedBound, ImagePlace};
use std::alloc::{AllocError, Global};

/// What the frames of an image say.
#[derive(Debug, Drop)]
pub(crate) struct FramesRead {
    /// What the entry frame says.
    pub(crate) handover: HandoverRead,
    /// The chunk frames.
    pub(crate) chunks: Vec<ChunkSheet>,
    /// The session, file and list frames.
    pub(crate) records: RecordsRead,
    /// The bound records, in order of kinds.
    pub(crate) bounds: [Option<CarriedBound>; 4],
}

/// Reads the entry frame, the chunk frames, the records and the bound records, in this order.
///
/// `Ok(Err(place))`: the first place whose rules break. `Err`: out of memory.
pub(crate) fn read_frames(
    alloc: Global,
    frames: &Frames,
    entry: u64,
) -> Result<Result<FramesRead, ImagePlace>, AllocError>
    requires home { AllHome frames.now }
    ensures read { IfOk result (λ r. TellsFrames (ram_of frames.now) entry r) }
    ensures entry { IfOk result (λ r. IfOk r (λ f. entry < length frames.now.pages)) }
    ensures numbers { IfOk result (λ r. IfOk r (λ f. firsts f.records.numbers.items ≡ record_numbers (records_view f.records))) }
    ensures chunks { IfOk result (λ r. IfOk r (λ f. All (λ s. s.at < length frames.now.pages) f.chunks.items)) }
{
    let handover = match read_handover(alloc, frames, entry)? {
        Ok(handover) => handover,
        Err(place) => return Ok(Err(place)),
    };
    let chunks = match read_chunks(alloc, frames, handover.chunk)? {
        Ok(chunks) => chunks,
        Err(at) => return Ok(Err(ImagePlace::Chain(at))),
    };
    let records = match read_records(alloc, frames, handover.luo.header)? {
        Ok(records) => records,
        Err(at) => return Ok(Err(ImagePlace::Record(at))),
    };
    let bounds = match read_bounds(frames, &records, &handover.luo.bounds) {
        Ok(bounds) => bounds,
        Err(kind) => return Ok(Err(ImagePlace::Bound(kind))),
    };
    Ok(Ok(FramesRead {
        handover,
        chunks,
        records,
        bounds,
    }))
}
