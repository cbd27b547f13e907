//! The entry frame: its number, its tree, the root and the root's child, from any bytes.

ghost use Rattle.std.specs.Prelude.{◌≡◌, IfOk, length};
ghost use Rattle.phys_frames.specs.Memory.{AllHome};
ghost use Rattle.record_frames.specs.Sheeted.{ram_of};
ghost use Rattle.record_frames.specs.Entry.{TellsReader, TellsHandover};

use crate::handover::{LuoRead, read_luo, read_root};
use crate::pages::{is_frame_number, page_of};
use crate::place::ImagePlace;
use fdt_blob::{FdtPlace, OpenError, Reader};
use ho_base::shape::Shape;
use phys_frames::Frames;
use std::alloc::{AllocError, Global};

/// What the entry frame says.
#[derive(Debug, Drop)]
pub struct HandoverRead {
    /// The machine's shape.
    pub shape: Shape,
    /// The number of the first chunk frame.
    pub chunk: u64,
    /// What the root's child says.
    pub luo: LuoRead,
}

/// Opens the blob at the front of a frame; or the first place of it whose rules break.
fn open_blob(alloc: Global, bytes: &[u8]) -> Result<Result<Reader<'_>, FdtPlace>, AllocError>
    ensures { IfOk result (λ r. TellsReader bytes.now r) }
{
    match Reader::open(alloc, bytes) {
        Ok(reader) => Ok(Ok(reader)),
        Err(error) => match error {
            OpenError::BadFdt(place) => Ok(Err(place)),
            OpenError::Memory => Err(AllocError),
        },
    }
}

/// Reads the entry frame: its number, its tree, the root and the root's child, in this order.
///
/// `Ok(Err(place))`: the first of them whose rules break. `Err`: out of memory.
pub fn read_handover(
    alloc: Global,
    frames: &Frames,
    entry: u64,
) -> Result<Result<HandoverRead, ImagePlace>, AllocError>
    requires home { AllHome frames.now }
    ensures { IfOk result (λ r. TellsHandover (ram_of frames.now) entry r) }
{
    if !is_frame_number(frames, entry) {
        return Ok(Err(ImagePlace::Entry));
    }
    let reader = match open_blob(alloc, page_of(frames, entry))? {
        Ok(reader) => reader,
        Err(place) => return Ok(Err(ImagePlace::Tree(place))),
    };
    let Some(root) = read_root(alloc, &reader, reader.root(), frames.count())? else {
        return Ok(Err(ImagePlace::Root));
    };
    let Some(luo) = read_luo(&reader, root.luo) else {
        return Ok(Err(ImagePlace::Luo));
    };
    Ok(Ok(HandoverRead {
        shape: root.shape,
        chunk: root.chunk,
        luo,
    }))
}
