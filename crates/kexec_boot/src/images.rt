//! A boot from the frames of an image.

ghost use Rattle.std.specs.Prelude.{IfErr, IfOk};
ghost use Rattle.phys_frames.specs.Memory.{AllHome};
ghost use Rattle.record_frames.specs.Sheeted.{ram_of};
ghost use Rattle.kexec_boot.specs.Images.{BeginsFrom, IsImageRefusal};

use crate::boots::begin;
use crate::reading::{BootError, read_image};
use kho_records::hold_pages;
use machine_core::Kernel;
use next_laws::follows::law_of_following;
use phys_frames::Frames;
use std::alloc::Global;

/// Boots a kernel of this number from the frames of an image and the number of its entry frame, which may be any number.
/// No program is loaded, and the machine has the shape that the frames say. The kernel begins with exactly what they
/// carry. Memory is taken as [`boot`](crate::boot) takes it, and every refusal gives up the frames.
///
/// # Errors
///
/// * [`BootError::BadImage`] where the frames carry nothing; the first place whose rules break.
/// * [`BootError::Unbuilt`] where a device file is carried.
/// * [`BootError::Memory`] where memory was wanted.
pub fn boot_image(
    alloc: Global,
    frames: Frames,
    entry: u64,
    number: u8,
) -> Result<Kernel, BootError>
    requires home { AllHome frames }
    ensures next { IfOk result (BeginsFrom number (ram_of frames) entry) }
    ensures refused { IfErr result (IsImageRefusal (ram_of frames) entry) }
{
    law_of_following();
    hold_pages(&frames);
    match read_image(alloc, &frames, entry) {
        Ok(carried) => begin(alloc, frames, carried, number),
        Err(error) => {
            frames.end();
            Err(error)
        }
    }
}
