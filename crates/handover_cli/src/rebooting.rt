//! Does a kexec: freezes a kernel, hands its frames on, and boots the next one.

ghost use Rattle.std.specs.Prelude.{◌≡◌, ◌<◌, IfOk};
ghost use Rattle.ho_base.specs.declared.limits.TheConstants.{KEXECS};
ghost use Rattle.ho_events.specs.declared.script.Block.TheVariants.{Kexec};
ghost use Rattle.freeze_path.specs.Freezes.{IsOfKernel};
ghost use Rattle.freeze_path.specs.Ready.{IsSoundKernel};
ghost use Rattle.phys_frames.specs.Memory.{AllHome};
ghost use Rattle.handover_cli.specs.Images.{IsReadBack};
ghost use Rattle.handover_cli.specs.Ends.{CanGoOn, CanBoot, DidAndLeft, EndedAs, BootsAs, RunsAs};

use crate::agent_runner::end_kernel;
use freeze_path::{Freezing, Frozen, freeze, kexec};
use ho_base::numbers::{AgentNo, Blob, NoMemory};
use ho_events::entry::Entry;
use ho_events::slip::At;
use image_file::law_of_images;
use kernel_carried::has_no_devices;
use kexec_boot::{BootError, boot};
use kho_records::hold_pages;
use machine_core::Kernel;
use phys_frames::Frames;
use scratch_area::Handoff;
use std::alloc::Global;

/// What a kernel left that ended: its frames, the program of the next kernel, and its own number. It can't be let go,
/// since the frames can't.
pub struct Ended {
    pub handoff: Handoff,
    pub blob: Blob,
    pub kernel: u8,
}

/// What goes on after a block.
pub enum Next {
    /// The same kernel.
    Same(Kernel),
    /// The next kernel, from what the last one left.
    Ended(Ended),
}

/// A block that was done: its entries, and what goes on.
pub struct BlockDone {
    pub entries: Vec<Entry>,
    pub next: Next,
}

/// Frames that are home, and an entry number, are what is read from their image. Nothing is done; it costs the number of
/// frames.
fn reads_back(frames: &Frames, entry: u32)
    requires home { AllHome frames.now }
    ensures { IsReadBack frames.now entry }
{
    law_of_images();
    hold_pages(frames);
    let _count = frames.count();
}

/// Hands the frames of a frozen kernel on.
fn end(kernel: Kernel, frozen: Frozen) -> Ended
    requires made { IsOfKernel kernel frozen }
    ensures { EndedAs kernel result }
{
    let number = kernel.number();
    let blob = frozen.blob;
    let handoff = kexec(kernel, frozen);
    reads_back(&handoff.frames, handoff.entry.0);
    Ended {
        handoff,
        blob,
        kernel: number,
    }
}

/// Does a kexec of this number into a blob on a kernel, as agent 0: the kernel ends, and leaves frames that carry what is
/// frozen of it, or the kexec is refused.
///
/// # Errors
///
/// [`NoMemory`] where memory of the host was wanted, and where the kernel's stamps are at their end. The kernel's memory is given back then.
pub fn do_kexec(
    alloc: Global,
    kernel: Kernel,
    number: u32,
    blob: Blob,
) -> Result<BlockDone, NoMemory>
    requires sound { IsSoundKernel kernel }
    ensures { IfOk result (λ d. DidAndLeft number (Kexec blob) kernel d.entries.items d.next) }
{
    let at = At {
        kernel: kernel.number(),
        agent: AgentNo(0),
        command: number,
        last: kernel.base(),
    };
    let (kernel, entries, freezing) = freeze(alloc, kernel, at, blob);
    match freezing {
        Freezing::Frozen(frozen) => Ok(BlockDone {
            entries,
            next: Next::Ended(end(kernel, frozen)),
        }),
        Freezing::ScratchSmall { need: _, have: _ } => Ok(BlockDone {
            entries,
            next: Next::Same(kernel),
        }),
        Freezing::NoFrames { need: _ } => Ok(BlockDone {
            entries,
            next: Next::Same(kernel),
        }),
        Freezing::Late(_) | Freezing::Memory => {
            end_kernel(kernel, Vec::new(alloc));
            Err(NoMemory)
        }
    }
}

/// Boots the next kernel from what the last one left. It begins with exactly what the frames carry.
///
/// # Errors
///
/// [`NoMemory`] where memory of the host was wanted. All memory of the frames is given back then.
fn boot_next(alloc: Global, ended: Ended) -> Result<Kernel, NoMemory>
    requires can { CanBoot ended }
    ensures { IfOk result (BootsAs ended) }
{
    let Ended {
        handoff,
        blob,
        kernel,
    } = ended;
    match boot(alloc, handoff, blob, kernel + 1) {
        Ok(next) => Ok(next),
        Err(error) => match error {
            BootError::Memory => Err(NoMemory),
            BootError::BadImage(_) => unreachable!(),
            BootError::Unbuilt => unreachable!(),
        },
    }
}

/// The kernel that runs after a block: the same one, or the one that boots from what it left.
///
/// # Errors
///
/// [`NoMemory`] where memory of the host was wanted. All memory of the frames is given back then.
pub fn go_on(alloc: Global, next: Next) -> Result<Kernel, NoMemory>
    requires { CanGoOn next }
    ensures { IfOk result (RunsAs next) }
{
    match next {
        Next::Same(kernel) => Ok(kernel),
        Next::Ended(ended) => boot_next(alloc, ended),
    }
}

/// Ends a kernel whose world is sound: all its frames come home, and all its memory is given back.
pub fn end_sound(alloc: Global, kernel: Kernel)
    requires { IsSoundKernel kernel }
{
    has_no_devices(&kernel);
    kernel.gather(Vec::new(alloc)).end();
}

/// Gives the memory back of what would go on.
pub fn end_next(alloc: Global, next: Next) {
    match next {
        Next::Same(kernel) => end_kernel(kernel, Vec::new(alloc)),
        Next::Ended(ended) => {
            let Ended {
                handoff,
                blob: _,
                kernel: _,
            } = ended;
            let Handoff {
                frames,
                shape: _,
                entry: _,
            } = handoff;
            frames.end();
        }
    }
}
