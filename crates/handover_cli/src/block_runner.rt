//! Does the blocks of a script, one after another, and writes their entries.

ghost use Rattle.std.specs.Prelude.{◌≡◌, ℕ, IfOk, [], ◌∷◌, option_map, length, ◌≤◌};
ghost use Rattle.ho_io.specs.Told.{Rose, behind};
ghost use Rattle.ho_events.specs.declared.script.Block.TheVariants.{Round};
ghost use Rattle.ho_events.specs.Script.Rules.{kexecs_in};
ghost use Rattle.ho_events.specs.Text.{text_of};
ghost use Rattle.ho_world.specs.World.{World};
ghost use Rattle.machine_core.specs.LabelsShown.{agent_count};
ghost use Rattle.handover_cli.specs.Asked.{AsksImages};
ghost use Rattle.handover_cli.specs.Due.{WroteFront};
ghost use Rattle.freeze_path.specs.Ready.{IsSoundKernel};
ghost use Rattle.handover_cli.specs.Ends.{DidAndLeft};
ghost use Rattle.handover_cli.specs.Images.{seen};
ghost use Rattle.handover_cli.specs.Kept.{WroteBlock, WroteLess, WroteShort};
ghost use Rattle.handover_cli.specs.Run.{WroteAll, WroteBlocks, WroteSoFar};
ghost use Rattle.handover_cli.specs.Stops.{BeginsBlocks, CanBegin};
ghost use Rattle.handover_cli.specs.Works.{CanDo, CanRun};

use crate::agent_runner::run_alone;
use crate::images::{Kept, keep_image};
use crate::rebooting::{BlockDone, Next, do_kexec, end_next, end_sound, go_on};
use crate::status::Status;
use ho_base::numbers::NoMemory;
use ho_events::entry::Entry;
use ho_events::script::{AgentWork, Block};
use ho_events::text::text;
use ho_io::{Host, put_all};
use machine_core::Kernel;
use std::alloc::Global;

/// Does a round of at most one agent on a kernel.
///
/// # Errors
///
/// [`NoMemory`] where memory of the host was wanted. The kernel's memory is given back then.
fn run_round(alloc: Global, kernel: Kernel, works: &[AgentWork]) -> Result<BlockDone, NoMemory>
    requires lists { length kernel.labels ≡ agent_count }
    requires round { CanDo (Round works.now) }
    ensures { IfOk result (λ d. (number : ℕ) → DidAndLeft number (Round works.now) kernel d.entries.items d.next) }
{
    match works {
        [] => Ok(BlockDone {
            entries: Vec::new(alloc),
            next: Next::Same(kernel),
        }),
        [work, ..] => {
            let (kernel, entries) = run_alone(alloc, kernel, work)?;
            Ok(BlockDone {
                entries,
                next: Next::Same(kernel),
            })
        }
    }
}

/// Does a block on a kernel, where a kexec has this number. It gives the block's entries and what goes on.
///
/// # Errors
///
/// [`NoMemory`] where memory of the host was wanted. The kernel's memory is given back then.
fn run_block(
    alloc: Global,
    kernel: Kernel,
    number: u32,
    block: &Block,
) -> Result<BlockDone, NoMemory>
    requires lists { length kernel.labels ≡ agent_count }
    requires block { CanDo block.now }
    requires sound { IsSoundKernel kernel }
    ensures { IfOk result (λ d. DidAndLeft number block.now kernel d.entries.items d.next) }
{
    match block {
        Block::Round(works) => run_round(alloc, kernel, works.as_slice()),
        Block::Kexec(blob) => do_kexec(alloc, kernel, number, *blob),
    }
}

/// How many kexecs a block is.
fn kexecs(block: &Block) -> u32
    ensures { result ≡ kexecs_in (block.now ∷ []) }
{
    match block {
        Block::Round(_) => 0,
        Block::Kexec(_) => 1,
    }
}

/// What came of a text: all of it was written, or memory was wanted before it, or a write failed.
enum Written {
    All,
    Memory,
    Fault,
}

/// Writes the text of some entries.
fn write_entries<H: Host>(alloc: Global, entries: &[Entry], host: &mut H) -> Written
    ensures all { result ≡ Written.All → H.out host.new ≡ behind (H.out host.old) (text_of entries.now) }
    ensures silent { result ≡ Written.Memory → H.out host.new ≡ H.out host.old }
    ensures part { result ≡ Written.Fault → WroteFront (λ text. text ≡ text_of entries.now) (H.out host.old) (H.out host.new) }
    ensures cause { result ≡ Written.Fault → Rose (H.write_faults host.old) (H.write_faults host.new) }
    ensures counts { H.write_faults host.old ≤ H.write_faults host.new }
    ensures asked_kept { H.asked host.new ≡ H.asked host.old }
    ensures made_kept { H.made host.new ≡ H.made host.old }
    ensures sinks_kept { H.sinks_out host.new ≡ H.sinks_out host.old }
{
    match text(alloc, entries) {
        Ok(text) => match put_all(host, text.as_slice()) {
            Ok(()) => Written::All,
            Err(_) => Written::Fault,
        },
        Err(_) => Written::Memory,
    }
}

/// What came of the entries of a block and of the image of a kernel that it ended: all was written, or memory was
/// wanted, or a write failed.
fn write_done<H: Host>(
    alloc: Global,
    done: &BlockDone,
    images: Option<&str>,
    host: &mut H,
) -> Written
    ensures all { result ≡ Written.All → WroteBlock done.now (option_map (λ file. file.now) images.entry) (seen (H.out host.old) (H.made host.old) (H.asked host.old)) (seen (H.out host.new) (H.made host.new) (H.asked host.new)) }
    ensures short { result ≡ Written.Memory → WroteShort done.now (option_map (λ file. file.now) images.entry) (seen (H.out host.old) (H.made host.old) (H.asked host.old)) (seen (H.out host.new) (H.made host.new) (H.asked host.new)) }
    ensures part { result ≡ Written.Fault → WroteLess done.now (option_map (λ file. file.now) images.entry) (seen (H.out host.old) (H.made host.old) (H.asked host.old)) (seen (H.out host.new) (H.made host.new) (H.asked host.new)) }
    ensures cause { result ≡ Written.Fault → Rose (H.write_faults host.old) (H.write_faults host.new) }
    ensures counts { H.write_faults host.old ≤ H.write_faults host.new }
    ensures sinks_kept { H.sinks_out host.new ≡ H.sinks_out host.old }
{
    match keep_image(alloc, &done.next, images, host) {
        Kept::All => write_entries(alloc, done.entries.as_slice(), host),
        Kept::Memory => Written::Memory,
        Kept::Fault => Written::Fault,
    }
}

/// Does the blocks of a script, from a kernel on with which a sound world begins, and writes each one's entries when it is done.
/// Where images are asked for, the image of a kernel that ended is written before the entries of the kexec that ended it.
pub fn run_blocks<H: Host>(
    alloc: Global,
    kernel: Kernel,
    blocks: &[Block],
    images: Option<&str>,
    host: &mut H,
) -> Status
    requires blocks { CanRun blocks.now }
    requires begins { CanBegin blocks.now kernel }
    ensures legal { result ≡ Status.Done → (start : World) → BeginsBlocks start blocks.now kernel → WroteAll start blocks.now (option_map (λ file. file.now) images.entry) (seen (H.out host.old) (H.made host.old) (H.asked host.old)) (seen (H.out host.new) (H.made host.new) (H.asked host.new)) }
    ensures memory { result ≡ Status.Memory → (start : World) → BeginsBlocks start blocks.now kernel → WroteBlocks start blocks.now (option_map (λ file. file.now) images.entry) (seen (H.out host.old) (H.made host.old) (H.asked host.old)) (seen (H.out host.new) (H.made host.new) (H.asked host.new)) }
    ensures part { result ≡ Status.WriteFault → (start : World) → BeginsBlocks start blocks.now kernel → WroteSoFar start blocks.now (option_map (λ file. file.now) images.entry) (seen (H.out host.old) (H.made host.old) (H.asked host.old)) (seen (H.out host.new) (H.made host.new) (H.asked host.new)) }
    ensures not_script { result ≡ Status.Script → ⊥ }
    ensures not_usage { result ≡ Status.Usage → ⊥ }
    ensures not_read { result ≡ Status.ReadFault → ⊥ }
    ensures not_image { result ≡ Status.Image → ⊥ }
    ensures write_cause { result ≡ Status.WriteFault → Rose (H.write_faults host.old) (H.write_faults host.new) }
    ensures asked { AsksImages (option_map (λ file. file.now) images.entry) (H.asked host.old) (H.asked host.new) }
    ensures sinks_kept { H.sinks_out host.new ≡ H.sinks_out host.old }
{
    let mut kernel = kernel;
    let mut number = 1;
    for block in blocks {
        match run_block(alloc, kernel, number, block) {
            Ok(done) => {
                let written = write_done(alloc, &done, images, host);
                let BlockDone { entries: _, next } = done;
                match written {
                    Written::All => match go_on(alloc, next) {
                        Ok(next) => kernel = next,
                        Err(NoMemory) => return Status::Memory,
                    },
                    Written::Memory => {
                        end_next(alloc, next);
                        return Status::Memory;
                    }
                    Written::Fault => {
                        end_next(alloc, next);
                        return Status::WriteFault;
                    }
                }
            }
            Err(NoMemory) => return Status::Memory,
        }
        number += kexecs(block);
    }
    end_sound(alloc, kernel);
    Status::Done
}
