//! A boot: the kernel that begins with what the frames carry.

ghost use Rattle.std.specs.Prelude.{◌≡◌, ◌≤◌, [], IfOk, IfErr, IsOk, IsTrue, OnOk, length};
ghost use Rattle.ho_world.specs.Frozen.{Frozen, scratch_need, scratch_have};
ghost use Rattle.phys_frames.specs.Memory.{AllHome, AreOf};
ghost use Rattle.record_frames.specs.Carries.{Carries};
ghost use Rattle.record_frames.specs.Sheeted.{ram_of};
ghost use Rattle.record_frames.specs.State.{state_in};
ghost use Rattle.next_laws.specs.Begins.{are_memfds};
ghost use Rattle.next_laws.specs.Follows.{CanBegin};
ghost use Rattle.kexec_boot.specs.Begins.{BeginsAs};
ghost use Rattle.kexec_boot.specs.Prepared.{IsPrepared};
ghost use Rattle.kexec_boot.specs.Refused.{IsBootRefusal, IsWant};

use crate::holding::hold_all;
use crate::loading::load;
use crate::prepared::{Prepared, Store};
use crate::reading::{BootError, read};
use ho_base::numbers::{Blob, NoMemory};
use kho_records::hold_pages;
use machine_core::Kernel;
use next_laws::begins::{law_of_sessions, law_of_the_pool, law_of_the_registry};
use next_laws::follows::law_of_following;
use next_laws::law_of_scratch;
use phys_frames::{Folio, Frames};
use pool_core::Pool;
use record_frames::Carried;
use record_frames::laws::law_of_carrying;
use scratch_area::Handoff;
use std::alloc::Global;

/// Boots a kernel of this number from what an earlier one handed over. It begins in scratch area 0 alone: the program is
/// loaded there, and all that the frames carry is read. Only then the page allocator opens, with exactly the carried runs
/// owned; the files are held with their bytes, and the sessions wait in the incoming slots under their names.
///
/// Whatever the frames carried before the program was loaded, the kernel begins with exactly that. The program fits into
/// scratch area 0. Memory is taken before the page allocator opens, but for three things: the page allocator's own tables,
/// and for each file the list of its folios and its indexes. Every refusal gives up the frames.
pub fn boot(alloc: Global, handoff: Handoff, blob: Blob, number: u8) -> Result<Kernel, BootError>
    requires fits { scratch_need handoff.shape blob ≤ scratch_have handoff.shape }
    ensures next { IfOk result (λ k. (f : Frozen) → Carries (ram_of handoff.frames) handoff.entry.0 f → BeginsAs number f k) }
    ensures refused { IfErr result (IsBootRefusal handoff blob) }
{
    let Handoff {
        mut frames,
        shape,
        entry,
    } = handoff;
    law_of_scratch();
    law_of_carrying();
    law_of_following();
    load(&mut frames, &shape, blob);
    let _count = frames.count();
    hold_pages(&frames);
    match read(alloc, &frames, &shape, entry) {
        Ok(carried) => begin(alloc, frames, carried, number),
        Err(error) => {
            frames.end();
            Err(error)
        }
    }
}

/// Begins a kernel with what frames carry.
pub(crate) fn begin(
    alloc: Global,
    frames: Frames,
    carried: Carried,
    number: u8,
) -> Result<Kernel, BootError>
    requires home { AllHome frames }
    requires count { carried.shape.frames ≡ length frames.pages }
    requires memfds { IsTrue (are_memfds (state_in (ram_of frames) carried)) }
    requires can { CanBegin (state_in (ram_of frames) carried) }
    ensures begins { IfOk result (BeginsAs number (state_in (ram_of frames) carried)) }
    ensures memory { IfErr result IsWant }
{
    match Prepared::make(alloc, carried.sessions.as_slice()) {
        Ok(prepared) => open(alloc, frames, carried, prepared, number),
        Err(NoMemory) => {
            frames.end();
            Err(BootError::Memory)
        }
    }
}

/// Opens the page allocator, and begins a kernel with what was prepared. Where the files can't all be held it is given up.
fn open(
    alloc: Global,
    frames: Frames,
    carried: Carried,
    prepared: Prepared,
    number: u8,
) -> Result<Kernel, BootError>
    requires home { AllHome frames }
    requires count { carried.shape.frames ≡ length frames.pages }
    requires memfds { IsTrue (are_memfds (state_in (ram_of frames) carried)) }
    requires can { CanBegin (state_in (ram_of frames) carried) }
    requires prepared { IsPrepared carried.sessions prepared }
    ensures begins { IfOk result (BeginsAs number (state_in (ram_of frames) carried)) }
    ensures memory { IfErr result IsWant }
{
    law_of_the_pool();
    law_of_the_registry();
    law_of_sessions();
    let Prepared {
        places,
        registry,
        sessions,
        files,
        runs,
        mut store,
    } = prepared;
    match Pool::adopt(alloc, frames, carried.shape, &runs, &mut store.folios) {
        Ok(pool) => {
            let held = hold_all(alloc, &pool, &files, &mut store);
            let Store { folios, files } = store;
            let kernel = Kernel::begin(
                alloc,
                places,
                number,
                carried.number,
                pool,
                registry,
                sessions,
                files,
            );
            finish(kernel, held, folios)
        }
        Err(frames) => {
            places.give_up();
            store.give_up();
            frames.end();
            Err(BootError::Memory)
        }
    }
}

/// The kernel, where all its files are held. Else it is given up with the folios that no file has, and the memory of the
/// frames is given back with it where every frame came home. Where one is missing, their memory stays taken until the
/// process ends.
fn finish(
    kernel: Kernel,
    held: Result<(), NoMemory>,
    folios: Vec<Folio>,
) -> Result<Kernel, BootError>
    requires none { OnOk held (folios.items ≡ []) }
    requires of_home { AreOf kernel.home folios.items }
    ensures kernel { IfOk result (λ k. k ≡ kernel) }
    ensures held { IfOk result (λ k. IsOk held) }
    ensures memory { IfErr result IsWant }
{
    match held {
        Ok(()) => {
            folios.destroy_empty();
            Ok(kernel)
        }
        Err(NoMemory) => {
            if let Err(frames) = kernel.give_up(folios) {
                frames.forget();
            }
            Err(BootError::Memory)
        }
    }
}
