//! A kernel frozen into frames, and handed on.

ghost use Rattle.std.specs.Prelude.{◌≡◌, ◌+◌, ◌<◌, ◌≤◌, ◌^◌, ◌∷◌, [], length};
ghost use Rattle.std.specs.Bool.{MatchBool};
ghost use Rattle.std.specs.List.{All};
ghost use Rattle.ho_base.specs.declared.numbers.Kind.TheVariants.{Memfd};
ghost use Rattle.ho_world.specs.Logs.{end_with};
ghost use Rattle.ho_world.specs.Frozen.{carried_files, frozen as frozen_of, scratch_have, scratch_need};
ghost use Rattle.ho_world.specs.World.{World};
ghost use Rattle.kho_writer.specs.Folios.{front_count, CarryIt, HasRoom, MarksOwn, OtherBytes};
ghost use Rattle.machine_core.specs.Worlds.{IsWorldOf};
ghost use Rattle.record_frames.specs.Carries.{Carries};
ghost use Rattle.record_frames.specs.Sheeted.{ram_of};
ghost use Rattle.freeze_path.specs.Freezes.{Froze, IsOfKernel, IsStill};
ghost use Rattle.freeze_path.specs.Ready.{folios_of, DidDeeds, IsReady, IsSoundKernel, TookOn};

use crate::ready::{Ready, has_pool, prepare};
use crate::taking::{Took, end_first, take_frames};
use ho_base::numbers::{AgentNo, Blob, NoMemory};
use ho_base::shape::Shape;
use ho_events::entry::Entry;
use ho_events::reply::Reply;
use ho_events::slip::At;
use kho_writer::write;
use machine_core::{Kernel, LATE, PlainReach};
use phys_frames::Folio;
use record_frames::Carried;
use scratch_area::Handoff;
use sound_carried::carried_has_room;
use std::alloc::Global;

/// The least greatest stamp that is too great for the two entries of a kexec.
const LAST: u64 = LATE - 1;

/// What was frozen of a kernel: what is carried, the program of the next kernel, and the folios that carry it, of which
/// the first is the entry frame. It can't be let go, since the folios can't.
pub struct Frozen {
    pub carried: Carried,
    pub blob: Blob,
    pub folios: Vec<Folio>,
}

/// How freezing a kernel came out.
pub enum Freezing {
    /// It was frozen, and ends.
    Frozen(Frozen),
    /// The first scratch area has too few frames for the program.
    ScratchSmall { need: u32, have: u32 },
    /// Fewer frames are free than the records need.
    NoFrames { need: u32 },
    /// The greatest stamp of the kernel is too great for two entries more. Nothing was done.
    Late(u64),
    /// Out of memory. Nothing was done.
    Memory,
}

/// Takes so many frames of a kernel, and ends the kexec: with Ok, or where too few are free with `NoFrames`. All memory is
/// taken before the first entry.
fn take_all(
    alloc: Global,
    kernel: Kernel,
    at: At,
    need: u32,
) -> (Kernel, Vec<Entry>, Took, Vec<Folio>)
    requires agent { at.agent.0 ≡ 0 }
    requires kernel { at.kernel ≡ kernel.number }
    requires last { at.last ≡ kernel.base }
    requires early { kernel.base + 1 < 2 ^ 63 }
    requires some { 1 ≤ need }
    ensures stays { IsStill kernel result.0 result.1.items }
    ensures took { TookOn kernel at need result.1.items result.2 }
    ensures folios { result.3.items ≡ folios_of kernel.home result.2 }
{
    let Ok(mut folios) = Vec::with_capacity(alloc, need as usize) else {
        let (kernel, entries) = untouched(alloc, kernel);
        return (kernel, entries, Took::Memory, Vec::new(alloc));
    };
    let mut kernel = kernel;
    let _base = kernel.base();
    let labels = kernel.take_labels(alloc);
    let mut reach = PlainReach::new(alloc, kernel, at.agent);
    let took = take_frames(alloc, &mut reach, at, need, &mut folios);
    let (mut kernel, entries) = reach.log();
    kernel.put_labels(labels);
    (kernel, entries, took, folios)
}

/// Ends a kexec with its reply and nothing before it; false, with no entry, where memory can't be had.
fn end_alone(alloc: Global, kernel: Kernel, at: At, reply: Reply) -> (Kernel, Vec<Entry>, bool)
    requires agent { at.agent.0 ≡ 0 }
    requires kernel { at.kernel ≡ kernel.number }
    requires last { at.last ≡ kernel.base }
    requires early { kernel.base < 2 ^ 63 }
    ensures stays { IsStill kernel result.0 result.1.items }
    ensures done { MatchBool result.2 (DidDeeds kernel at (end_with reply ∷ []) result.1.items) (result.1.items ≡ []) }
{
    let mut kernel = kernel;
    let labels = kernel.take_labels(alloc);
    let mut reach = PlainReach::new(alloc, kernel, at.agent);
    let done = end_first(&mut reach, at, reply);
    let (mut kernel, entries) = reach.log();
    kernel.put_labels(labels);
    (kernel, entries, done)
}

/// Ends a kexec for which the first scratch area is too small.
fn refuse_small(
    alloc: Global,
    kernel: Kernel,
    at: At,
    blob: Blob,
    have: u32,
) -> (Kernel, Vec<Entry>, Freezing)
    requires agent { at.agent.0 ≡ 0 }
    requires kernel { at.kernel ≡ kernel.number }
    requires last { at.last ≡ kernel.base }
    requires early { kernel.base < 2 ^ 63 }
    requires have { have ≡ scratch_have kernel.shape }
    requires small { scratch_have kernel.shape < scratch_need kernel.shape blob }
    ensures stays { IsStill kernel result.0 result.1.items }
    ensures came { Froze kernel at blob result.0 result.1.items result.2 }
{
    has_pool(&kernel);
    let need = blob.frames;
    let (kernel, entries, done) = end_alone(alloc, kernel, at, Reply::ScratchSmall(need, have));
    if done {
        (kernel, entries, Freezing::ScratchSmall { need, have })
    } else {
        (kernel, entries, Freezing::Memory)
    }
}

/// Writes what is carried into the folios that were taken for it.
fn written(ready: Ready, blob: Blob, folios: Vec<Folio>) -> Frozen
    requires room { HasRoom ready.carried folios.items }
    requires marks { MarksOwn ready.carried ready.tracker }
    requires prepared { ready.prepared ≡ front_count ready.carried }
    ensures carried { result.carried ≡ ready.carried }
    ensures blob { result.blob ≡ blob }
    ensures same { OtherBytes folios.items result.folios.items }
    ensures count { length result.folios.items ≡ length folios.items }
    ensures carry { CarryIt ready.carried result.folios.items }
{
    let mut folios = folios;
    let Ready {
        carried,
        tracker,
        prepared,
        need: _,
    } = ready;
    write(prepared, &carried, &tracker, folios.as_mut_slice());
    Frozen {
        carried,
        blob,
        folios,
    }
}

/// Freezes a kernel for which all is ready.
fn freeze_ready(
    alloc: Global,
    kernel: Kernel,
    at: At,
    blob: Blob,
    ready: Ready,
) -> (Kernel, Vec<Entry>, Freezing)
    requires agent { at.agent.0 ≡ 0 }
    requires kernel { at.kernel ≡ kernel.number }
    requires last { at.last ≡ kernel.base }
    requires early { kernel.base + 1 < 2 ^ 63 }
    requires ready { IsReady kernel ready }
    requires fits { scratch_need kernel.shape blob ≤ scratch_have kernel.shape }
    ensures stays { IsStill kernel result.0 result.1.items }
    ensures came { Froze kernel at blob result.0 result.1.items result.2 }
{
    carried_has_room();
    let need = ready.need;
    let (kernel, entries, took, folios) = take_all(alloc, kernel, at, need);
    has_pool(&kernel);
    match took {
        Took::Got(_runs) => {
            let frozen = written(ready, blob, folios);
            (kernel, entries, Freezing::Frozen(frozen))
        }
        Took::TooFew => {
            folios.destroy_empty();
            (kernel, entries, Freezing::NoFrames { need })
        }
        Took::Memory => {
            folios.destroy_empty();
            (kernel, entries, Freezing::Memory)
        }
    }
}

/// Freezes a kernel whose world is sound, at this place in history, for a boot of this program: what a kexec carries of
/// it is written into frames that are taken from its pool, and its entries are those of the kexec. Files and slots are
/// looked at; nothing of the files is copied.
///
/// `Late` exactly where the greatest stamp is 2^63 - 1 or more, since a kexec may have two entries. Else `ScratchSmall`
/// exactly where the program needs more frames than the first scratch area has; `NoFrames` exactly where fewer frames are
/// free than the records need. `Memory` where memory can't be had: then there is no entry.
pub fn freeze(alloc: Global, kernel: Kernel, at: At, blob: Blob) -> (Kernel, Vec<Entry>, Freezing)
    requires agent { at.agent.0 ≡ 0 }
    requires kernel { at.kernel ≡ kernel.number }
    requires last { at.last ≡ kernel.base }
    requires sound { IsSoundKernel kernel }
    ensures stays { IsStill kernel result.0 result.1.items }
    ensures came { Froze kernel at blob result.0 result.1.items result.2 }
    ensures late { 2 ^ 63 ≤ kernel.base + 1 → result.2 ≡ Freezing.Late kernel.base }
{
    let base = kernel.base();
    if base >= LAST {
        let (kernel, entries) = untouched(alloc, kernel);
        return (kernel, entries, Freezing::Late(base));
    }
    let have = scratch_frames(kernel.pool().shape());
    if have < blob.frames {
        return refuse_small(alloc, kernel, at, blob, have);
    }
    match prepare(alloc, &kernel) {
        Err(NoMemory) => {
            let (kernel, entries) = untouched(alloc, kernel);
            (kernel, entries, Freezing::Memory)
        }
        Ok(ready) => freeze_ready(alloc, kernel, at, blob, ready),
    }
}

/// A kernel as it stands, with no entry.
fn untouched(alloc: Global, kernel: Kernel) -> (Kernel, Vec<Entry>)
    ensures stays { IsStill kernel result.0 result.1.items }
    ensures entries { result.1.items ≡ [] }
{
    let mut kernel = kernel;
    let labels = kernel.take_labels(alloc);
    let reach = PlainReach::new(alloc, kernel, AgentNo(0));
    let (mut kernel, entries) = reach.log();
    kernel.put_labels(labels);
    (kernel, entries)
}

/// How many frames the first scratch area has.
fn scratch_frames(shape: &Shape) -> u32
    ensures { result ≡ scratch_have shape.now }
{
    shape.scratch()[0].count
}

/// Hands a frozen kernel's frames on.
pub fn kexec(kernel: Kernel, frozen: Frozen) -> Handoff
    requires made { IsOfKernel kernel frozen }
    ensures shape { result.shape ≡ kernel.shape }
    ensures carries { (w : World) → IsWorldOf kernel w → Carries (ram_of result.frames) result.entry.0 (frozen_of w) }
    ensures same_shape { (w : World) → IsWorldOf kernel w → (frozen_of w).shape ≡ kernel.shape }
    ensures memfds { (w : World) → IsWorldOf kernel w → All (λ c. c.kind ≡ Memfd) (carried_files (frozen_of w)) }
{
    let Frozen {
        carried,
        blob: _,
        folios,
    } = frozen;
    let entry = folios[0].first();
    let Carried {
        shape,
        number: _,
        sessions: _,
        bounds: _,
        working: _,
    } = carried;
    let frames = kernel.gather(folios);
    Handoff {
        frames,
        shape,
        entry,
    }
}
