//! What a kexec carries, gathered from a kernel's objects.

ghost use Rattle.std.specs.Prelude.{◌≡◌, ◌+◌, ◌^◌, ◌<◌, IfOk, IsSome, None, map};
ghost use Rattle.std.specs.List.{All};
ghost use Rattle.ho_base.specs.declared.limits.TheConstants.{IN_SLOTS, OUT_SLOTS};
ghost use Rattle.ho_events.specs.File as files;
ghost use Rattle.ho_events.specs.Lists.{firsts};
ghost use Rattle.ho_world.specs.World.{World};
ghost use Rattle.memfd_file.specs.FileValues.{FileIs};
ghost use Rattle.memfd_file.specs.Files.{FileHas};
ghost use Rattle.registry_core.specs.Outgoing.{with_number};
ghost use Rattle.session_core.specs.SessionShown.{reference, AreFiles};
ghost use Rattle.kernel_carried.specs.Gathered.{Agrees, AreFilesOf, AreSessionsOf, HaveSlots, IsCarriedAs, IsGathered, IsSessionOf};

use ho_base::Items;
use ho_base::name::Name;
use ho_base::numbers::{FileNo, Kind, NoMemory, Order, Pfn, SlotNo, Token};
use ho_base::shape::Shape;
use machine_core::Kernel;
use memfd_file::FileObject;
use record_frames::{Carried, CarriedFile, CarriedSession};
use std::alloc::Global;

/// The first frames of all runs of a file that is there, by index.
fn runs_of(alloc: Global, file: &FileObject) -> Result<Items<Pfn>, NoMemory>
    requires { FileIs file.now IsSome }
    ensures { IfOk result (λ runs. FileHas file.now (λ f. firsts runs ≡ files.runs_of f)) }
{
    let Ok(mut runs) = Vec::with_capacity(alloc, file.index_count() as usize) else {
        return Err(NoMemory);
    };
    file.add_runs(&mut runs);
    Ok(Items::from_vec(runs))
}

/// A token has 8 bytes. Nothing is done.
fn fits(token: Token)
    ensures { token.0 < 2 ^ 64 }
{}

/// A file that isn't there, as it is carried under a token.
fn empty_file(alloc: Global, token: Token) -> CarriedFile
    ensures { IsCarriedAs token.0 None result }
{
    fits(token);
    CarriedFile {
        token,
        kind: Kind::Memfd,
        order: Order(0),
        size: 0,
        position: 0,
        handle: 0,
        runs: Items::new(alloc),
    }
}

/// A file as it is carried under a token. One that isn't there is carried as an empty memfd.
fn carried_file(alloc: Global, file: &FileObject, token: Token) -> Result<CarriedFile, NoMemory>
    ensures { IfOk result (λ c. FileIs file.now (λ s. IsCarriedAs token.0 s c)) }
{
    fits(token);
    let Some(facts) = file.facts() else {
        return Ok(empty_file(alloc, token));
    };
    let runs = runs_of(alloc, file)?;
    Ok(CarriedFile {
        token,
        kind: facts.kind,
        order: facts.order,
        size: facts.size,
        position: facts.position,
        handle: 0,
        runs,
    })
}

/// The files that a session lists, as they are carried.
fn carried_files(
    alloc: Global,
    kernel: &Kernel,
    listed: &[(Token, FileNo, u64)],
) -> Result<Items<CarriedFile>, NoMemory>
    requires { AreFiles listed.now }
    ensures { IfOk result (λ cs. (w : World) → Agrees w kernel.now.objects → AreFilesOf kernel.now.objects w (map reference listed.now) cs) }
{
    let mut files = Vec::new(alloc);
    for entry in listed {
        let (token, file, _) = *entry;
        let carried = carried_file(alloc, kernel.file(file), token)?;
        if files.push(carried).is_err() {
            return Err(NoMemory);
        }
    }
    Ok(Items::from_vec(files))
}

/// The session of a name, in a slot, as it is carried.
fn carried_session(
    alloc: Global,
    kernel: &Kernel,
    name: Name,
    slot: SlotNo,
) -> Result<CarriedSession, NoMemory>
    requires { slot.0 < OUT_SLOTS + IN_SLOTS }
    ensures { IfOk result (λ c. (w : World) → Agrees w kernel.now.objects → IsSessionOf kernel.now.objects w (with_number (name, slot)) c) }
{
    let _bytes = name.as_bytes();
    let files = carried_files(alloc, kernel, kernel.session(slot).files())?;
    Ok(CarriedSession { name, files })
}

/// The sessions of names, in their slots, as they are carried.
fn carried_sessions(
    alloc: Global,
    kernel: &Kernel,
    names: &[(Name, SlotNo)],
) -> Result<Items<CarriedSession>, NoMemory>
    requires { All (λ e. e.1 < OUT_SLOTS + IN_SLOTS) (map with_number names.now) }
    ensures { IfOk result (λ cs. (w : World) → Agrees w kernel.now.objects → AreSessionsOf kernel.now.objects w (map with_number names.now) cs) }
{
    let mut sessions = Vec::new(alloc);
    for entry in names {
        let (name, slot) = *entry;
        let carried = carried_session(alloc, kernel, name, slot)?;
        if sessions.push(carried).is_err() {
            return Err(NoMemory);
        }
    }
    Ok(Items::from_vec(sessions))
}

/// A shape again.
fn same_shape(alloc: Global, shape: &Shape) -> Result<Shape, NoMemory>
    ensures { IfOk result (λ s. s ≡ shape.now) }
{
    let _legal = shape.scratch();
    let Ok(areas) = Vec::from_slice(alloc, shape.scratch()) else {
        return Err(NoMemory);
    };
    match Shape::checked(shape.frames(), areas) {
        Ok(shape) => Ok(shape),
        Err(_) => unreachable!(),
    }
}

/// What a kexec carries of a kernel: each outgoing session in rising names, with its files in rising tokens. A file that isn't
/// there is carried as an empty memfd. It looks at each carried file once, and at no byte of it.
pub fn carried_of(alloc: Global, kernel: &Kernel) -> Result<Carried, NoMemory>
    requires slots { HaveSlots kernel.now.objects }
    ensures { IfOk result (IsGathered kernel.now) }
{
    let names = kernel.registry().outgoing(alloc)?;
    let sessions = carried_sessions(alloc, kernel, names.as_slice())?;
    Ok(Carried {
        shape: same_shape(alloc, kernel.pool().shape())?,
        number: kernel.updates().saturating_add(1),
        sessions,
        bounds: Items::new(alloc),
        working: Items::new(alloc),
    })
}
