//! The memory that a boot takes before its page allocator opens.

ghost use Rattle.std.specs.Prelude.{◌≡◌, [], IfOk, map};
ghost use Rattle.std.specs.List.{IsDistinct};
ghost use Rattle.ho_events.specs.Lists.{same_bytes};
ghost use Rattle.kexec_boot.specs.Prepared.{HasRoomFor, IsPrepared};
ghost use Rattle.kexec_boot.specs.Waiting.{CanWait};

use crate::files::{PlainFile, all_runs, plain_files};
use crate::waiting::waiting_sessions;
use ho_base::name::Name;
use ho_base::numbers::{NoMemory, Order, Pfn};
use machine_core::Places;
use memfd_file::FileObject;
use phys_frames::Folio;
use record_frames::CarriedSession;
use registry_core::Registry;
use session_core::SessionObject;
use std::alloc::{AllocError, Global};

/// Folios, and files that are held.
pub(crate) struct Store {
    /// The folios that no file has.
    pub(crate) folios: Vec<Folio>,
    /// The files.
    pub(crate) files: Vec<FileObject>,
}

/// Everything that a boot takes memory for once its records are read, but for the pool's own tables, and for each file
/// the list of its folios and its indexes.
pub(crate) struct Prepared {
    /// The places of the kernel's objects.
    pub(crate) places: Places,
    /// The carried names, which wait.
    pub(crate) registry: Registry,
    /// The carried sessions, which wait.
    pub(crate) sessions: Vec<SessionObject>,
    /// The carried files.
    pub(crate) files: Vec<PlainFile>,
    /// The runs of the files.
    pub(crate) runs: Vec<(Pfn, Order)>,
    /// Room for the folios of all runs, and for the files.
    pub(crate) store: Store,
}

impl Prepared {
    /// Takes the memory. `Err`: out of memory, and then nothing of it is kept.
    pub(crate) fn make(alloc: Global, carried: &[CarriedSession]) -> Result<Prepared, NoMemory>
        requires wait { CanWait carried.now }
        requires distinct { IsDistinct same_bytes (map (λ s. s.name) carried.now) }
        ensures { IfOk result (IsPrepared carried.now) }
    {
        let Ok(names) = names_of(alloc, carried) else {
            return Err(NoMemory);
        };
        let Ok(files) = plain_files(alloc, carried) else {
            return Err(NoMemory);
        };
        let Ok(runs) = all_runs(alloc, carried) else {
            return Err(NoMemory);
        };
        let registry = Registry::waiting(alloc, &names, files.len() as u32)?;
        let sessions = waiting_sessions(alloc, carried)?;
        let store = Store::make(alloc, runs.len(), files.len())?;
        match Places::make(alloc) {
            Ok(places) => Ok(Prepared {
                places,
                registry,
                sessions,
                files,
                runs,
                store,
            }),
            Err(NoMemory) => {
                store.give_up();
                Err(NoMemory)
            }
        }
    }
}

impl Store {
    /// Room for so many folios and so many files.
    fn make(alloc: Global, folios: usize, files: usize) -> Result<Store, NoMemory>
        ensures { IfOk result (HasRoomFor folios files) }
    {
        let Ok(folios) = Vec::with_capacity(alloc, folios) else {
            return Err(NoMemory);
        };
        match Vec::with_capacity(alloc, files) {
            Ok(files) => Ok(Store { folios, files }),
            Err(_) => {
                folios.destroy_empty();
                Err(NoMemory)
            }
        }
    }

    /// Gives the room back.
    pub(crate) fn give_up(self)
        requires folios { self.folios.items ≡ [] }
        requires files { self.files.items ≡ [] }
    {
        let Store { folios, files } = self;
        folios.destroy_empty();
        files.destroy_empty();
    }
}

/// The names of sessions. `Err`: out of memory.
fn names_of(alloc: Global, sessions: &[CarriedSession]) -> Result<Vec<Name>, AllocError>
    ensures { IfOk result (λ v. v.items ≡ map (λ s. s.name) sessions.now) }
{
    let mut names = Vec::new(alloc);
    for session in sessions {
        names.push(session.name)?;
    }
    Ok(names)
}
