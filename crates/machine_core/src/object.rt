//! An object of a kernel.

ghost use Rattle.std.specs.Prelude.{◌≡◌, ◌≤◌, OnOk};
ghost use Rattle.ho_base.specs.ShapeRule.{Layout};
ghost use Rattle.phys_frames.specs.Homes.{HomeId};
ghost use Rattle.ho_events.specs.History.{last_stamp};
ghost use Rattle.machine_core.specs.Objects.{start_of, history_of, number_of, room_of, spot_of, IsOfMachine, IsRunOf, HasTokenRoom};

use ho_base::numbers::NoMemory;
use ho_events::chronicle::Recorded;
use ho_events::entry::Entry;
use memfd_file::FileObject;
use pool_core::Pool;
use registry_core::Registry;
use session_core::SessionObject;

/// One of a kernel's objects.
pub enum Object {
    Pool(Pool),
    Registry(Registry),
    Session(SessionObject),
    File(FileObject),
}

impl Object {
    /// Takes memory for as many more entries, and in a session slot for a token an entry. Whatever comes, the object
    /// stays as it is.
    pub fn reserve(&mut self, entries: u32) -> Result<(), NoMemory>
        ensures room { OnOk result (entries ≤ room_of self.new) }
        ensures tokens { OnOk result (HasTokenRoom entries self.new) }
        ensures start { start_of self.new ≡ start_of self.old }
        ensures history { history_of self.new ≡ history_of self.old }
        ensures kind { spot_of self.new ≡ spot_of self.old }
        ensures number { number_of self.new ≡ number_of self.old }
        ensures machine { (shape : Layout) (home : HomeId) → IsOfMachine shape home self.old → IsOfMachine shape home self.new }
    {
        match self {
            Object::Pool(pool) => pool.reserve(entries),
            Object::Registry(registry) => registry.reserve(entries),
            Object::Session(session) => session.reserve(entries, entries),
            Object::File(file) => file.reserve(entries, 0),
        }
    }

    /// The stamp of the last entry, and 0 where there is none.
    pub fn last_stamp(&self) -> u64
        ensures { result ≡ last_stamp (history_of self.now) }
    {
        match self {
            Object::Pool(pool) => pool.last_stamp(),
            Object::Registry(registry) => registry.last_stamp(),
            Object::Session(session) => session.last_stamp(),
            Object::File(file) => file.last_stamp(),
        }
    }

    /// The entries of all turns on the object: they are a run of its steps.
    #[tactic(auto, using(crate::proofs::Objects::pool_run, crate::proofs::Objects::registry_run, crate::proofs::Objects::session_run, crate::proofs::Objects::file_run))]
    pub fn entries(&self) -> &[Entry]
        ensures value { result.now ≡ history_of self.now }
        ensures run { IsRunOf self.now }
    {
        match self {
            Object::Pool(pool) => pool.entries(),
            Object::Registry(registry) => registry.entries(),
            Object::Session(session) => session.entries(),
            Object::File(file) => file.entries(),
        }
    }
}
