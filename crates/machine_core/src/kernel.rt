//! A kernel at rest.

ghost use Rattle.std.specs.Prelude.{◌≡◌, ◌≤◌, ℕ, [], IfErr, IfOk, length, map, option_map, replicate};
ghost use Rattle.std.specs.FinMap as finmap;
ghost use Rattle.phys_frames.specs.Memory.{AllHome, AreOf};
ghost use Rattle.machine_core.specs.LabelsShown.{agent_count};
ghost use Rattle.ho_base.specs.declared.limits.TheConstants.{FILES, IN_SLOTS, OUT_SLOTS};
ghost use Rattle.machine_core.specs.Kernels.{begins_with, begun_in, cold_begun, histories_in, object_at, AreHeld, AreUpTo, AreWaiting};

use crate::building::{Plan, build};
use crate::cold::cold_pool;
use crate::labels::AgentLabels;
use crate::memory::Places;
use crate::object::Object;
use crate::places::{put_back, take_out};
use crate::scrap::give_all;
use ho_base::numbers::{NoMemory, ObjectNo};
use ho_base::shape::Shape;
use memfd_file::FileObject;
use phys_frames::{Folio, Frames, Home};
use pool_core::Pool;
use registry_core::Registry;
use session_core::SessionObject;
use std::alloc::Global;
use std::marker::Model;
use std::mem;
use std::snapshot::Snapshot;

/// A kernel between two blocks of its script, when no agent works. Contracts see its number, its update number, its
/// machine's shape and the home of the machine's frames, its objects by number, the labels of its agents, and the
/// greatest stamp so far.
pub struct Kernel {
    pub(crate) number: u8,
    /// How many kexecs the machine has come through, as the frames say that it was booted from; 0 where it is cold.
    pub(crate) updates: u32,
    pub(crate) shape: Snapshot<Shape>,
    pub(crate) home: Home,
    /// The objects by number; none at the numbers of handlers, which no object has yet.
    pub(crate) objects: Vec<Option<Object>>,
    pub(crate) labels: AgentLabels,
    /// The greatest stamp so far, and 0 where there is no entry.
    pub(crate) base: u64,
}

impl Model for Kernel {
    ghost use Rattle.std.specs.Coded.{codes};
    ghost use Rattle.std.specs.FinMap as finmap;
    ghost use Rattle.machine_core.specs.contracts.object.Object as object;
    ghost use Rattle.machine_core.specs.Kernels.{KernelValue, KeepsKernel};

    ghost Value = { KernelValue };

    ghost coded = { Prim.hlevel (codes, finmap.code, object.the_row.coded) };

    ghost view = { λ k. record { number = k.number; updates = k.updates; shape = k.shape.value; home = k.home; objects = k.objects.items; labels = k.labels; base = k.base } };

    ghost invariant = { λ k. KeepsKernel k.shape.value k.home k.base k.objects.items };
}

impl Kernel {
    /// The first kernel of a machine of this shape, kernel 0, with frames of zeros that are all free: each object is as
    /// a machine has it that is switched on, no agent has a label, and there is no entry. It takes memory for the
    /// frames, the places of the objects and the lists of labels; no memory where it can't be had, and then nothing of
    /// it is kept.
    pub fn cold(alloc: Global, shape: Shape) -> Result<Kernel, NoMemory>
        ensures number { IfOk result (λ k. k.number ≡ 0) }
        ensures shape { IfOk result (λ k. k.shape ≡ shape) }
        ensures begun { IfOk result (λ k. begun_in k.objects ≡ cold_begun shape) }
        ensures histories { IfOk result (λ k. (n : ℕ) → histories_in k.objects n ≡ []) }
        ensures labels { IfOk result (λ k. k.labels ≡ replicate agent_count finmap.empty) }
        ensures base { IfOk result (λ k. k.base ≡ 0) }
        ensures updates { IfOk result (λ k. k.updates ≡ 0) }
    {
        let Ok(registry) = Registry::empty(alloc) else {
            return Err(NoMemory);
        };
        let Ok(places) = Places::make(alloc) else {
            return Err(NoMemory);
        };
        match cold_pool(alloc, shape) {
            Err(NoMemory) => {
                places.give_up();
                Err(NoMemory)
            }
            Ok(pool) => Ok(Kernel::begin(
                alloc,
                places,
                0,
                0,
                pool,
                registry,
                Vec::new(alloc),
                Vec::new(alloc),
            )),
        }
    }

    /// A kernel that begins with this pool, this registry, these sessions in the incoming slots, in order, and these
    /// files with the first file numbers: every other slot is free and every other file absent, no agent has a label, and
    /// there is no entry. It takes no memory: `places` has it.
    #[tactic(auto, using(crate::proofs::Built::pool_place))]
    pub fn begin(
        alloc: Global,
        places: Places,
        number: u8,
        updates: u32,
        pool: Pool,
        registry: Registry,
        sessions: Vec<SessionObject>,
        files: Vec<FileObject>,
    ) -> Kernel
        requires pool { pool.history ≡ [] }
        requires registry { registry.history ≡ [] }
        requires session_count { length sessions.items ≤ IN_SLOTS }
        requires sessions { AreWaiting OUT_SLOTS sessions.items }
        requires file_count { length files.items ≤ FILES }
        requires files { AreHeld pool.home 0 files.items }
        ensures number { result.number ≡ number }
        ensures updates { result.updates ≡ updates }
        ensures shape { result.shape ≡ pool.shape }
        ensures home { result.home ≡ pool.home }
        ensures begun { begun_in result.objects ≡ begins_with pool.start registry.start (map (λ s. s.start) sessions.items) (map (λ f. f.start) files.items) }
        ensures histories { (n : ℕ) → histories_in result.objects n ≡ [] }
        ensures labels { result.labels ≡ replicate agent_count finmap.empty }
        ensures base { result.base ≡ 0 }
    {
        let Places {
            mut objects,
            labels,
        } = places;
        let plan = Plan {
            pool: Snapshot::of(&pool),
            registry: Snapshot::of(&registry),
            sessions: Snapshot::of(&sessions),
            files: Snapshot::of(&files),
        };
        build(alloc, &plan, &pool, registry, sessions, files, &mut objects);
        let shape = Snapshot::of(pool.shape());
        let home = pool.home();
        put_back(&mut objects, ObjectNo::POOL, Object::Pool(pool));
        Kernel {
            number,
            updates,
            shape,
            home,
            objects,
            labels,
            base: 0,
        }
    }

    /// The object at a number; none at the number of a handler, and past the last file's.
    pub fn object(&self, at: ObjectNo) -> Option<&Object>
        ensures object { option_map (λ o. o.now) result ≡ object_at self.now.objects at.0 }
    {
        match self.objects.get(at.0 as usize) {
            Some(Some(object)) => Some(object),
            _ => None,
        }
    }

    /// The kernel's number.
    pub fn number(&self) -> u8
        ensures { result ≡ self.now.number }
    {
        self.number
    }

    /// The kernel's update number: 0 where the machine was switched on, and else what the records said from which the
    /// kernel was booted.
    pub fn updates(&self) -> u32
        ensures { result ≡ self.now.updates }
    {
        self.updates
    }

    /// The greatest stamp so far: no stamp in an object's history is greater.
    pub fn base(&self) -> u64
        ensures value { result ≡ self.now.base }
        ensures greatest { (n : ℕ) → AreUpTo result (histories_in self.now.objects n) }
    {
        self.base
    }

    /// Takes the labels of all agents out, for the time of a round; the kernel has none until then. It takes no memory.
    pub fn take_labels(&mut self, alloc: Global) -> AgentLabels
        ensures labels { result ≡ self.old.labels }
        ensures kernel { self.new ≡ record self.old { labels = [] } }
    {
        mem::replace(&mut self.labels, AgentLabels::empty(alloc))
    }

    /// Puts the labels of all agents in.
    pub fn put_labels(&mut self, labels: AgentLabels)
        ensures { self.new ≡ record self.old { labels = labels } }
    {
        self.labels = labels;
    }

    /// Gives the memory of all objects back, with that of folios which no object had, and, where every frame came
    /// home, that of the frames. Where one is missing, the frames come back: their memory stays until that folio
    /// comes.
    pub fn give_up(self, folios: Vec<Folio>) -> Result<(), Frames>
        requires { AreOf self.home folios.items }
        ensures missing { IfErr result (λ f. ¬ (AllHome f)) }
        ensures home { IfErr result (λ f. f.home ≡ self.home) }
    {
        let Kernel {
            number: _,
            updates: _,
            shape: _,
            home: _,
            mut objects,
            labels: _,
            base: _,
        } = self;
        match take_out(&mut objects, ObjectNo::POOL) {
            Object::Pool(pool) => give_all(pool, objects, folios),
            _ => unreachable!(),
        }
    }
}
