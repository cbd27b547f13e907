//! A reach without threads: one agent works on the kernel's objects by itself.

ghost use Rattle.std.specs.Prelude.{◌≡◌, ℕ, List, [], map, max, nat_le, IsTrue, Some, None};
ghost use Rattle.std.specs.List.{list_all};
ghost use Rattle.ho_events.specs.History.{last_stamp};
ghost use Rattle.ho_events.specs.declared.entry.Entry.{Entry};
ghost use Rattle.ho_world.specs.Logs.{grown, paired_on};
ghost use Rattle.machine_core.specs.Agents.{begun, no_hands, CanEnd, HasEnded};
ghost use Rattle.machine_core.specs.Kernels.{starts_in, histories_in, IsRunAt};
ghost use Rattle.machine_core.specs.Plain.{agent_of, anchor_of};

use crate::kernel::Kernel;
use crate::labels::AgentLabels;
use crate::object::Object;
use crate::places::{put_back, take_out};
use crate::reach::Reach;
use ho_base::numbers::{AgentNo, NoMemory, ObjectNo};
use ho_base::shape::Shape;
use ho_events::chronicle::last_stamp_of;
use ho_events::entry::Entry;
use phys_frames::Home;
use std::alloc::Global;
use std::marker::Model;
use std::snapshot::Snapshot;

/// One agent at work on a kernel's objects, with the entries of its turns. Contracts see the kernel as the work began,
/// the objects now, and the entries since then.
pub struct PlainReach {
    agent: AgentNo,
    number: u8,
    updates: u32,
    shape: Snapshot<Shape>,
    home: Home,
    /// The objects as the work began.
    opening: Snapshot<Vec<Option<Object>>>,
    labels: AgentLabels,
    base: u64,
    /// The objects by number; none where an object is in hand, and at the numbers of handlers.
    objects: Vec<Option<Object>>,
    log: Vec<Entry>,
    /// The object that was given back last without an entry.
    back: Option<(ObjectNo, Snapshot<Object>)>,
}

impl Model for PlainReach {
    ghost use Rattle.std.specs.Prelude.{◌-◌};
    ghost use Rattle.std.specs.Vec.{vec_len, vec_capacity};
    ghost use Rattle.std.specs.Coded.{codes};
    ghost use Rattle.std.specs.FinMap as finmap;
    ghost use Rattle.machine_core.specs.contracts.object.Object as object;
    ghost use Rattle.machine_core.specs.Kernels.{KeepsKernel};
    ghost use Rattle.machine_core.specs.Plain.{PlainValue, KeepsWork, back_in};

    ghost Value = { PlainValue };

    ghost coded = { Prim.hlevel (codes, finmap.code, object.the_row.coded) };

    ghost view = { λ r. record { agent = r.agent.0; kernel = record { number = r.number; updates = r.updates; shape = r.shape.value; home = r.home; objects = r.opening.value.items; labels = r.labels; base = r.base }; objects = r.objects.items; log = r.log.items; back = back_in r.back; room = vec_capacity r.log - vec_len r.log } };

    ghost invariant = { λ r. KeepsKernel r.shape.value r.home r.base r.opening.value.items × KeepsWork r.shape.value r.home r.opening.value.items r.objects.items r.log.items };
}

impl Reach for PlainReach {
    ghost shown = { agent_of };

    fn begin(&mut self, object: ObjectNo) -> Object {
        take_out(&mut self.objects, object)
    }

    fn end(&mut self, object: ObjectNo, state: Object, entry: Option<Entry>) {
        match entry {
            Some(entry) => self.enter(object, state, entry),
            None => self.give(object, state),
        }
    }

    fn room(&mut self, entries: u32) -> Result<(), NoMemory> {
        match self.log.reserve(entries as usize) {
            Ok(()) => Ok(()),
            Err(_) => Err(NoMemory),
        }
    }

    fn own(&mut self, entry: Entry) {
        self.log.push_reserved(entry);
    }
}

impl PlainReach {
    /// An agent that begins its work on a kernel, with nothing in hand and no entry. None of its earlier entries is
    /// stamped later than the kernel's greatest stamp. It takes no memory.
    pub fn new(alloc: Global, kernel: Kernel, agent: AgentNo) -> PlainReach
        ensures agent { result.agent ≡ agent.0 }
        ensures kernel { result.kernel ≡ kernel }
        ensures log { (agent_of result).log ≡ [] }
        ensures hands { (agent_of result).hands ≡ no_hands }
        ensures told { (agent_of result).told ≡ Some (histories_in kernel.objects) }
        ensures earlier { IsTrue (list_all (λ p. nat_le p.entry.stamp kernel.base) (agent_of result).earlier) }
    {
        let Kernel {
            number,
            updates,
            shape,
            home,
            objects,
            labels,
            base,
        } = kernel;
        PlainReach {
            agent,
            number,
            updates,
            shape,
            home,
            opening: Snapshot::of(&objects),
            labels,
            base,
            objects,
            log: Vec::new(alloc),
            back: None,
        }
    }

    /// The kernel after the work of an agent that has nothing in hand, and the entries of that work. Each object began
    /// as before, and its history is what it was with the entries on it. The labels of the agents are as they were when
    /// the work began, so a round takes them out before.
    pub fn log(self) -> (Kernel, Vec<Entry>)
        requires free { (agent_of self).hands ≡ no_hands }
        ensures anchor { anchor_of result.0 ≡ record (agent_of self).anchor { base = max (agent_of self).anchor.base (last_stamp result.1.items) } }
        ensures labels { result.0.labels ≡ self.kernel.labels }
        ensures updates { result.0.updates ≡ self.kernel.updates }
        ensures starts { starts_in result.0.objects ≡ (agent_of self).starts }
        ensures histories { histories_in result.0.objects ≡ grown (histories_in self.kernel.objects) result.1.items }
        ensures told { Some (histories_in result.0.objects) ≡ (agent_of self).told }
        ensures runs { (n : ℕ) → IsRunAt (starts_in result.0.objects n) (histories_in result.0.objects n) }
        ensures entries { map (λ p. p.entry) (agent_of self).log ≡ result.1.items }
        ensures log { (f : ℕ → List Entry) → grown f result.1.items ≡ histories_in result.0.objects → paired_on (begun (agent_of self)) f [] result.1.items ≡ (agent_of self).log }
    {
        let PlainReach {
            agent: _,
            number,
            updates,
            shape,
            home,
            opening: _,
            labels,
            base,
            objects,
            log,
            back: _,
        } = self;
        let base = base.max(last_stamp_of(log.as_slice()));
        let kernel = Kernel {
            number,
            updates,
            shape,
            home,
            objects,
            labels,
            base,
        };
        (kernel, log)
    }

    /// Puts an object back with an entry.
    fn enter(&mut self, object: ObjectNo, state: Object, entry: Entry)
        requires { CanEnd (agent_of self.old) object.0 state (Some entry) ((agent_of self.old).hands object.0) }
        ensures { HasEnded (agent_of self.old) object.0 (Some entry) ((agent_of self.old).hands object.0) (agent_of self.new) }
    {
        put_back(&mut self.objects, object, state);
        self.log.push_reserved(entry);
    }

    /// Puts an object back as it was.
    fn give(&mut self, object: ObjectNo, state: Object)
        requires { CanEnd (agent_of self.old) object.0 state None ((agent_of self.old).hands object.0) }
        ensures { HasEnded (agent_of self.old) object.0 None ((agent_of self.old).hands object.0) (agent_of self.new) }
    {
        self.back = Some((object, Snapshot::of(&state)));
        put_back(&mut self.objects, object, state);
    }
}
