//! The memory that a kernel's objects and labels take.

use crate::labels::AgentLabels;
use crate::object::Object;
use ho_base::limits::{FILES, IN_SLOTS, OUT_SLOTS};
use ho_base::numbers::NoMemory;
use std::alloc::Global;
use std::marker::Model;

/// How many places a kernel has for objects: the pool's, the registry's, the four handlers', the session slots' and
/// the files'.
const PLACES: u32 = 6 + OUT_SLOTS + IN_SLOTS + FILES;

/// The memory that a kernel needs to begin: a place for each object, none of which is there yet, and a list of labels for
/// each agent, none of which has a label.
pub struct Places {
    pub(crate) objects: Vec<Option<Object>>,
    pub(crate) labels: AgentLabels,
}

impl Model for Places {
    ghost use Rattle.std.specs.Vec.{vec_capacity};
    ghost use Rattle.machine_core.specs.Building.{HavePlaces};

    ghost Value = { Unit {0} };

    ghost view = { λ p. tt };

    ghost invariant = { λ p. HavePlaces p.objects.items (vec_capacity p.objects) p.labels };
}

impl Places {
    /// Takes the memory; no memory where it can't be had, and then nothing of it is kept.
    pub fn make(alloc: Global) -> Result<Places, NoMemory> {
        let Ok(labels) = AgentLabels::none(alloc) else {
            return Err(NoMemory);
        };
        let mut objects = Vec::new(alloc);
        if objects.reserve(PLACES as usize).is_err() {
            objects.destroy_empty();
            return Err(NoMemory);
        }
        Ok(Places { objects, labels })
    }

    /// Gives the memory back.
    pub fn give_up(self) {
        let Places { objects, labels: _ } = self;
        objects.destroy_empty();
    }
}
