//! The labels of one agent, and those of all agents.

ghost use Rattle.std.specs.Prelude.{◌≡◌, ◌+◌, ◌<◌, ◌≤◌, [], IfOk, IfSome, OnOk, filter, length, map, not, replicate, slice_index_or, slice_set};
ghost use Rattle.std.specs.FinMap as finmap;
ghost use Rattle.std.specs.Vec.{vec_len, vec_capacity};
ghost use Rattle.ho_events.specs.Lists.{same_bytes};
ghost use Rattle.machine_core.specs.LabelsShown.{agent_count};

use ho_base::limits::{AGENTS, FILES};
use ho_base::name::Name;
use ho_base::numbers::{AgentNo, FileNo, NoMemory};
use ho_events::by_name::find;
use std::alloc::Global;
use std::marker::Model;
use std::mem;

/// How many lists of labels a kernel has: one for each agent, and agent 0's.
const LISTS: u32 = 1 + AGENTS;

/// The labels of one agent with their files, each of which is a file number. Contracts see a map from the bytes of each
/// label to its file, and for how many more labels there is memory. Each call costs at most one pass over the labels.
#[derive(Drop)]
pub struct Labels {
    bound: Vec<(Name, FileNo)>,
}

impl Model for Labels {
    ghost use Rattle.std.specs.Coded.{codes};
    ghost use Rattle.std.specs.FinMap as finmap;
    ghost use Rattle.std.specs.Prelude.{◌-◌};
    ghost use Rattle.std.specs.Vec.{vec_len, vec_capacity};
    ghost use Rattle.machine_core.specs.LabelsShown.{LabelsValue, labels_of, AreFiles};

    ghost Value = { LabelsValue };

    ghost coded = { Prim.hlevel (codes, finmap.code) };

    ghost view = { λ l. record { bound = labels_of l.bound.items; room = vec_capacity l.bound - vec_len l.bound } };

    ghost invariant = { λ l. AreFiles l.bound.items };
}

impl Labels {
    /// No labels. It takes no memory.
    #[tactic(auto, using(crate::proofs::LabelMaps::none_bound))]
    pub fn new(alloc: Global) -> Labels
        ensures { result.bound ≡ finmap.empty }
    {
        Labels {
            bound: Vec::new(alloc),
        }
    }

    /// Takes memory for one more label. Whatever comes, the labels stay as they are.
    pub fn reserve(&mut self) -> Result<(), NoMemory>
        ensures room { OnOk result (1 ≤ self.new.room) }
        ensures bound { self.new.bound ≡ self.old.bound }
    {
        match self.bound.reserve(1) {
            Ok(()) => Ok(()),
            Err(_) => Err(NoMemory),
        }
    }

    /// The file to which a label is bound; none exactly where it isn't bound.
    #[tactic(auto, using(crate::proofs::LabelMaps::file_bound))]
    pub fn file(&self, label: Name) -> Option<FileNo>
        ensures found { result ≡ finmap.get self.now.bound label }
        ensures within { IfSome result (λ f. f.0 < FILES) }
    {
        find(self.bound.as_slice(), label)
    }

    /// Binds a label to a file; a file to which it was bound before loses it. It takes no memory.
    pub fn bind(&mut self, label: Name, file: FileNo)
        requires room { 0 < self.old.room }
        requires file { file.0 < FILES }
        ensures bound { self.new.bound ≡ finmap.insert self.old.bound label file }
        ensures room { self.old.room ≤ self.new.room + 1 }
    {
        leave_out(&mut self.bound, label);
        self.bound.push_reserved((label, file));
    }

    /// Takes a label away, where it is bound. It takes no memory.
    pub fn unbind(&mut self, label: Name)
        ensures bound { self.new.bound ≡ finmap.remove self.old.bound label }
        ensures room { self.old.room ≤ self.new.room }
    {
        leave_out(&mut self.bound, label);
    }
}

/// Leaves a label out; the others stay in order.
fn leave_out(pairs: &mut Vec<(Name, FileNo)>, label: Name)
    ensures items { pairs.new.items ≡ filter (λ e. not (same_bytes e.0 label)) pairs.old.items }
    ensures capacity { vec_capacity pairs.new ≡ vec_capacity pairs.old }
    ensures len { vec_len pairs.new ≤ vec_len pairs.old }
{
    pairs.retain(|e| e.0 != label);
}

/// The labels of all agents. Contracts see them by agent number.
#[derive(Drop)]
pub struct AgentLabels {
    lists: Vec<Labels>,
}

impl Model for AgentLabels {
    ghost use Rattle.std.specs.Prelude.{List, map};
    ghost use Rattle.std.specs.Coded.{codes};
    ghost use Rattle.std.specs.FinMap as finmap;
    ghost use Rattle.ho_world.specs.Sequences as sequences;
    ghost use Rattle.machine_core.specs.LabelsShown.{bound_in};

    ghost Value = { List sequences.Labels };

    ghost coded = { Prim.hlevel (codes, finmap.code) };

    ghost view = { λ l. map bound_in l.lists.items };
}

impl AgentLabels {
    /// No agent has labels, and none can be given any. It takes no memory.
    pub(crate) fn empty(alloc: Global) -> AgentLabels
        ensures { result ≡ [] }
    {
        AgentLabels {
            lists: Vec::new(alloc),
        }
    }

    /// No agent has labels yet. It takes memory for a list of them for each; no memory where it can't be had.
    #[tactic(auto, using(crate::proofs::LabelLists::bound_push, crate::proofs::LabelLists::none_more))]
    pub fn none(alloc: Global) -> Result<AgentLabels, NoMemory>
        ensures { IfOk result (λ l. l ≡ replicate agent_count finmap.empty) }
    {
        let mut lists = Vec::new(alloc);
        if lists.reserve(LISTS as usize).is_err() {
            return Err(NoMemory);
        }
        for _agent in 0..LISTS {
            lists.push(Labels::new(alloc)).unwrap();
        }
        Ok(AgentLabels { lists })
    }

    /// Takes the labels of an agent out; it has none then.
    #[tactic(auto, using(crate::proofs::LabelLists::bound_at, crate::proofs::LabelLists::bound_set, crate::proofs::LabelLists::same_count))]
    pub fn take(&mut self, alloc: Global, agent: AgentNo) -> Labels
        requires agent { agent.0 < length self.old }
        ensures labels { result.bound ≡ slice_index_or self.old agent.0 finmap.empty }
        ensures others { self.new ≡ slice_set self.old agent.0 finmap.empty }
    {
        mem::replace(&mut self.lists[agent.0 as usize], Labels::new(alloc))
    }

    /// Puts the labels of an agent in, in place of what it had.
    #[tactic(auto, using(crate::proofs::LabelLists::bound_set, crate::proofs::LabelLists::same_count))]
    pub fn put(&mut self, agent: AgentNo, labels: Labels)
        requires agent { agent.0 < length self.old }
        ensures { self.new ≡ slice_set self.old agent.0 labels.bound }
    {
        self.lists[agent.0 as usize] = labels;
    }
}
