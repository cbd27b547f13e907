//! What the lines so far say, as far as the next line depends on it.

ghost use Rattle.std.specs.Prelude.{◌≡◌, ◌+◌, ◌==◌};
ghost use Rattle.std.specs.List.{list_any};
ghost use Rattle.ho_events.specs.Script.{lacks_head as lacks_rule, has_block as block_rule, has_section as section_rule, is_section_of, is_full as full_rule};
ghost use Rattle.ho_events.specs.Script.SoFar.{place_of as place_rule};
ghost use Rattle.ho_events.specs.Script.Unbuilt.{has_any_section as any_rule};

use crate::reader::Reader;
use ho_base::limits::AGENTS;
use ho_base::name::Name;
use ho_base::numbers::AgentNo;
use ho_events::script::AgentWork;

impl Reader {
    /// Whether a fresh script has no scratch line yet.
    pub fn lacks_head(&self) -> bool
        ensures { result ≡ lacks_rule self.now }
    {
        self.fresh && self.shape.is_none()
    }

    /// Whether a block stood.
    pub fn has_block(&self) -> bool
        ensures { result ≡ block_rule self.now }
    {
        self.rounds > 0 || self.kexecs > 0
    }

    /// The place of an agent of this name among those that were named; none exactly for a new one.
    pub fn place_of(&self, name: Name) -> Option<usize>
        ensures { result ≡ place_rule self.now.agents name }
    {
        self.agents.iter().position(|other| name == *other)
    }

    /// Whether an agent at no place, a new one, is one too many.
    pub fn is_full(&self, place: Option<usize>) -> bool
        ensures { result ≡ full_rule place self.now.agents }
    {
        place.is_none() && self.agents.len() >= AGENTS as usize
    }

    /// Whether the open round has a section of the agent at this place.
    pub fn has_section(&self, place: Option<usize>) -> bool
        ensures { result ≡ section_rule self.now place }
    {
        let Some(place) = place else {
            return false;
        };
        if has_work(self.works.as_slice(), place) {
            return true;
        }
        match &self.section {
            Some(section) => is_at(section.agent, place),
            None => false,
        }
    }

    /// Whether the open round has a section.
    pub fn has_any_section(&self) -> bool
        ensures { result ≡ any_rule self.now }
    {
        self.section.is_some()
    }
}

/// Whether one of some sections is that of the agent at this place.
fn has_work(works: &[AgentWork], place: usize) -> bool
    ensures { result ≡ list_any (is_section_of (place + 1)) works.now }
{
    works.iter().any(|work| is_at(work.agent, place))
}

/// Whether this is the number of the agent at this place, which is one more.
fn is_at(agent: AgentNo, place: usize) -> bool
    ensures { result ≡ (agent.0 == place + 1) }
{
    agent.0 > 0 && usize::from(agent.0) - 1 == place
}
