//! Takes the lines of a script one after another.

mod so_far;

ghost use Rattle.std.specs.Prelude.{◌≡◌, ◌<◌, false, IfOk, OnOk, MatchResult, Ok, Err, None, IsTrue};
ghost use Rattle.std.specs.List.{list_all};
ghost use Rattle.ho_events.specs.Script.{after_line as after_rule, placed as placed_rule, finished, is_full as full_rule};
ghost use Rattle.ho_events.specs.Script.Words.{is_script_byte as script_byte};
ghost use Rattle.ho_events.specs.Script.SoFar.{nothing_read, closed as closed_rule, sections, place_of as place_rule, label_of as label_rule, is_bound_by as bound_rule, with_agent as with_agent_rule, with_command as command_rule};
ghost use Rattle.ho_events.specs.declared.line.Line.TheVariants.{Machine, Scratch, Fail as Plan, Round, Agent, Kexec as Boot, Command as Act};

use crate::commands::label_of;
use crate::labels::Labels;
use crate::lines::line_of;
use crate::words::{has_script_bytes, is_comment, next_word};
use ho_base::Items;
use ho_base::limits::{COMMANDS, FAILS, KEXECS, ROUNDS, SCRATCH_AREAS};
use ho_base::name::Name;
use ho_base::numbers::{AgentNo, Blob};
use ho_base::shape::{Area, Shape};
use ho_events::command::Command;
use ho_events::line::{Line, Reason};
use ho_events::script::{AgentWork, Block, Fail, Script};
use std::alloc::{AllocError, Global};
use std::marker::Model;
use std::mem;

/// The last section of the open round: an agent's commands, from a first number on.
#[derive(Drop)]
struct Section {
    agent: AgentNo,
    first: u32,
    commands: Vec<Command>,
}

/// What the lines so far have said.
#[derive(Drop)]
pub struct Reader {
    fresh: bool,
    frames: Option<u32>,
    shape: Option<Shape>,
    fails: Vec<Fail>,
    agents: Vec<Name>,
    /// The number of commands of each agent.
    counts: [u32; 15],
    /// The blocks before the open round.
    blocks: Vec<Block>,
    open_round: bool,
    /// The sections of the open round before its last one.
    works: Vec<AgentWork>,
    section: Option<Section>,
    rounds: u32,
    kexecs: u32,
    commands: u32,
    labels: Labels,
}

impl Model for Reader {
    ghost use Rattle.ho_events.specs.Script.SoFar.{Reading};
    ghost use Rattle.script_text.specs.Reader.{reading_of, Fits};

    ghost Value = { Reading };

    ghost view = { reading_of };

    ghost invariant = { Fits };
}

impl Reader {
    /// A reader that no line was given yet, of a fresh script or of one that resumes an image. It takes no
    /// memory.
    pub fn new(alloc: Global, fresh: bool) -> Reader
        ensures { result ≡ nothing_read fresh }
    {
        Reader {
            fresh,
            frames: None,
            shape: None,
            fails: Vec::new(alloc),
            agents: Vec::new(alloc),
            counts: [0; 15],
            blocks: Vec::new(alloc),
            open_round: false,
            works: Vec::new(alloc),
            section: None,
            rounds: 0,
            kexecs: 0,
            commands: 0,
            labels: Labels::new(alloc),
        }
    }

    /// Takes a line of these bytes, or says why the line is refused.
    ///
    /// Where it is known already that a script may have each of these bytes, it is `clean`. The one error is that
    /// memory could not be had.
    #[tactic(auto, unfolding(ho_events::specs::Script::after_line))]
    pub fn take_line(
        &mut self,
        alloc: Global,
        bytes: &[u8],
        clean: bool,
    ) -> Result<Result<(), Reason>, AllocError>
        requires { IsTrue clean → IsTrue (list_all script_byte bytes.now) }
        ensures { IfOk result (λ done. MatchResult done (λ _. after_rule self.old bytes.now ≡ Ok self.new) (λ why. after_rule self.old bytes.now ≡ Err why)) }
    {
        if !clean && !has_script_bytes(bytes) {
            return Ok(Err(Reason::Byte));
        }
        let Some((first, args)) = next_word(bytes) else {
            return Ok(Ok(()));
        };
        if is_comment(first) {
            return Ok(Ok(()));
        }
        match line_of(alloc, first, args)? {
            Ok(line) => self.place(alloc, line),
            Err(why) => Ok(Err(why)),
        }
    }

    /// The script that was read; [`Reason::End`] exactly where it is a fresh one and no scratch line stood.
    ///
    /// The one error is that memory could not be had.
    #[tactic(auto, unfolding(ho_events::specs::Script::finished))]
    pub fn into_script(mut self, alloc: Global) -> Result<Result<Script, Reason>, AllocError>
        ensures { IfOk result (λ script. script ≡ finished self) }
    {
        if self.lacks_head() {
            return Ok(Err(Reason::End));
        }
        self.close_round(alloc)?;
        let Reader {
            shape,
            fails,
            agents,
            blocks,
            ..
        } = self;
        Ok(Ok(Script {
            shape,
            fails: Items::from_vec(fails),
            agents: Items::from_vec(agents),
            blocks: Items::from_vec(blocks),
        }))
    }

    /// Takes a line, or says why it is refused where it stands. Most lines are commands; what takes another one isn't
    /// inlined, since a call sets the memory of all that is inlined into it to zeros first.
    fn place(&mut self, alloc: Global, line: Line) -> Result<Result<(), Reason>, AllocError>
        ensures { IfOk result (λ done. MatchResult done (λ _. placed_rule self.old line ≡ Ok self.new) (λ why. placed_rule self.old line ≡ Err why)) }
    {
        match line {
            Line::Command(command) => self.take_command(command),
            Line::Machine(frames) => Ok(self.take_machine(frames)),
            Line::Scratch(area) => self.take_scratch(alloc, area),
            Line::Fail(fail) => self.take_fail(fail),
            Line::Round => self.take_round(alloc),
            Line::Agent(name) => self.take_agent(alloc, name),
            Line::Kexec(blob) => self.take_kexec(alloc, blob),
        }
    }

    /// Takes a machine line, which comes first in a fresh script.
    #[inline(never)]
    #[tactic(auto, unfolding(ho_events::specs::Script::placed, ho_events::specs::Script::SoFar::with_line,))]
    fn take_machine(&mut self, frames: u32) -> Result<(), Reason>
        ensures { MatchResult result (λ _. placed_rule self.old (Machine frames) ≡ Ok self.new) (λ why. placed_rule self.old (Machine frames) ≡ Err why) }
    {
        if !self.fresh || self.frames.is_some() {
            return Err(Reason::Place);
        }
        self.frames = Some(frames);
        Ok(())
    }

    /// Takes a scratch line: one of 1 to 4 after the machine line, with which the areas so far
    /// are a machine's shape.
    #[inline(never)]
    #[tactic(auto, unfolding(ho_events::specs::Script::placed, ho_events::specs::Script::SoFar::with_line,))]
    fn take_scratch(&mut self, alloc: Global, area: Area) -> Result<Result<(), Reason>, AllocError>
        ensures { IfOk result (λ done. MatchResult done (λ _. placed_rule self.old (Scratch area) ≡ Ok self.new) (λ why. placed_rule self.old (Scratch area) ≡ Err why)) }
    {
        let Some(frames) = self.frames else {
            return Ok(Err(Reason::Place));
        };
        if !self.fails.is_empty() || self.has_block() {
            return Ok(Err(Reason::Place));
        }
        let mut areas = match &self.shape {
            Some(shape) => Vec::from_slice(alloc, shape.scratch())?,
            None => Vec::new(alloc),
        };
        if areas.len() >= SCRATCH_AREAS as usize {
            return Ok(Err(Reason::Place));
        }
        areas.push(area)?;
        match Shape::checked(frames, areas) {
            Ok(shape) => {
                self.shape = Some(shape);
                Ok(Ok(()))
            }
            Err(_) => Ok(Err(Reason::Shape)),
        }
    }

    /// Takes a planned failure, which stands before the blocks.
    #[inline(never)]
    #[tactic(auto, unfolding(ho_events::specs::Script::placed, ho_events::specs::Script::SoFar::with_line,))]
    fn take_fail(&mut self, fail: Fail) -> Result<Result<(), Reason>, AllocError>
        ensures { IfOk result (λ done. MatchResult done (λ _. placed_rule self.old (Plan fail) ≡ Ok self.new) (λ why. placed_rule self.old (Plan fail) ≡ Err why)) }
    {
        if self.lacks_head() || self.has_block() {
            return Ok(Err(Reason::Place));
        }
        if self.fails.len() >= FAILS as usize {
            return Ok(Err(Reason::Limit));
        }
        self.fails.push(fail)?;
        Ok(Ok(()))
    }

    /// Takes a round line.
    #[inline(never)]
    #[tactic(auto, unfolding(ho_events::specs::Script::placed, ho_events::specs::Script::SoFar::with_line,))]
    fn take_round(&mut self, alloc: Global) -> Result<Result<(), Reason>, AllocError>
        ensures { IfOk result (λ done. MatchResult done (λ _. placed_rule self.old Round ≡ Ok self.new) (λ why. placed_rule self.old Round ≡ Err why)) }
    {
        if self.lacks_head() {
            return Ok(Err(Reason::Place));
        }
        if self.rounds >= ROUNDS {
            return Ok(Err(Reason::Limit));
        }
        self.close_round(alloc)?;
        self.open_round = true;
        self.rounds += 1;
        Ok(Ok(()))
    }

    /// Takes a kexec line.
    #[inline(never)]
    #[tactic(auto, unfolding(ho_events::specs::Script::placed, ho_events::specs::Script::SoFar::with_line,))]
    fn take_kexec(&mut self, alloc: Global, blob: Blob) -> Result<Result<(), Reason>, AllocError>
        ensures { IfOk result (λ done. MatchResult done (λ _. placed_rule self.old (Boot blob) ≡ Ok self.new) (λ why. placed_rule self.old (Boot blob) ≡ Err why)) }
    {
        if self.lacks_head() {
            return Ok(Err(Reason::Place));
        }
        if self.kexecs >= KEXECS {
            return Ok(Err(Reason::Limit));
        }
        self.close_round(alloc)?;
        self.blocks.push(Block::Kexec(blob))?;
        self.kexecs += 1;
        Ok(Ok(()))
    }

    /// Takes an agent line, which stands in a round that has no section of this agent.
    #[inline(never)]
    #[tactic(auto, unfolding(ho_events::specs::Script::placed, ho_events::specs::Script::SoFar::with_line,))]
    fn take_agent(&mut self, alloc: Global, name: Name) -> Result<Result<(), Reason>, AllocError>
        ensures { IfOk result (λ done. MatchResult done (λ _. placed_rule self.old (Agent name) ≡ Ok self.new) (λ why. placed_rule self.old (Agent name) ≡ Err why)) }
    {
        let place = self.place_of(name);
        if !self.open_round || self.has_section(place) {
            return Ok(Err(Reason::Place));
        }
        if self.is_full(place) {
            return Ok(Err(Reason::Limit));
        }
        if self.has_any_section() {
            return Ok(Err(Reason::Later));
        }
        self.end_section()?;
        self.begin_section(alloc, name, place)?;
        Ok(Ok(()))
    }

    /// Begins an agent's section, at this place among the agents or as a new one.
    fn begin_section(
        &mut self,
        alloc: Global,
        name: Name,
        place: Option<usize>,
    ) -> Result<(), AllocError>
        requires known { place ≡ place_rule self.old.agents name }
        requires room { full_rule place self.old.agents ≡ false }
        ensures { OnOk result (self.new ≡ with_agent_rule self.old name) }
    {
        let at = match place {
            Some(i) => i,
            None => {
                self.agents.push(name)?;
                self.agents.len() - 1
            }
        };
        self.section = Some(Section {
            agent: AgentNo((at + 1) as u8),
            first: self.counts[at] + 1,
            commands: Vec::new(alloc),
        });
        Ok(())
    }

    /// Takes a command, which stands in an agent's section.
    #[tactic(auto, unfolding(ho_events::specs::Script::placed, ho_events::specs::Script::SoFar::with_line,))]
    fn take_command(&mut self, command: Command) -> Result<Result<(), Reason>, AllocError>
        ensures { IfOk result (λ done. MatchResult done (λ _. placed_rule self.old (Act command) ≡ Ok self.new) (λ why. placed_rule self.old (Act command) ≡ Err why)) }
    {
        let agent = match &self.section {
            Some(section) => section.agent.0,
            None => return Ok(Err(Reason::Place)),
        };
        if self.labels.has(agent, label_of(&command)) {
            return Ok(Err(Reason::Label));
        }
        if self.commands >= COMMANDS {
            return Ok(Err(Reason::Limit));
        }
        self.add_command(command)?;
        Ok(Ok(()))
    }

    /// Puts a command into the last section.
    fn add_command(&mut self, command: Command) -> Result<(), AllocError>
        requires room { self.old.commands < COMMANDS }
        requires first { bound_rule self.old.labels self.old.section (label_rule command) ≡ false }
        ensures { OnOk result (self.new ≡ command_rule self.old self.old.section command) }
    {
        let Some(section) = self.section.take() else {
            return Ok(());
        };
        let Section {
            agent,
            first,
            mut commands,
        } = section;
        self.labels.add(agent.0, label_of(&command))?;
        commands.push(command)?;
        self.section = Some(Section {
            agent,
            first,
            commands,
        });
        self.counts[usize::from(agent.0) - 1] += 1;
        self.commands += 1;
        Ok(())
    }

    /// Ends the open round, if there is one.
    fn close_round(&mut self, alloc: Global) -> Result<(), AllocError>
        ensures { OnOk result (self.new ≡ closed_rule self.old) }
    {
        self.end_section()?;
        let works = mem::replace(&mut self.works, Vec::new(alloc));
        if self.open_round {
            self.blocks.push(Block::Round(Items::from_vec(works)))?;
        }
        self.open_round = false;
        Ok(())
    }

    /// Ends the last section of the open round, if there is one.
    fn end_section(&mut self) -> Result<(), AllocError>
        ensures { OnOk result (self.new ≡ record self.old { works = sections self.old; section = None }) }
    {
        if let Some(section) = self.section.take() {
            let Section {
                agent,
                first,
                commands,
            } = section;
            self.works.push(AgentWork {
                agent,
                first,
                commands: Items::from_vec(commands),
            })?;
        }
        Ok(())
    }
}
