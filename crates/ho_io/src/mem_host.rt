//! A host in memory, whose failures are planned.

ghost use Rattle.std.specs.Prelude.{◌≡◌, ◌+◌, ◌-◌, ◌<◌, ◌≤◌, ◌==◌, ◌&&◌, ◌∷◌, ◌++◌, ℕ, [], Some, None, length, map, filter, take, option_map, IfOk, IfSome, OnErr, OnOk, IsErr, IsNone, IsTrue, nat_lt, is_ok, is_some, string_bytes, if◌then◌else◌};
ghost use Rattle.std.specs.List.{list_any};
ghost use Rattle.ho_io.specs.Told.{Rose, behind, told_with, with_item, with_sink, IsOneOf, raised};
ghost use Rattle.ho_io.specs.Memory.{held_by, host_fails_next, plan_of_next, named, asking};

use crate::host::{Host, Way};
use crate::memory::{MemSink, MemSource};
use ho_base::numbers::Failed;
use std::alloc::{AllocError, Global};
use std::marker::Model;

/// A host in memory. It holds bytes by name, and keeps its output, what was made and what was asked. The calls that are
/// to fail are planned. Contracts see all of this, and the counts.
#[derive(Debug, Drop)]
pub struct MemHost {
    holds: Vec<(String, Vec<u8>)>,
    fails: Vec<(u32, u64)>,
    out: Vec<u8>,
    made: Vec<(String, Vec<u8>)>,
    asked: Vec<(Way, String)>,
    calls: u64,
    given: u64,
    sinks_out: usize,
    read_faults: u64,
    write_faults: u64,
}

impl Model for MemHost {
    ghost use Rattle.std.specs.Prelude.{◌+◌, ◌≤◌, map, vec_len, vec_capacity};
    ghost use Rattle.ho_io.specs.Memory.{HostState, named, asking};

    ghost Value = { HostState };

    ghost view = { λ h. record {
      held = map named h.holds.items;
      fails = h.fails.items;
      out = h.out.items;
      made = map named h.made.items;
      asked = map asking h.asked.items;
      calls = h.calls;
      given = h.given;
      sinks_out = h.sinks_out;
      read_faults = h.read_faults;
      write_faults = h.write_faults;
    } };

    // There is room for each sink that is out, so taking one back takes no memory.
    ghost invariant = { λ h. vec_len h.made + h.sinks_out ≤ vec_capacity h.made };
}

impl MemHost {
    /// A host that holds these bytes by name; where a name stands in several pairs, the first counts.
    ///
    /// The pair `(0, n)` of `fails` lets the n-th call among `open`, `make` and `put` fail, and the pair `(j, n)` the
    /// n-th call on the j-th source or sink that the host gives. All of them are counted from 1 on. It takes no memory.
    pub fn new(holds: Vec<(String, Vec<u8>)>, fails: Vec<(u32, u64)>) -> MemHost
        ensures { result ≡ record { held = map named holds.items; fails = fails.items; out = []; made = []; asked = []; calls = 0; given = 0; sinks_out = 0; read_faults = 0; write_faults = 0 } }
    {
        let alloc = *holds.allocator();
        MemHost {
            holds,
            fails,
            out: Vec::new(alloc),
            made: Vec::new(alloc),
            asked: Vec::new(alloc),
            calls: 0,
            given: 0,
            sinks_out: 0,
            read_faults: 0,
            write_faults: 0,
        }
    }

    /// The output so far.
    pub fn out(&self) -> &[u8]
        ensures { result.now ≡ self.now.out }
    {
        &self.out
    }

    /// The name and the bytes of each sink that came back, in the order in which they came.
    pub fn made(&self) -> &[(String, Vec<u8>)]
        ensures { map named result.now ≡ self.now.made }
    {
        &self.made
    }
}

// Whether the plan has this pair.
fn is_planned(fails: &[(u32, u64)], number: u32, call: u64) -> bool
    ensures { result ≡ list_any (λ p. (p.0 == number) && (p.1 == call)) fails.now }
{
    fails.iter().any(|p| p.0 == number && p.1 == call)
}

// The calls that stand with this number in the plan.
fn plan_of(alloc: Global, fails: &[(u32, u64)], number: u64) -> Result<Vec<u64>, AllocError>
    ensures { IfOk result (λ plan. plan.items ≡ map (λ p. p.1) (filter (λ p. p.0 == number) fails.now)) }
{
    fails
        .iter()
        .filter(|p| u64::from(p.0) == number)
        .map(|p| p.1)
        .collect(alloc)
}

// The bytes of the first pair of this name.
#[tactic(auto, unfolding(crate::specs::Memory::held_by))]
fn find_held<'a>(holds: &'a [(String, Vec<u8>)], name: &str) -> Option<&'a Vec<u8>>
    ensures { option_map (λ bytes. bytes.now.items) result ≡ held_by name.now (map named holds.now) }
{
    for pair in holds {
        if pair.0.as_bytes() == name.as_bytes() {
            return Some(&pair.1);
        }
    }
    None
}

// Keeps what was asked.
fn note(asked: &mut Vec<(Way, String)>, way: Way, name: &str) -> Result<(), AllocError>
    ensures kept { map asking asked.new.items ≡ (if is_ok result then map asking asked.old.items ++ (way, name.now) ∷ [] else map asking asked.old.items) }
{
    let text = String::from_str(*asked.allocator(), name)?;
    asked.push((way, text))?;
    Ok(())
}

// A new source of what is held by this name; none where nothing is, or for want of memory.
fn new_source(
    alloc: Global,
    holds: &[(String, Vec<u8>)],
    name: &str,
    fails: &[(u32, u64)],
    number: u64,
) -> Option<MemSource>
    ensures left { IfSome result (λ src. Some src.left ≡ held_by name.now (map named holds.now)) }
    ensures fresh { IfSome result (λ src. src ≡ record { left = src.left; fails = map (λ p. p.1) (filter (λ p. p.0 == number) fails.now); calls = 0; faults = 0 }) }
{
    let bytes = find_held(holds, name)?;
    let bytes = Vec::from_slice(alloc, bytes).ok()?;
    let plan = plan_of(alloc, fails, number).ok()?;
    Some(MemSource::new(bytes, plan))
}

// A new sink of this name; none for want of memory.
fn new_sink(alloc: Global, name: &str, fails: &[(u32, u64)], number: u64) -> Option<MemSink>
    ensures { IfSome result (λ dst. dst ≡ record { name = name.now; written = []; fails = map (λ p. p.1) (filter (λ p. p.0 == number) fails.now); calls = 0; faults = 0 }) }
{
    let text = String::from_str(alloc, name).ok()?;
    let plan = plan_of(alloc, fails, number).ok()?;
    Some(MemSink::new(text, plan))
}

#[tactic(auto, unfolding(crate::specs::Told::behind, crate::specs::Told::told_with, crate::specs::Told::with_item, crate::specs::Told::with_sink))]
impl Host for MemHost {
    type Src = MemSource;

    type Dst = MemSink;

    ghost out = { λ h. Some h.out };

    ghost holds = { λ h name. held_by name h.held };

    ghost made = { λ h. Some h.made };

    ghost asked = { λ h. Some h.asked };

    ghost sinks_out = { λ h. h.sinks_out };

    ghost read_faults = { λ h. h.read_faults };

    ghost write_faults = { λ h. h.write_faults };

    fn open(&mut self, name: &str) -> Result<MemSource, Failed>
        ensures left { IfOk result (λ src. Some src.left ≡ held_by name.now self.old.held) }
        ensures fresh { IfOk result (λ src. src ≡ record { left = src.left; fails = plan_of_next self.old.fails self.old.given; calls = 0; faults = 0 }) }
        ensures ok { OnOk result (self.new ≡ record self.old { asked = self.old.asked ++ (Way.Open, name.now) ∷ []; calls = raised self.old.calls; given = raised self.old.given }) }
        ensures err { OnErr result (self.new ≡ record self.old { asked = self.new.asked; calls = raised self.old.calls; read_faults = raised self.old.read_faults }) }
        ensures err_asked { OnErr result (IsOneOf self.old.asked (self.old.asked ++ (Way.Open, name.now) ∷ []) self.new.asked) }
        ensures planned { IsTrue (host_fails_next self.old.fails self.old.calls) → IsErr result }
        ensures counts { self.old.read_faults ≤ self.new.read_faults }
        ensures not_held { IsNone (held_by name.now self.old.held) → IsErr result }
    {
        let alloc = *self.holds.allocator();
        let given = self.given.saturating_add(1);
        self.calls = self.calls.saturating_add(1);
        let noted = note(&mut self.asked, Way::Open, name).is_ok();
        if noted && !is_planned(&self.fails, 0, self.calls) {
            if let Some(src) = new_source(alloc, &self.holds, name, &self.fails, given) {
                self.given = given;
                return Ok(src);
            }
        }
        self.read_faults = self.read_faults.saturating_add(1);
        Err(Failed)
    }

    fn put(&mut self, bytes: &[u8]) -> Result<usize, Failed>
        ensures all { IfOk result (λ n. n ≡ length bytes.now) }
        ensures ok { OnOk result (self.new ≡ record self.old { out = self.old.out ++ bytes.now; calls = raised self.old.calls }) }
        ensures err { OnErr result (self.new ≡ record self.old { calls = raised self.old.calls; write_faults = raised self.old.write_faults }) }
        ensures planned { IsTrue (host_fails_next self.old.fails self.old.calls) → IsErr result }
        ensures counts { self.old.write_faults ≤ self.new.write_faults }
    {
        self.calls = self.calls.saturating_add(1);
        if !is_planned(&self.fails, 0, self.calls) && self.out.extend_from_slice(bytes).is_ok() {
            return Ok(bytes.len());
        }
        self.write_faults = self.write_faults.saturating_add(1);
        Err(Failed)
    }

    fn make(&mut self, name: &str) -> Result<MemSink, Failed>
        ensures fresh { IfOk result (λ dst. dst ≡ record { name = name.now; written = []; fails = plan_of_next self.old.fails self.old.given; calls = 0; faults = 0 }) }
        ensures ok { OnOk result (self.new ≡ record self.old { asked = self.old.asked ++ (Way.Make, name.now) ∷ []; calls = raised self.old.calls; given = raised self.old.given; sinks_out = self.old.sinks_out + 1 }) }
        ensures err { OnErr result (self.new ≡ record self.old { asked = self.new.asked; calls = raised self.old.calls; write_faults = raised self.old.write_faults }) }
        ensures err_asked { OnErr result (IsOneOf self.old.asked (self.old.asked ++ (Way.Make, name.now) ∷ []) self.new.asked) }
        ensures planned { IsTrue (host_fails_next self.old.fails self.old.calls) → IsErr result }
        ensures counts { self.old.write_faults ≤ self.new.write_faults }
    {
        let alloc = *self.holds.allocator();
        let given = self.given.saturating_add(1);
        self.calls = self.calls.saturating_add(1);
        let noted = note(&mut self.asked, Way::Make, name).is_ok();
        let room = self.made.reserve(self.sinks_out + 1).is_ok();
        if noted && room && !is_planned(&self.fails, 0, self.calls) {
            if let Some(dst) = new_sink(alloc, name, &self.fails, given) {
                self.given = given;
                self.sinks_out += 1;
                return Ok(dst);
            }
        }
        self.write_faults = self.write_faults.saturating_add(1);
        Err(Failed)
    }

    fn shut_src(&mut self, src: MemSource)
        ensures counts { self.old.read_faults ≤ self.new.read_faults }
        ensures after { self.new ≡ record self.old { read_faults = if nat_lt 0 src.faults then raised self.old.read_faults else self.old.read_faults } }
    {
        if src.faults() > 0 {
            self.read_faults = self.read_faults.saturating_add(1);
        }
    }

    fn shut_dst(&mut self, dst: MemSink)
        requires { 0 < self.old.sinks_out }
        ensures counts { self.old.write_faults ≤ self.new.write_faults }
        ensures after { self.new ≡ record self.old { made = self.old.made ++ (dst.name, dst.written) ∷ []; sinks_out = self.old.sinks_out - 1; write_faults = if nat_lt 0 dst.faults then raised self.old.write_faults else self.old.write_faults } }
    {
        if dst.faults() > 0 {
            self.write_faults = self.write_faults.saturating_add(1);
        }
        self.sinks_out -= 1;
        let _ = self.made.push(dst.into_parts());
    }
}
