//! Sources and sinks in memory, whose failures are planned.

ghost use Rattle.std.specs.Prelude.{◌≡◌, ◌+◌, ◌<◌, ◌≤◌, ◌↔◌, ℕ, [], Some, drop, length, min, take, IfOk, OnErr, OnOk, IsErr, IsTrue, string_bytes};
ghost use Rattle.ho_io.specs.Told.{Rose, Tells, behind, in_front, raised};
ghost use Rattle.ho_io.specs.Memory.{next_fails};

use crate::sink::Sink;
use crate::source::Source;
use ho_base::numbers::Failed;
use std::marker::Model;

/// A source of bytes in memory. The calls that are to fail are planned. Contracts see what is left, the plan, and
/// the counts of calls and of faults.
#[derive(Debug, Drop)]
pub struct MemSource {
    bytes: Vec<u8>,
    at: usize,
    fails: Vec<u64>,
    calls: u64,
    faults: u64,
}

impl Model for MemSource {
    ghost use Rattle.std.specs.Prelude.{◌≤◌, drop, vec_len};
    ghost use Rattle.ho_io.specs.Memory.{SourceState};

    ghost Value = { SourceState };

    ghost view = { λ s. record { left = drop s.at s.bytes.items; fails = s.fails.items; calls = s.calls; faults = s.faults } };

    ghost invariant = { λ s. s.at ≤ vec_len s.bytes };
}

impl MemSource {
    /// A source of these bytes, whose calls with the numbers in `fails`, from 1 on, fail. It takes no memory.
    pub fn new(bytes: Vec<u8>, fails: Vec<u64>) -> MemSource
        ensures { result ≡ record { left = bytes.items; fails = fails.items; calls = 0; faults = 0 } }
    {
        MemSource {
            bytes,
            at: 0,
            fails,
            calls: 0,
            faults: 0,
        }
    }

    /// How often it has failed.
    pub(crate) fn faults(&self) -> u64
        ensures { result ≡ self.now.faults }
    {
        self.faults
    }
}

// Copies as many bytes as there are and as fit, and gives their number.
#[tactic(auto, using(std::proofs::lemmas::Grind::common_steps))]
fn copy_front(bytes: &[u8], buf: &mut [u8]) -> usize
    ensures count { result ≡ min (length buf.old) (length bytes.now) }
    ensures copied { take result buf.new ≡ take result bytes.now }
{
    let count = buf.len().min(bytes.len());
    buf[..count].copy_from_slice(&bytes[..count]);
    count
}

#[tactic(auto, unfolding(crate::specs::Told::in_front), using(crate::proofs::Bytes::next_piece))]
impl Source for MemSource {
    ghost left = { λ s. Some s.left };

    ghost faults = { λ s. s.faults };

    fn read(&mut self, buf: &mut [u8]) -> Result<usize, Failed>
        ensures bound { IfOk result (λ n. n ≤ length buf.new) }
        ensures taken { IfOk result (λ n. Some self.old.left ≡ in_front (take n buf.new) (Some self.new.left)) }
        ensures end { IfOk result (λ n. n ≡ 0 → 0 < length buf.new → Tells (Some self.old.left) []) }
        ensures kept { OnErr result (Some self.new.left ≡ Some self.old.left) }
        ensures counts { self.old.faults ≤ self.new.faults }
        ensures cause { OnErr result (Rose self.old.faults self.new.faults) }
        ensures most { IfOk result (λ n. n ≡ min (length buf.new) (length self.old.left)) }
        ensures planned { IsErr result ↔ IsTrue (next_fails self.old.fails self.old.calls) }
        ensures no_fault { OnOk result (self.new.faults ≡ self.old.faults) }
        ensures call { self.new.calls ≡ raised self.old.calls }
        ensures plan_kept { self.new.fails ≡ self.old.fails }
    {
        self.calls = self.calls.saturating_add(1);
        if self.fails.contains(&self.calls) {
            self.faults = self.faults.saturating_add(1);
            return Err(Failed);
        }
        let count = copy_front(&self.bytes[self.at..], buf);
        self.at += count;
        Ok(count)
    }
}

/// A sink in memory. The calls that are to fail are planned; it also fails for want of memory. Contracts see its name,
/// what was written, the plan, and the counts of calls and of faults.
#[derive(Debug, Drop)]
pub struct MemSink {
    name: String,
    bytes: Vec<u8>,
    fails: Vec<u64>,
    calls: u64,
    faults: u64,
}

impl Model for MemSink {
    ghost use Rattle.std.specs.Prelude.{string_bytes};
    ghost use Rattle.ho_io.specs.Memory.{SinkState};

    ghost Value = { SinkState };

    ghost view = { λ s. record { name = string_bytes s.name; written = s.bytes.items; fails = s.fails.items; calls = s.calls; faults = s.faults } };
}

impl MemSink {
    /// An empty sink of this name, whose calls with the numbers in `fails`, from 1 on, fail. It takes no memory.
    pub fn new(name: String, fails: Vec<u64>) -> MemSink
        ensures { result ≡ record { name = string_bytes name; written = []; fails = fails.items; calls = 0; faults = 0 } }
    {
        MemSink {
            name,
            bytes: Vec::new(*fails.allocator()),
            fails,
            calls: 0,
            faults: 0,
        }
    }

    /// How often it has failed.
    pub(crate) fn faults(&self) -> u64
        ensures { result ≡ self.now.faults }
    {
        self.faults
    }

    /// The name and the bytes that were written. It takes no memory.
    pub(crate) fn into_parts(self) -> (String, Vec<u8>)
        ensures name { string_bytes result.0 ≡ self.name }
        ensures written { result.1.items ≡ self.written }
    {
        let MemSink {
            name,
            bytes,
            fails: _,
            calls: _,
            faults: _,
        } = self;
        (name, bytes)
    }
}

#[tactic(auto, unfolding(crate::specs::Told::behind))]
impl Sink for MemSink {
    ghost written = { λ s. Some s.written };

    ghost name = { λ s. Some s.name };

    ghost faults = { λ s. s.faults };

    fn write(&mut self, bytes: &[u8]) -> Result<usize, Failed>
        ensures bound { IfOk result (λ n. n ≤ length bytes.now) }
        ensures appended { IfOk result (λ n. Some self.new.written ≡ behind (Some self.old.written) (take n bytes.now)) }
        ensures kept { OnErr result (Some self.new.written ≡ Some self.old.written) }
        ensures named { Some self.new.name ≡ Some self.old.name }
        ensures counts { self.old.faults ≤ self.new.faults }
        ensures cause { OnErr result (Rose self.old.faults self.new.faults) }
        ensures stuck { IfOk result (λ n. n ≡ 0 → 0 < length bytes.now → Rose self.old.faults self.new.faults) }
        ensures most { IfOk result (λ n. n ≡ length bytes.now) }
        ensures planned { IsTrue (next_fails self.old.fails self.old.calls) → IsErr result }
        ensures no_fault { OnOk result (self.new.faults ≡ self.old.faults) }
        ensures call { self.new.calls ≡ raised self.old.calls }
        ensures plan_kept { self.new.fails ≡ self.old.fails }
    {
        self.calls = self.calls.saturating_add(1);
        if !self.fails.contains(&self.calls) && self.bytes.extend_from_slice(bytes).is_ok() {
            return Ok(bytes.len());
        }
        self.faults = self.faults.saturating_add(1);
        Err(Failed)
    }
}
