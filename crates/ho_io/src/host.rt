//! What opens sources, makes sinks and takes the program's output.

ghost use Rattle.std.specs.Prelude.{◌≡◌, ◌+◌, ◌<◌, ◌≤◌, ℕ, List, [], ◌∷◌, length, take, Option, IfOk, OnOk, OnErr, is_some};
ghost use Rattle.ho_io.specs.Told.{Rose, behind, told_with, with_item, with_sink, IsOneOf};
ghost use Rattle.ho_io.specs.declared.host.Way.{Way};

use crate::sink::Sink;
use crate::source::Source;
use ho_base::numbers::Failed;

/// What a host was asked to do with a name.
#[derive(Clone, Copy, Debug, PartialEq)]
pub enum Way {
    Open,
    Make,
}

/// The outside of a program: it opens sources, makes sinks and takes the program's output.
///
/// A source or a sink is a value of its own, so the host learns of its faults and its bytes when it comes back, by
/// [`Host::shut_src`] or [`Host::shut_dst`].
pub trait Host {
    type Src: Source;

    type Dst: Sink;

    /// The output so far, where the host tells it.
    ghost out: { Self → Option (List ℕ) };

    /// For a name, the bytes that a source opened by it has left, where the host tells them.
    ghost holds: { Self → List ℕ → Option (List ℕ) };

    /// The name and the bytes of each sink that came back, in the order in which they came, where the host tells them.
    ghost made: { Self → Option (List (List ℕ × List ℕ)) };

    /// The names that it was asked to open and to make, in order, where the host tells them.
    ghost asked: { Self → Option (List (Way × List ℕ)) };

    /// How many sinks are out.
    ghost sinks_out: { Self → ℕ };

    /// How often opening or reading has failed. A count of `2^64 - 1` stands still and is read as one that rose.
    ghost read_faults: { Self → ℕ };

    /// How often making or writing has failed. A count of `2^64 - 1` stands still and is read as one that rose.
    ghost write_faults: { Self → ℕ };

    /// A source of what is held by this name, with no fault yet.
    ///
    /// # Errors
    /// [`Failed`] only where the count of read faults rose.
    fn open(&mut self, name: &str) -> Result<Self::Src, Failed>
        ensures left { IfOk result (λ src. Self.Src.left src ≡ holds self.old name.now) }
        ensures told { OnOk result (is_some (holds self.old name.now) ≡ is_some (out self.old)) }
        ensures fresh { IfOk result (λ src. Self.Src.faults src ≡ 0) }
        ensures asked { OnOk result (asked self.new ≡ with_item (asked self.old) (Way.Open, name.now)) }
        ensures asked_or_not { OnErr result (IsOneOf (asked self.old) (with_item (asked self.old) (Way.Open, name.now)) (asked self.new)) }
        ensures counts { read_faults self.old ≤ read_faults self.new }
        ensures cause { OnErr result (Rose (read_faults self.old) (read_faults self.new)) }
        ensures out_kept { out self.new ≡ out self.old }
        ensures holds_kept { holds self.new ≡ holds self.old }
        ensures made_kept { made self.new ≡ made self.old }
        ensures sinks_kept { sinks_out self.new ≡ sinks_out self.old }
        ensures writes_kept { write_faults self.new ≡ write_faults self.old };

    /// Writes bytes off the front of `bytes` to the output, and gives their number. Zero for a piece that isn't
    /// empty counts as a failure.
    ///
    /// # Errors
    /// [`Failed`] only where the count of write faults rose. Nothing is written then.
    fn put(&mut self, bytes: &[u8]) -> Result<usize, Failed>
        ensures bound { IfOk result (λ n. n ≤ length bytes.now) }
        ensures appended { IfOk result (λ n. out self.new ≡ behind (out self.old) (take n bytes.now)) }
        ensures kept { OnErr result (out self.new ≡ out self.old) }
        ensures counts { write_faults self.old ≤ write_faults self.new }
        ensures cause { OnErr result (Rose (write_faults self.old) (write_faults self.new)) }
        ensures stuck { IfOk result (λ n. n ≡ 0 → 0 < length bytes.now → Rose (write_faults self.old) (write_faults self.new)) }
        ensures holds_kept { holds self.new ≡ holds self.old }
        ensures made_kept { made self.new ≡ made self.old }
        ensures asked_kept { asked self.new ≡ asked self.old }
        ensures sinks_kept { sinks_out self.new ≡ sinks_out self.old }
        ensures reads_kept { read_faults self.new ≡ read_faults self.old };

    /// A new sink of this name, with nothing written and no fault yet. One sink more is out.
    ///
    /// # Errors
    /// [`Failed`] only where the count of write faults rose. No sink more is out then.
    fn make(&mut self, name: &str) -> Result<Self::Dst, Failed>
        ensures written { IfOk result (λ dst. Self.Dst.written dst ≡ told_with (out self.old) []) }
        ensures named { IfOk result (λ dst. Self.Dst.name dst ≡ told_with (out self.old) name.now) }
        ensures fresh { IfOk result (λ dst. Self.Dst.faults dst ≡ 0) }
        ensures asked { OnOk result (asked self.new ≡ with_item (asked self.old) (Way.Make, name.now)) }
        ensures asked_or_not { OnErr result (IsOneOf (asked self.old) (with_item (asked self.old) (Way.Make, name.now)) (asked self.new)) }
        ensures sinks { OnOk result (sinks_out self.new ≡ sinks_out self.old + 1) }
        ensures sinks_kept { OnErr result (sinks_out self.new ≡ sinks_out self.old) }
        ensures counts { write_faults self.old ≤ write_faults self.new }
        ensures cause { OnErr result (Rose (write_faults self.old) (write_faults self.new)) }
        ensures out_kept { out self.new ≡ out self.old }
        ensures made_kept { made self.new ≡ made self.old }
        ensures reads_kept { read_faults self.new ≡ read_faults self.old };

    /// Takes a source back. The count of read faults rises exactly where the source's count is above 0.
    fn shut_src(&mut self, src: Self::Src)
        ensures counts { read_faults self.old ≤ read_faults self.new }
        ensures rose { 0 < Self.Src.faults src → Rose (read_faults self.old) (read_faults self.new) }
        ensures no_fault { Self.Src.faults src ≡ 0 → read_faults self.new ≡ read_faults self.old }
        ensures out_kept { out self.new ≡ out self.old }
        ensures holds_kept { holds self.new ≡ holds self.old }
        ensures made_kept { made self.new ≡ made self.old }
        ensures asked_kept { asked self.new ≡ asked self.old }
        ensures sinks_kept { sinks_out self.new ≡ sinks_out self.old }
        ensures writes_kept { write_faults self.new ≡ write_faults self.old };

    /// Takes a sink back, with its name and its bytes. The count of write faults rises exactly where the sink's count
    /// is above 0. One sink less is out.
    fn shut_dst(&mut self, dst: Self::Dst)
        requires { 0 < sinks_out self.old }
        ensures made { made self.new ≡ with_sink (made self.old) (Self.Dst.name dst) (Self.Dst.written dst) }
        ensures sinks { sinks_out self.new + 1 ≡ sinks_out self.old }
        ensures counts { write_faults self.old ≤ write_faults self.new }
        ensures rose { 0 < Self.Dst.faults dst → Rose (write_faults self.old) (write_faults self.new) }
        ensures no_fault { Self.Dst.faults dst ≡ 0 → write_faults self.new ≡ write_faults self.old }
        ensures out_kept { out self.new ≡ out self.old }
        ensures asked_kept { asked self.new ≡ asked self.old }
        ensures reads_kept { read_faults self.new ≡ read_faults self.old };
}

/// Writes all of `bytes` to the host's output. It takes no memory.
///
/// # Errors
/// [`Failed`] only where the host's count of write faults rose. A part of `bytes` from its front was written then.
#[tactic(auto, using(crate::proofs::Bytes::behind_start, crate::proofs::Bytes::behind_more, crate::proofs::Bytes::behind_whole))]
pub fn put_all<H: Host>(host: &mut H, bytes: &[u8]) -> Result<(), Failed>
    ensures all { OnOk result (H.out host.new ≡ behind (H.out host.old) bytes.now) }
    ensures part { OnErr result ((n : ℕ) × ((n < length bytes.now) × (H.out host.new ≡ behind (H.out host.old) (take n bytes.now)))) }
    ensures counts { H.write_faults host.old ≤ H.write_faults host.new }
    ensures cause { OnErr result (Rose (H.write_faults host.old) (H.write_faults host.new)) }
    ensures holds_kept { H.holds host.new ≡ H.holds host.old }
    ensures made_kept { H.made host.new ≡ H.made host.old }
    ensures asked_kept { H.asked host.new ≡ H.asked host.old }
    ensures sinks_kept { H.sinks_out host.new ≡ H.sinks_out host.old }
    ensures reads_kept { H.read_faults host.new ≡ H.read_faults host.old }
{
    let mut done = 0;
    while done < bytes.len() {
        match host.put(&bytes[done..]) {
            Ok(0) => return Err(Failed),
            Ok(count) => done += count,
            Err(failed) => return Err(failed),
        }
    }
    Ok(())
}
