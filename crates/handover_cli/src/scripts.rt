//! Reads the script of a run, and says why one is refused.

ghost use Rattle.std.specs.Prelude.{◌≡◌, ◌≤◌, IfOk, IfErr, OnOk};
ghost use Rattle.ho_io.specs.Told.{Rose, behind, with_item, IsOneOf};
ghost use Rattle.ho_io.specs.declared.host.Way.TheVariants.{Open};
ghost use Rattle.handover_cli.specs.Due.{WroteFront};
ghost use Rattle.handover_cli.specs.Images.{seen};
ghost use Rattle.handover_cli.specs.Refusals.{line_text, reason_word, too_long_text};
ghost use Rattle.handover_cli.specs.Stops.{IsReady, StopsAtScript};

use crate::reading::read_named;
use crate::status::Status;
use ho_base::limits::SCRIPT_BYTES;
use ho_events::line::Reason;
use ho_events::script::Script;
use ho_io::{Host, ReadError, put_all};
use script_text::{ScriptError, read};
use std::alloc::Global;

/// The word that tells a reason.
fn word_of(reason: Reason) -> &'static str
    ensures { result.now ≡ reason_word reason }
{
    match reason {
        Reason::Byte => "byte",
        Reason::Word => "word",
        Reason::Later => "later",
        Reason::Count => "count",
        Reason::Number => "number",
        Reason::Name => "name",
        Reason::Hex => "hex",
        Reason::Kind => "kind",
        Reason::Op => "op",
        Reason::Place => "place",
        Reason::Shape => "shape",
        Reason::Label => "label",
        Reason::Limit => "limit",
        Reason::End => "end",
    }
}

/// Writes which line of a script is refused, and why.
fn refuse_line<H: Host>(alloc: Global, host: &mut H, line: u32, reason: Reason) -> Status
    ensures whole { result ≡ Status.Script → H.out host.new ≡ behind (H.out host.old) (line_text line reason) }
    ensures part { result ≡ Status.WriteFault → WroteFront (λ text. text ≡ line_text line reason) (H.out host.old) (H.out host.new) }
    ensures silent { result ≡ Status.Memory → H.out host.new ≡ H.out host.old }
    ensures not_done { result ≡ Status.Done → ⊥ }
    ensures not_usage { result ≡ Status.Usage → ⊥ }
    ensures not_read { result ≡ Status.ReadFault → ⊥ }
    ensures not_image { result ≡ Status.Image → ⊥ }
    ensures write_cause { result ≡ Status.WriteFault → Rose (H.write_faults host.old) (H.write_faults host.new) }
    ensures asked_kept { H.asked host.new ≡ H.asked host.old }
    ensures made_kept { H.made host.new ≡ H.made host.old }
    ensures sinks_kept { H.sinks_out host.new ≡ H.sinks_out host.old }
{
    let word = word_of(reason);
    match format!(in alloc; "script refused: line {line}: {word}\n") {
        Ok(text) => match put_all(host, text.as_bytes()) {
            Ok(()) => Status::Script,
            Err(_) => Status::WriteFault,
        },
        Err(_) => Status::Memory,
    }
}

/// Writes that a script is too long.
fn refuse_length<H: Host>(host: &mut H) -> Status
    ensures whole { result ≡ Status.Script → H.out host.new ≡ behind (H.out host.old) too_long_text }
    ensures part { result ≡ Status.WriteFault → WroteFront (λ text. text ≡ too_long_text) (H.out host.old) (H.out host.new) }
    ensures either { IsOneOf Status.Script Status.WriteFault result }
    ensures write_cause { result ≡ Status.WriteFault → Rose (H.write_faults host.old) (H.write_faults host.new) }
    ensures asked_kept { H.asked host.new ≡ H.asked host.old }
    ensures made_kept { H.made host.new ≡ H.made host.old }
    ensures sinks_kept { H.sinks_out host.new ≡ H.sinks_out host.old }
{
    match put_all(host, b"script refused: too long\n") {
        Ok(()) => Status::Script,
        Err(_) => Status::WriteFault,
    }
}

/// The script of this name, where it isn't refused: a fresh one, or one that goes on from an image. Else the line of its
/// refusal is written.
///
/// # Errors
/// The status with which the run ends: [`Status::Script`] exactly where the script is refused and its line was written.
pub fn accept_script<H: Host>(
    alloc: Global,
    name: &str,
    fresh: bool,
    host: &mut H,
) -> Result<Script, Status>
    ensures ready { IfOk result (IsReady fresh (H.holds host.old name.now)) }
    ensures silent { OnOk result (H.out host.new ≡ H.out host.old) }
    ensures opened { OnOk result (H.asked host.new ≡ with_item (H.asked host.old) (Open, name.now)) }
    ensures holds_kept { OnOk result (H.holds host.new ≡ H.holds host.old) }
    ensures writes_kept { OnOk result (H.write_faults host.new ≡ H.write_faults host.old) }
    ensures counts { OnOk result (H.read_faults host.old ≤ H.read_faults host.new) }
    ensures stopped { IfErr result (StopsAtScript fresh (H.holds host.old name.now) name.now (seen (H.out host.old) (H.made host.old) (H.asked host.old)) (seen (H.out host.new) (H.made host.new) (H.asked host.new))) }
    ensures read_cause { IfErr result (λ s. s ≡ Status.ReadFault → Rose (H.read_faults host.old) (H.read_faults host.new)) }
    ensures write_cause { IfErr result (λ s. s ≡ Status.WriteFault → Rose (H.write_faults host.old) (H.write_faults host.new)) }
    ensures asked { IsOneOf (H.asked host.old) (with_item (H.asked host.old) (Open, name.now)) (H.asked host.new) }
    ensures made_kept { H.made host.new ≡ H.made host.old }
    ensures sinks_kept { H.sinks_out host.new ≡ H.sinks_out host.old }
{
    match read_named(alloc, name, SCRIPT_BYTES, host) {
        Ok(bytes) => match read(alloc, bytes.as_slice(), fresh) {
            Ok(script) => Ok(script),
            Err(ScriptError::Bad { line, reason }) => Err(refuse_line(alloc, host, line, reason)),
            Err(ScriptError::Memory) => Err(Status::Memory),
        },
        Err(error) => Err(match error {
            ReadError::TooLong(_) => refuse_length(host),
            ReadError::Fault => Status::ReadFault,
            ReadError::Memory => Status::Memory,
        }),
    }
}
