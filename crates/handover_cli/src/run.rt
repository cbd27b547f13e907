//! Runs a script: reads it, does its work and writes its history.

ghost use Rattle.std.specs.Prelude.{◌≡◌, ◌⊎◌, ◌≤◌, IsTrue, option_map, map, is_some, Some, None, string_bytes};
ghost use Rattle.ho_io.specs.Told.{Rose, behind, with_item, IsOneOf};
ghost use Rattle.ho_io.specs.declared.host.Way.TheVariants.{Open};
ghost use Rattle.handover_cli.specs.Run.{OnStart, WroteAll, WroteBlocks, WroteSoFar, WritesBlocks, WritesLegal, RanLegally, RanShort, WroteRefusal, WroteImageRefusal, RanRefused, RanFromNone, IsFromNone, is_fresh, origin_of, with_opened, with_all_opened};
ghost use Rattle.handover_cli.specs.Refusals.{usage_line, IsAccepted};
ghost use Rattle.handover_cli.specs.ImageRefusals.{IsImageRefusal};
ghost use Rattle.handover_cli.specs.Due.{WroteFront, WritesPart, WritesPartFor, Completes};
ghost use Rattle.handover_cli.specs.Asked.{AsksImages, AsksOnly};
ghost use Rattle.handover_cli.specs.Images.{seen};
ghost use Rattle.handover_cli.specs.Words.{run_asked, run_words};
ghost use Rattle.handover_cli.specs.Works.{CanRun};

use crate::block_runner::run_blocks;
use crate::resuming::begin_image;
use crate::scripts::accept_script;
use crate::status::Status;
use command_words::{Request, asked};
use ho_base::numbers::NoMemory;
use ho_events::script::Script;
use ho_io::{Host, put_all};
use machine_core::Kernel;
use std::alloc::Global;

/// The words that the program takes.
const USAGE: &[u8] =
    b"usage: handover run SCRIPT [--images FILE] [--summary TEXT] | resume IMAGE SCRIPT [--images FILE] [--summary TEXT] | audit SCRIPT HISTORY | inspect IMAGE | gen NUMBER\n";

/// Does a script on a machine of its shape that is switched on, and writes its history.
fn run_fresh<H: Host>(alloc: Global, script: Script, images: Option<&str>, host: &mut H) -> Status
    requires shaped { IsTrue (is_some script.shape) }
    requires blocks { CanRun script.blocks }
    ensures legal { result ≡ Status.Done → OnStart None (λ start blocks. WroteAll start blocks (option_map (λ file. file.now) images.entry) (seen (H.out host.old) (H.made host.old) (H.asked host.old)) (seen (H.out host.new) (H.made host.new) (H.asked host.new))) script }
    ensures memory { result ≡ Status.Memory → OnStart None (λ start blocks. WroteBlocks start blocks (option_map (λ file. file.now) images.entry) (seen (H.out host.old) (H.made host.old) (H.asked host.old)) (seen (H.out host.new) (H.made host.new) (H.asked host.new))) script }
    ensures part { result ≡ Status.WriteFault → OnStart None (λ start blocks. WroteSoFar start blocks (option_map (λ file. file.now) images.entry) (seen (H.out host.old) (H.made host.old) (H.asked host.old)) (seen (H.out host.new) (H.made host.new) (H.asked host.new))) script }
    ensures not_script { result ≡ Status.Script → ⊥ }
    ensures not_usage { result ≡ Status.Usage → ⊥ }
    ensures not_read { result ≡ Status.ReadFault → ⊥ }
    ensures not_image { result ≡ Status.Image → ⊥ }
    ensures write_cause { result ≡ Status.WriteFault → Rose (H.write_faults host.old) (H.write_faults host.new) }
    ensures asked { AsksImages (option_map (λ file. file.now) images.entry) (H.asked host.old) (H.asked host.new) }
    ensures sinks_kept { H.sinks_out host.new ≡ H.sinks_out host.old }
{
    let Script {
        shape,
        fails: _,
        agents: _,
        blocks,
    } = script;
    let Some(shape) = shape else { unreachable!() };
    match Kernel::cold(alloc, shape) {
        Ok(kernel) => run_blocks(alloc, kernel, blocks.as_slice(), images, host),
        Err(NoMemory) => Status::Memory,
    }
}

/// Does a script from the image of this name on, and writes its history.
fn run_resumed<H: Host>(
    alloc: Global,
    script: Script,
    image: &str,
    images: Option<&str>,
    host: &mut H,
) -> Status
    requires blocks { CanRun script.blocks }
    ensures legal { result ≡ Status.Done → OnStart (Some (H.holds host.old image.now)) (λ start blocks. WroteAll start blocks (option_map (λ file. file.now) images.entry) (with_opened (seen (H.out host.old) (H.made host.old) (H.asked host.old)) image.now) (seen (H.out host.new) (H.made host.new) (H.asked host.new))) script }
    ensures memory { result ≡ Status.Memory → ((seen (H.out host.new) (H.made host.new) (H.asked host.new)) ≡ with_opened (seen (H.out host.old) (H.made host.old) (H.asked host.old)) image.now) ⊎ OnStart (Some (H.holds host.old image.now)) (λ start blocks. WroteBlocks start blocks (option_map (λ file. file.now) images.entry) (with_opened (seen (H.out host.old) (H.made host.old) (H.asked host.old)) image.now) (seen (H.out host.new) (H.made host.new) (H.asked host.new))) script }
    ensures part { result ≡ Status.WriteFault → WroteFront (IsImageRefusal (H.holds host.old image.now)) (H.out host.old) (H.out host.new) ⊎ OnStart (Some (H.holds host.old image.now)) (λ start blocks. WroteSoFar start blocks (option_map (λ file. file.now) images.entry) (with_opened (seen (H.out host.old) (H.made host.old) (H.asked host.old)) image.now) (seen (H.out host.new) (H.made host.new) (H.asked host.new))) script }
    ensures refused { result ≡ Status.Image → WroteImageRefusal (H.holds host.old image.now) (H.out host.old) (H.out host.new) }
    ensures unread { result ≡ Status.ReadFault → H.out host.new ≡ H.out host.old }
    ensures not_script { result ≡ Status.Script → ⊥ }
    ensures not_usage { result ≡ Status.Usage → ⊥ }
    ensures read_cause { result ≡ Status.ReadFault → Rose (H.read_faults host.old) (H.read_faults host.new) }
    ensures write_cause { result ≡ Status.WriteFault → Rose (H.write_faults host.old) (H.write_faults host.new) }
    ensures asked { (H.asked host.new ≡ H.asked host.old) ⊎ AsksImages (option_map (λ file. file.now) images.entry) (with_item (H.asked host.old) (Open, image.now)) (H.asked host.new) }
    ensures made_image { result ≡ Status.Image → H.made host.new ≡ H.made host.old }
    ensures made_unread { result ≡ Status.ReadFault → H.made host.new ≡ H.made host.old }
    ensures sinks_kept { H.sinks_out host.new ≡ H.sinks_out host.old }
{
    match begin_image(alloc, image, host) {
        Ok(kernel) => run_blocks(alloc, kernel, script.blocks.as_slice(), images, host),
        Err(status) => status,
    }
}

/// Runs the script of this name: on a machine of its shape that is switched on, or from an image on.
fn run_script<H: Host>(
    alloc: Global,
    name: &str,
    image: Option<&str>,
    images: Option<&str>,
    host: &mut H,
) -> Status
    ensures legal { result ≡ Status.Done → WritesLegal (origin_of (H.holds host.old) (run_asked name.now (option_map (λ file. file.now) image.entry) (option_map (λ file. file.now) images.entry))) (H.holds host.old name.now) (option_map (λ file. file.now) images.entry) (with_all_opened (seen (H.out host.old) (H.made host.old) (H.asked host.old)) (run_asked name.now (option_map (λ file. file.now) image.entry) (option_map (λ file. file.now) images.entry))) (seen (H.out host.new) (H.made host.new) (H.asked host.new)) }
    ensures accepted { result ≡ Status.Done → IsAccepted (is_fresh (origin_of (H.holds host.old) (run_asked name.now (option_map (λ file. file.now) image.entry) (option_map (λ file. file.now) images.entry)))) (H.holds host.old name.now) }
    ensures refused { result ≡ Status.Script → WroteRefusal (is_fresh (origin_of (H.holds host.old) (run_asked name.now (option_map (λ file. file.now) image.entry) (option_map (λ file. file.now) images.entry)))) (H.holds host.old name.now) (H.out host.old) (H.out host.new) }
    ensures refused_image { result ≡ Status.Image → IsFromNone (H.holds host.old) (run_asked name.now (option_map (λ file. file.now) image.entry) (option_map (λ file. file.now) images.entry)) (H.out host.old) (H.out host.new) }
    ensures part { result ≡ Status.WriteFault → WritesPart (origin_of (H.holds host.old) (run_asked name.now (option_map (λ file. file.now) image.entry) (option_map (λ file. file.now) images.entry))) (H.holds host.old name.now) (option_map (λ file. file.now) images.entry) (with_all_opened (seen (H.out host.old) (H.made host.old) (H.asked host.old)) (run_asked name.now (option_map (λ file. file.now) image.entry) (option_map (λ file. file.now) images.entry))) (seen (H.out host.new) (H.made host.new) (H.asked host.new)) }
    ensures memory { result ≡ Status.Memory → IsOneOf (with_opened (seen (H.out host.old) (H.made host.old) (H.asked host.old)) name.now) (with_all_opened (seen (H.out host.old) (H.made host.old) (H.asked host.old)) (run_asked name.now (option_map (λ file. file.now) image.entry) (option_map (λ file. file.now) images.entry))) (seen (H.out host.new) (H.made host.new) (H.asked host.new)) ⊎ WritesBlocks (origin_of (H.holds host.old) (run_asked name.now (option_map (λ file. file.now) image.entry) (option_map (λ file. file.now) images.entry))) (H.holds host.old name.now) (option_map (λ file. file.now) images.entry) (with_all_opened (seen (H.out host.old) (H.made host.old) (H.asked host.old)) (run_asked name.now (option_map (λ file. file.now) image.entry) (option_map (λ file. file.now) images.entry))) (seen (H.out host.new) (H.made host.new) (H.asked host.new)) }
    ensures unread { result ≡ Status.ReadFault → H.out host.new ≡ H.out host.old }
    ensures not_usage { result ≡ Status.Usage → ⊥ }
    ensures read_cause { result ≡ Status.ReadFault → Rose (H.read_faults host.old) (H.read_faults host.new) }
    ensures write_cause { result ≡ Status.WriteFault → Rose (H.write_faults host.old) (H.write_faults host.new) }
    ensures asked { AsksOnly (Some (run_asked name.now (option_map (λ file. file.now) image.entry) (option_map (λ file. file.now) images.entry))) (H.asked host.old) (H.asked host.new) }
    ensures made_script { result ≡ Status.Script → H.made host.new ≡ H.made host.old }
    ensures made_image { result ≡ Status.Image → H.made host.new ≡ H.made host.old }
    ensures made_unread { result ≡ Status.ReadFault → H.made host.new ≡ H.made host.old }
    ensures sinks_kept { H.sinks_out host.new ≡ H.sinks_out host.old }
{
    match accept_script(alloc, name, image.is_none(), host) {
        Ok(script) => match image {
            None => run_fresh(alloc, script, images, host),
            Some(file) => run_resumed(alloc, script, file, images, host),
        },
        Err(status) => status,
    }
}

/// The script to run, the image to go on from and the name of the images, where these are the words of a run that is built.
fn asked_run(words: &[String]) -> Option<(&str, Option<&str>, Option<&str>)>
    ensures { option_map (λ r. run_asked r.0.now (option_map (λ file. file.now) r.1) (option_map (λ file. file.now) r.2)) result ≡ run_words (map string_bytes words.now) }
{
    match asked(words) {
        Some(
            Request::Run {
                script,
                images,
                summary: None,
            },
        ) => Some((script, None, images)),
        Some(
            Request::Resume {
                image,
                script,
                images,
                summary: None,
            },
        ) => Some((script, Some(image), images)),
        _ => None,
    }
}

/// Runs a script, and writes the history that it leaves to the host's output.
///
/// The words are `run` and the script's name, or `resume`, an image's name and the script's, and where images are wanted
/// `--images` and their name; [`Status::Usage`] comes exactly where they aren't. Where a host tells its bytes,
/// [`Status::Done`] says that what came behind the output is the text of a legal history of the script, from a machine of its
/// shape that is switched on, or from the world on that follows what the image carries. [`Status::Script`] says that it is the
/// line of the script's refusal: it has more bytes than a script may have, or this line of it is the first that is refused.
/// [`Status::Image`] says that it is the line of the image's refusal, with the first place whose rules break.
/// [`Status::ReadFault`] and [`Status::WriteFault`] come only where the host's count of such faults rose. Nothing came behind the output where
/// reading failed; where writing failed, a front part of what was due: whole lines whose entries are legal so far, and
/// of the line of an entry that may come next not all. [`Status::Memory`] is for want of memory; what came behind the
/// output then is exactly the text of the blocks that were done.
pub fn run<H: Host>(alloc: Global, words: &[String], host: &mut H) -> Status
    ensures legal { result ≡ Status.Done → RanLegally (map string_bytes words.now) (H.holds host.old) (seen (H.out host.old) (H.made host.old) (H.asked host.old)) (seen (H.out host.new) (H.made host.new) (H.asked host.new)) }
    ensures refused { result ≡ Status.Script → RanRefused (map string_bytes words.now) (H.holds host.old) (H.out host.old) (H.out host.new) }
    ensures refused_image { result ≡ Status.Image → RanFromNone (map string_bytes words.now) (H.holds host.old) (H.out host.old) (H.out host.new) }
    ensures usage { result ≡ Status.Usage → run_words (map string_bytes words.now) ≡ None }
    ensures usage_told { result ≡ Status.Usage → H.out host.new ≡ behind (H.out host.old) usage_line }
    ensures unfit { run_words (map string_bytes words.now) ≡ None → IsOneOf Status.Usage Status.WriteFault result }
    ensures memory { result ≡ Status.Memory → RanShort (map string_bytes words.now) (H.holds host.old) (seen (H.out host.old) (H.made host.old) (H.asked host.old)) (seen (H.out host.new) (H.made host.new) (H.asked host.new)) }
    ensures unread { result ≡ Status.ReadFault → H.out host.new ≡ H.out host.old }
    ensures part { result ≡ Status.WriteFault → WritesPartFor (H.holds host.old) (run_words (map string_bytes words.now)) (seen (H.out host.old) (H.made host.old) (H.asked host.old)) (seen (H.out host.new) (H.made host.new) (H.asked host.new)) }
    ensures read_cause { result ≡ Status.ReadFault → Rose (H.read_faults host.old) (H.read_faults host.new) }
    ensures write_cause { result ≡ Status.WriteFault → Rose (H.write_faults host.old) (H.write_faults host.new) }
    ensures complete { Completes (map string_bytes words.now) (H.holds host.old) (Rose (H.read_faults host.old) (H.read_faults host.new)) (Rose (H.write_faults host.old) (H.write_faults host.new)) result }
    ensures asked { AsksOnly (run_words (map string_bytes words.now)) (H.asked host.old) (H.asked host.new) }
    ensures made_script { result ≡ Status.Script → H.made host.new ≡ H.made host.old }
    ensures made_image { result ≡ Status.Image → H.made host.new ≡ H.made host.old }
    ensures made_usage { result ≡ Status.Usage → H.made host.new ≡ H.made host.old }
    ensures made_unread { result ≡ Status.ReadFault → H.made host.new ≡ H.made host.old }
    ensures sinks_kept { H.sinks_out host.new ≡ H.sinks_out host.old }
{
    match asked_run(words) {
        Some((name, image, images)) => run_script(alloc, name, image, images, host),
        None => match put_all(host, USAGE) {
            Ok(()) => Status::Usage,
            Err(_) => Status::WriteFault,
        },
    }
}
