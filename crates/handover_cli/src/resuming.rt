//! Begins a run from an image.

ghost use Rattle.std.specs.Prelude.{◌≡◌, IfOk, IfErr, OnOk};
ghost use Rattle.ho_io.specs.Told.{Rose, behind, with_item, IsOneOf};
ghost use Rattle.ho_io.specs.declared.host.Way.TheVariants.{Open};
ghost use Rattle.image_file.specs.Loaded.{IsLoaded};
ghost use Rattle.phys_frames.specs.Memory.{AllHome};
ghost use Rattle.record_frames.specs.Sheeted.{ram_of};
ghost use Rattle.kexec_boot.specs.Images.{BeginsFrom};
ghost use Rattle.handover_cli.specs.Due.{WroteFront};
ghost use Rattle.handover_cli.specs.ImageRefusals.{image_line};
ghost use Rattle.handover_cli.specs.Images.{seen};
ghost use Rattle.handover_cli.specs.Resumes.{BeginsWith, IsIllFor, IsSaid, IsUnfitFor, IsWordOf, UnlessFault};
ghost use Rattle.handover_cli.specs.Run.{with_opened};
ghost use Rattle.handover_cli.specs.Stops.{StopsAtImage};

use crate::status::Status;
use ho_io::{Host, put_all};
use image_file::{ImageError, LoadError, load_image};
use kexec_boot::{BootError, boot_image};
use kho_records::hold_pages;
use machine_core::Kernel;
use next_sound::law_of_sound_beginnings;
use phys_frames::Frames;
use place_text::place_text;
use std::alloc::Global;

/// Writes that an image is refused, and why.
fn refuse_image<H: Host>(alloc: Global, host: &mut H, why: &str) -> Status
    ensures whole { result ≡ Status.Image → H.out host.new ≡ behind (H.out host.old) (image_line why.now) }
    ensures part { result ≡ Status.WriteFault → WroteFront (λ text. text ≡ image_line why.now) (H.out host.old) (H.out host.new) }
    ensures silent { result ≡ Status.Memory → H.out host.new ≡ H.out host.old }
    ensures not_done { result ≡ Status.Done → ⊥ }
    ensures not_script { result ≡ Status.Script → ⊥ }
    ensures not_usage { result ≡ Status.Usage → ⊥ }
    ensures not_read { result ≡ Status.ReadFault → ⊥ }
    ensures write_cause { result ≡ Status.WriteFault → Rose (H.write_faults host.old) (H.write_faults host.new) }
    ensures asked_kept { H.asked host.new ≡ H.asked host.old }
    ensures made_kept { H.made host.new ≡ H.made host.old }
    ensures sinks_kept { H.sinks_out host.new ≡ H.sinks_out host.old }
{
    match format!(in alloc; "image refused: {why}\n") {
        Ok(text) => match put_all(host, text.as_bytes()) {
            Ok(()) => Status::Image,
            Err(_) => Status::WriteFault,
        },
        Err(_) => Status::Memory,
    }
}

/// Why no kernel begins with an image.
enum Unfit {
    /// Opening or reading failed.
    Fault,
    /// The bytes or what their frames carry break a rule, and these words say which one, or where.
    Refused(String),
    /// Out of memory.
    Memory,
}

/// That an image is refused for this reason.
fn refused(alloc: Global, why: &str) -> Unfit
    ensures { IsSaid why.now result }
{
    match String::from_str(alloc, why) {
        Ok(words) => Unfit::Refused(words),
        Err(_) => Unfit::Memory,
    }
}

/// Why bytes with this fault are no image, by the fault's word.
fn refused_bytes(alloc: Global, fault: ImageError) -> Unfit
    ensures { IsWordOf fault result }
{
    match fault {
        ImageError::BadHeader => refused(alloc, "header"),
        ImageError::Short => refused(alloc, "short"),
        ImageError::Extra => refused(alloc, "extra"),
        ImageError::Memory => Unfit::Memory,
    }
}

/// All frames of the image of this name, and the number of its entry frame. Its bytes are read straight into the frames.
fn load_named<H: Host>(alloc: Global, name: &str, host: &mut H) -> Result<(Frames, u64), Unfit>
    ensures loaded { IfOk result (λ r. IsLoaded (H.holds host.old name.now) r.0.pages r.1) }
    ensures home { IfOk result (λ r. AllHome r.0) }
    ensures unfit { IfErr result (IsUnfitFor (H.holds host.old name.now)) }
    ensures opened { UnlessFault result (H.asked host.new ≡ with_item (H.asked host.old) (Open, name.now)) }
    ensures read_cause { IfErr result (λ why. why ≡ Unfit.Fault → Rose (H.read_faults host.old) (H.read_faults host.new)) }
    ensures asked { IsOneOf (H.asked host.old) (with_item (H.asked host.old) (Open, name.now)) (H.asked host.new) }
    ensures out_kept { H.out host.new ≡ H.out host.old }
    ensures made_kept { H.made host.new ≡ H.made host.old }
    ensures sinks_kept { H.sinks_out host.new ≡ H.sinks_out host.old }
    ensures writes_kept { H.write_faults host.new ≡ H.write_faults host.old }
{
    let Ok(mut src) = host.open(name) else {
        return Err(Unfit::Fault);
    };
    let loaded = load_image(alloc, &mut src);
    host.shut_src(src);
    match loaded {
        Ok(frames) => Ok(frames),
        Err(error) => Err(match error {
            LoadError::Fault => Unfit::Fault,
            LoadError::Image(fault) => refused_bytes(alloc, fault),
        }),
    }
}

/// The first kernel of a run, which begins with what an image's frames carry.
fn boot_frames(alloc: Global, frames: Frames, entry: u64) -> Result<Kernel, Unfit>
    requires home { AllHome frames }
    ensures begins { IfOk result (BeginsFrom 0 (ram_of frames) entry) }
    ensures unfit { IfErr result (IsIllFor (ram_of frames) entry) }
{
    match boot_image(alloc, frames, entry, 0) {
        Ok(kernel) => Ok(kernel),
        Err(error) => Err(match error {
            BootError::BadImage(place) => match place_text(alloc, place) {
                Ok(words) => Unfit::Refused(words),
                Err(_) => Unfit::Memory,
            },
            BootError::Unbuilt => refused(alloc, "later"),
            BootError::Memory => Unfit::Memory,
        }),
    }
}

/// The first kernel of a run, which begins with what the image of this name carries.
fn boot_named<H: Host>(alloc: Global, name: &str, host: &mut H) -> Result<Kernel, Unfit>
    ensures begins { IfOk result (BeginsWith (H.holds host.old name.now)) }
    ensures unfit { IfErr result (IsUnfitFor (H.holds host.old name.now)) }
    ensures opened { UnlessFault result (H.asked host.new ≡ with_item (H.asked host.old) (Open, name.now)) }
    ensures read_cause { IfErr result (λ why. why ≡ Unfit.Fault → Rose (H.read_faults host.old) (H.read_faults host.new)) }
    ensures asked { IsOneOf (H.asked host.old) (with_item (H.asked host.old) (Open, name.now)) (H.asked host.new) }
    ensures out_kept { H.out host.new ≡ H.out host.old }
    ensures made_kept { H.made host.new ≡ H.made host.old }
    ensures sinks_kept { H.sinks_out host.new ≡ H.sinks_out host.old }
    ensures writes_kept { H.write_faults host.new ≡ H.write_faults host.old }
{
    match load_named(alloc, name, host) {
        Ok((frames, entry)) => {
            hold_pages(&frames);
            law_of_sound_beginnings();
            boot_frames(alloc, frames, entry)
        }
        Err(unfit) => Err(unfit),
    }
}

/// The first kernel of a run that goes on from the image of this name. Where there is none, a line says why.
///
/// # Errors
/// The status with which the run ends: [`Status::Image`] exactly where the image is refused and its line was written.
pub fn begin_image<H: Host>(alloc: Global, name: &str, host: &mut H) -> Result<Kernel, Status>
    ensures begins { IfOk result (BeginsWith (H.holds host.old name.now)) }
    ensures opened { OnOk result ((seen (H.out host.new) (H.made host.new) (H.asked host.new)) ≡ with_opened (seen (H.out host.old) (H.made host.old) (H.asked host.old)) name.now) }
    ensures stopped { IfErr result (StopsAtImage (H.holds host.old name.now) name.now (seen (H.out host.old) (H.made host.old) (H.asked host.old)) (seen (H.out host.new) (H.made host.new) (H.asked host.new))) }
    ensures read_cause { IfErr result (λ s. s ≡ Status.ReadFault → Rose (H.read_faults host.old) (H.read_faults host.new)) }
    ensures write_cause { IfErr result (λ s. s ≡ Status.WriteFault → Rose (H.write_faults host.old) (H.write_faults host.new)) }
    ensures writes_kept { OnOk result (H.write_faults host.new ≡ H.write_faults host.old) }
    ensures asked { IsOneOf (H.asked host.old) (with_item (H.asked host.old) (Open, name.now)) (H.asked host.new) }
    ensures made_kept { H.made host.new ≡ H.made host.old }
    ensures sinks_kept { H.sinks_out host.new ≡ H.sinks_out host.old }
{
    match boot_named(alloc, name, host) {
        Ok(kernel) => Ok(kernel),
        Err(unfit) => Err(match unfit {
            Unfit::Fault => Status::ReadFault,
            Unfit::Refused(words) => refuse_image(alloc, host, words.as_str()),
            Unfit::Memory => Status::Memory,
        }),
    }
}
