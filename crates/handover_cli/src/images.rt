//! Writes the images of what ended kernels left.

ghost use Rattle.std.specs.Prelude.{◌≡◌, ◌+◌, ◌≤◌, IfOk, IsTrue, false, option_map, string_bytes};
ghost use Rattle.ho_io.specs.Told.{Rose};
ghost use Rattle.image_file.specs.Image.{image};
ghost use Rattle.handover_cli.specs.Images.{IsUnasked, image_name, seen, with_file};
ghost use Rattle.handover_cli.specs.Kept.{FileSome, KeptAll, KeptSome};

use crate::rebooting::Next;
use ho_io::Host;
use image_file::write_image;
use scratch_area::Handoff;
use std::alloc::{AllocError, Global};

/// What came of an image: all of it was written, or memory was wanted before it, or making or writing it failed.
pub enum Kept {
    All,
    Memory,
    Fault,
}

/// The name of the image of a kernel: the name that was given, a dot, and one more than the kernel's number.
fn name_of(alloc: Global, file: &str, kernel: u8) -> Result<String, AllocError>
    ensures { IfOk result (λ name. string_bytes name ≡ image_name file.now (kernel + 1)) }
{
    let number = u32::from(kernel) + 1;
    format!(in alloc; "{file}.{number}")
}

/// Makes a file of this name on the host, and writes the image of frames into it.
fn write_named<H: Host>(name: &str, handoff: &Handoff, host: &mut H) -> bool
    ensures out { H.out host.new ≡ H.out host.old }
    ensures all { IsTrue result → IsUnasked (with_file (seen (H.out host.old) (H.made host.old) (H.asked host.old)) name.now (image handoff.now.frames.pages handoff.now.entry.0)) (seen (H.out host.new) (H.made host.new) (H.asked host.new)) }
    ensures some { result ≡ false → FileSome (seen (H.out host.old) (H.made host.old) (H.asked host.old)) name.now (image handoff.now.frames.pages handoff.now.entry.0) (seen (H.out host.new) (H.made host.new) (H.asked host.new)) }
    ensures cause { result ≡ false → Rose (H.write_faults host.old) (H.write_faults host.new) }
    ensures counts { H.write_faults host.old ≤ H.write_faults host.new }
    ensures sinks { H.sinks_out host.new ≡ H.sinks_out host.old }
{
    let Ok(mut sink) = host.make(name) else {
        return false;
    };
    match write_image(&mut sink, handoff) {
        Ok(()) => {
            host.shut_dst(sink);
            true
        }
        Err(_) => {
            host.shut_dst(sink);
            false
        }
    }
}

/// Writes the image of what an ended kernel left, where images are asked for under a name.
pub fn keep_image<H: Host>(alloc: Global, next: &Next, images: Option<&str>, host: &mut H) -> Kept
    ensures out { H.out host.new ≡ H.out host.old }
    ensures all { result ≡ Kept.All → KeptAll next.now (option_map (λ file. file.now) images.entry) (seen (H.out host.old) (H.made host.old) (H.asked host.old)) (seen (H.out host.new) (H.made host.new) (H.asked host.new)) }
    ensures memory { result ≡ Kept.Memory → IsUnasked (seen (H.out host.old) (H.made host.old) (H.asked host.old)) (seen (H.out host.new) (H.made host.new) (H.asked host.new)) }
    ensures some { result ≡ Kept.Fault → KeptSome next.now (option_map (λ file. file.now) images.entry) (seen (H.out host.old) (H.made host.old) (H.asked host.old)) (seen (H.out host.new) (H.made host.new) (H.asked host.new)) }
    ensures cause { result ≡ Kept.Fault → Rose (H.write_faults host.old) (H.write_faults host.new) }
    ensures counts { H.write_faults host.old ≤ H.write_faults host.new }
    ensures sinks { H.sinks_out host.new ≡ H.sinks_out host.old }
{
    match next {
        Next::Same(_) => Kept::All,
        Next::Ended(ended) => match images {
            None => Kept::All,
            Some(file) => match name_of(alloc, file, ended.kernel) {
                Ok(name) => {
                    if write_named(name.as_str(), &ended.handoff, host) {
                        Kept::All
                    } else {
                        Kept::Fault
                    }
                }
                Err(_) => Kept::Memory,
            },
        },
    }
}
