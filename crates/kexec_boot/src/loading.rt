//! The program that is booted, in scratch area 0.

ghost use Rattle.std.specs.Prelude.{◌≡◌, ◌≤◌, length};
ghost use Rattle.ho_world.specs.Frozen.{scratch_need as need_of, scratch_have};
ghost use Rattle.phys_frames.specs.Memory.{AllHome};
ghost use Rattle.record_frames.specs.Sheeted.{ram_of};
ghost use Rattle.next_laws.specs.Scratch.{StayBeside};
ghost use Rattle.kexec_boot.specs.Loaded.{with_blob};

use ho_base::numbers::Blob;
use ho_base::shape::Shape;
use phys_frames::Frames;
use scratch_area::{EarlyAlloc, load_blob, scratch_need};

/// Loads a program into the first frames of scratch area 0, which the early allocator hands out. All frames are home,
/// and so they are afterwards. It takes no memory.
pub(crate) fn load(frames: &mut Frames, shape: &Shape, blob: Blob)
    requires home { AllHome frames.old }
    requires count { shape.now.frames ≡ length frames.old.pages }
    requires fits { need_of shape.now blob ≤ scratch_have shape.now }
    ensures home { AllHome frames.new }
    ensures loaded { ram_of frames.new ≡ with_blob shape.now blob (ram_of frames.old) }
    ensures beside { StayBeside shape.now (ram_of frames.old) (ram_of frames.new) }
    ensures of_home { frames.new.home ≡ frames.old.home }
    ensures count { length frames.new.pages ≡ length frames.old.pages }
{
    let _areas = shape.scratch();
    let mut early = EarlyAlloc::new(shape);
    match early.take(scratch_need(shape, blob)) {
        Some(at) => load_blob(frames, at, blob),
        None => unreachable!(),
    }
}
