//! What one kernel leaves to the next.

ghost use Rattle.std.specs.Prelude.{◌≡◌, length};
ghost use Rattle.phys_frames.specs.Memory.{AllHome};
ghost use Rattle.scratch_area.specs.HandoffRule.{all_home_prop};

use ho_base::numbers::Pfn;
use ho_base::shape::Shape;
use phys_frames::Frames;

/// What one kernel leaves to the next: the frames with their bytes, the shape of the machine, and the frame at which
/// what was kept begins. It can't be let go, since the frames can't.
pub struct Handoff {
    /// The frames of the machine. All of them are home.
    pub frames: Frames,
    /// The shape of the machine, which has as many frames.
    pub shape: Shape,
    /// The frame that the next kernel reads first.
    pub entry: Pfn,
    pub ghost home: { AllHome frames } by { all_home_prop frames },
    pub ghost fits: { shape.frames ≡ length frames.pages },
}
