//! What is known of all files of a kernel.

ghost use Rattle.std.specs.Prelude.{◌≡◌, []};
ghost use Rattle.ho_base.specs.declared.limits.TheConstants.{OUT_SLOTS};
ghost use Rattle.ho_world.specs.Frozen.{preserved_devices};
ghost use Rattle.ho_world.specs.World.{World};
ghost use Rattle.kernel_carried.specs.Gathered.{Agrees, AreMemfds, ListFiles};

use ho_base::limits::{FILES, OUT_SLOTS};
use ho_base::numbers::{FileNo, SlotNo};
use machine_core::Kernel;

/// Each file is a memfd of an order that runs may have. Nothing is done.
fn are_memfds(kernel: &Kernel)
    ensures { AreMemfds kernel.now.objects }
{
    for file in 0..FILES as u16 {
        let _facts = kernel.file(FileNo(file)).facts();
    }
}

/// What outgoing slots list are numbers of files. Nothing is done.
fn list_files(kernel: &Kernel)
    ensures { (w : World) → Agrees w kernel.now.objects → ListFiles w OUT_SLOTS }
{
    for slot in 0..OUT_SLOTS as u8 {
        let _files = kernel.session(SlotNo(slot)).files();
    }
}

/// No outgoing session lists a device file, and each file is a memfd of an order that runs may have. Nothing is done; it
/// costs the number of files and slots.
pub fn has_no_devices(kernel: &Kernel)
    ensures memfds { AreMemfds kernel.now.objects }
    ensures devices { (w : World) → Agrees w kernel.now.objects → preserved_devices w ≡ [] }
{
    are_memfds(kernel);
    list_files(kernel);
}
