//! What is made ready before a kernel is frozen.

ghost use Rattle.std.specs.Prelude.{◌≡◌, ◌<◌, ℕ, IfOk, IsTrue};
ghost use Rattle.std.specs.Option.{IsSome};
ghost use Rattle.ho_base.specs.Objects.{registry_no, session_no};
ghost use Rattle.ho_base.specs.declared.limits.TheConstants.{OUT_SLOTS};
ghost use Rattle.ho_world.specs.Frozen.{need as frames_needed};
ghost use Rattle.machine_core.specs.Kernels.{object_at};
ghost use Rattle.record_frames.specs.Ram.{Ram};
ghost use Rattle.record_frames.specs.State.{state_in};
ghost use Rattle.kho_laws.specs.Carrying.{can_be_carried};
ghost use Rattle.kernel_carried.specs.Gathered.{IsGathered};
ghost use Rattle.freeze_path.specs.Ready.{HasPool, IsReady, IsSoundKernel};

use folio_bitmaps::Tracker;
use ho_base::limits::OUT_SLOTS;
use ho_base::numbers::{NoMemory, SlotNo};
use kernel_carried::{carried_of, has_no_devices};
use kho_writer::{Prepared, tracker_of};
use machine_core::Kernel;
use record_frames::{Carried, need};
use sound_carried::carried_is_fit;
use std::alloc::Global;

/// All that is there before a kernel is frozen: what is carried, the marks of its runs, the room for writing it, and how
/// many frames its records need.
#[derive(Drop)]
pub struct Ready {
    pub carried: Carried,
    pub tracker: Tracker,
    pub prepared: Prepared,
    pub need: u32,
}

/// The kernel's pool is in a state that has the kernel's shape, and this is one. Nothing is done.
pub(crate) fn has_pool(kernel: &Kernel)
    ensures { HasPool kernel.now }
{
    let _areas = kernel.pool().shape().scratch();
}

/// The registry and each outgoing slot are among the kernel's objects. Nothing is done.
fn have_sessions(kernel: &Kernel)
    ensures registry { IsSome (object_at kernel.now.objects registry_no) }
    ensures slots { (slot : ℕ) → slot < OUT_SLOTS → IsSome (object_at kernel.now.objects (session_no slot)) }
{
    let _registry = kernel.registry();
    for slot in 0..OUT_SLOTS as u8 {
        let _session = kernel.session(SlotNo(slot));
    }
}

/// What a kexec carries of a kernel whose world is sound, which can be carried.
fn gather(alloc: Global, kernel: &Kernel) -> Result<Carried, NoMemory>
    requires sound { IsSoundKernel kernel.now }
    ensures gathered { IfOk result (IsGathered kernel.now) }
    ensures can { IfOk result (λ c. IsTrue (can_be_carried c)) }
{
    carried_is_fit();
    has_pool(kernel);
    carried_of(alloc, kernel)
}

/// How many frames the records of this take.
fn frames_for(carried: &Carried) -> u32
    requires { IsTrue (can_be_carried carried.now) }
    ensures { (ram : Ram) → result ≡ frames_needed (state_in ram carried.now) }
{
    need(carried)
}

/// All that is there to freeze a kernel whose world is sound. It looks at each file, and at none of its bytes.
pub(crate) fn prepare(alloc: Global, kernel: &Kernel) -> Result<Ready, NoMemory>
    requires sound { IsSoundKernel kernel.now }
    ensures { IfOk result (IsReady kernel.now) }
{
    has_no_devices(kernel);
    has_pool(kernel);
    have_sessions(kernel);
    let carried = gather(alloc, kernel)?;
    let tracker = tracker_of(alloc, &carried)?;
    let prepared = Prepared::make(alloc, &carried)?;
    let need = frames_for(&carried);
    Ok(Ready {
        carried,
        tracker,
        prepared,
        need,
    })
}
