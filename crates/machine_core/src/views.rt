//! The objects of a kernel at rest, each by its kind.

ghost use Rattle.std.specs.Prelude.{◌≡◌, ◌+◌, ◌<◌, Some};
ghost use Rattle.ho_base.specs.Objects.{pool_no, registry_no, session_no, file_no};
ghost use Rattle.ho_base.specs.declared.limits.TheConstants.{FILES, IN_SLOTS, OUT_SLOTS};
ghost use Rattle.machine_core.specs.Kernels.{object_at};

use crate::kernel::Kernel;
use crate::object::Object;
use ho_base::numbers::{FileNo, ObjectNo, SlotNo};
use memfd_file::FileObject;
use pool_core::Pool;
use registry_core::Registry;
use session_core::SessionObject;

impl Kernel {
    /// The pool.
    pub fn pool(&self) -> &Pool
        ensures at { object_at self.now.objects pool_no ≡ Some (Object.Pool result.now) }
        ensures shape { result.now.shape ≡ self.now.shape }
        ensures home { result.now.home ≡ self.now.home }
    {
        match &self.objects[0] {
            Some(Object::Pool(pool)) => pool,
            _ => unreachable!(),
        }
    }

    /// The registry.
    pub fn registry(&self) -> &Registry
        ensures { object_at self.now.objects registry_no ≡ Some (Object.Registry result.now) }
    {
        match &self.objects[1] {
            Some(Object::Registry(registry)) => registry,
            _ => unreachable!(),
        }
    }

    /// A session slot.
    pub fn session(&self, slot: SlotNo) -> &SessionObject
        requires slot { slot.0 < OUT_SLOTS + IN_SLOTS }
        ensures at { object_at self.now.objects (session_no slot.0) ≡ Some (Object.Session result.now) }
    {
        match &self.objects[ObjectNo::of_session(slot).0 as usize] {
            Some(Object::Session(session)) => session,
            _ => unreachable!(),
        }
    }

    /// A file.
    pub fn file(&self, file: FileNo) -> &FileObject
        requires file { file.0 < FILES }
        ensures at { object_at self.now.objects (file_no file.0) ≡ Some (Object.File result.now) }
    {
        match &self.objects[ObjectNo::of_file(file).0 as usize] {
            Some(Object::File(file)) => file,
            _ => unreachable!(),
        }
    }
}
