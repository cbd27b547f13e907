//! The places of a kernel's objects.

ghost use Rattle.std.specs.Prelude.{◌≡◌, ◌<◌, IsSome, Some, None, vec_len, slice_set};
ghost use Rattle.machine_core.specs.Kernels.{object_at};

use crate::object::Object;
use ho_base::numbers::ObjectNo;
use std::mem;

/// Takes the object at a number out of its place.
pub(crate) fn take_out(objects: &mut Vec<Option<Object>>, at: ObjectNo) -> Object
    requires within { at.0 < vec_len objects.old }
    requires there { IsSome (object_at objects.old.items at.0) }
    ensures object { object_at objects.old.items at.0 ≡ Some result }
    ensures place { objects.new.items ≡ slice_set objects.old.items at.0 None }
{
    objects[at.0 as usize].take().unwrap()
}

/// Puts an object into its empty place.
pub(crate) fn put_back(objects: &mut Vec<Option<Object>>, at: ObjectNo, object: Object)
    requires within { at.0 < vec_len objects.old }
    requires empty { object_at objects.old.items at.0 ≡ None }
    ensures place { objects.new.items ≡ slice_set objects.old.items at.0 (Some object) }
{
    match mem::replace(&mut objects[at.0 as usize], Some(object)) {
        None => {}
        Some(_) => unreachable!(),
    }
}
