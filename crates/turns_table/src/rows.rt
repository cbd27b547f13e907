//! Objects in slots.

ghost use Rattle.std.specs.Prelude.{◌≡◌, ℕ, ◌*◌, ◌%◌, ◌^◌, ◌≤◌, [], List, length, map, Some, IfOk, IfErr};
ghost use Rattle.std.specs.Vec.{vec_capacity};

use ho_events::chronicle::Chronicle;
use std::alloc::{AllocError, Global};
use std::snapshot::Snapshot;

/// Twice the number of each object's entries, modulo 2^64.
pub(crate) fn words_of<T: Chronicle>(alloc: Global, objects: &[T]) -> Result<Vec<u64>, AllocError>
    ensures { IfOk result (λ v. v.items ≡ map (λ x. (2 * length (T.history x)) % 2 ^ 64) objects.now) }
{
    let mut words = Vec::with_capacity(alloc, objects.len())?;
    for object in objects {
        words.push_reserved((object.entries().len() as u64).wrapping_mul(2));
    }
    Ok(words)
}

/// The objects in full slots, in their order. They come back where there is no memory.
pub(crate) fn to_slots<T>(alloc: Global, objects: Vec<T>) -> Result<Vec<Option<T>>, Vec<T>>
    ensures ok { IfOk result (λ v. v.items ≡ map (λ x. Some x) objects.items) }
    ensures err { IfErr result (λ v. v.items ≡ objects.items) }
{
    let Ok(mut slots) = Vec::with_capacity(alloc, objects.len()) else {
        return Err(objects);
    };
    let mut rest = objects.into_iter();
    while let Some(object) = rest.next() {
        slots.push_reserved(Some(object));
    }
    rest.destroy_empty();
    Ok(slots)
}

/// The objects of full slots, in `room`. It takes no memory.
pub(crate) fn from_slots<T>(
    slots: Vec<Option<T>>,
    mut room: Vec<T>,
    _like: &Snapshot<Vec<T>>,
) -> Vec<T>
    requires full { slots.items ≡ map (λ x. Some x) _like.now.value.items }
    requires empty { room.items ≡ [] }
    requires room { length slots.items ≤ vec_capacity room }
    ensures { result.items ≡ _like.now.value.items }
{
    let mut rest = slots.into_iter();
    while let Some(slot) = rest.next() {
        room.push_reserved(slot.unwrap());
    }
    rest.destroy_empty();
    room
}
