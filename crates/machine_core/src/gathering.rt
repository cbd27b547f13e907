//! How a kernel's frames come home, with what they hold.

ghost use Rattle.std.specs.Prelude.{◌≡◌, ◌<◌, ℕ, false, Some, length, option_map};
ghost use Rattle.std.specs.List.{All};
ghost use Rattle.ho_events.specs.Pool.{is_owned};
ghost use Rattle.phys_frames.specs.Memory.{AllHome, AreOf, IsHome, page_at};
ghost use Rattle.pool_core.specs.PoolValues.{PoolIs};
ghost use Rattle.machine_core.specs.Gathered.{HasMore, HoldsFile, HoldsFiles, IsAccounted};
ghost use Rattle.machine_core.specs.Kernels.{IsLeft};
ghost use Rattle.machine_core.specs.Worlds.{state_of};

use crate::kernel::Kernel;
use crate::object::Object;
use crate::places::take_out;
use ho_base::numbers::ObjectNo;
use phys_frames::{Folio, Frames};
use pool_core::Pool;

impl Kernel {
    /// The frames of the kernel's machine, after its objects ended and these folios came home: each run of a file has
    /// the file's bytes of its index, with zeros past them, and the frame of each folio has the folio's bytes. Where
    /// each owned frame is one of these, every frame is home. It takes no memory.
    pub fn gather(self, folios: Vec<Folio>) -> Frames
        requires of_home { AreOf self.home folios.items }
        requires single { All (λ f. f.order.0 ≡ 0) folios.items }
        ensures home { result.home ≡ self.home }
        ensures count { length result.pages ≡ self.shape.frames }
        ensures files { HoldsFiles result self.objects }
        ensures folios { All (λ g. page_at result g.first ≡ Some g.bytes) folios.items }
        ensures gathered { IsAccounted self.shape.frames self.objects folios.items → AllHome result }
    {
        let Kernel {
            number: _,
            updates: _,
            shape: _,
            home: _,
            mut objects,
            labels: _,
            base: _,
        } = self;
        match take_out(&mut objects, ObjectNo::POOL) {
            Object::Pool(pool) => bring_home(pool, objects, folios),
            _ => unreachable!(),
        }
    }
}

/// The frames of a pool, after all other objects ended and folios came home: each frame that no run of the pool owns is
/// home, and so are the runs of the files and the folios, with their bytes.
pub(crate) fn bring_home(pool: Pool, objects: Vec<Option<Object>>, folios: Vec<Folio>) -> Frames
    requires objects { All (IsLeft pool.home) objects.items }
    requires folios { AreOf pool.home folios.items }
    ensures home { result.home ≡ pool.home }
    ensures count { length result.pages ≡ pool.shape.frames }
    ensures free { PoolIs pool (λ s. (p : ℕ) → p < pool.shape.frames → is_owned s p ≡ false → IsHome result (record { 0 = p })) }
    ensures files { HoldsFiles result objects.items }
    ensures folios { All (λ g. g.order.0 ≡ 0 → page_at result g.first ≡ Some g.bytes) folios.items }
{
    let mut frames = pool.dismantle();
    give_objects(objects, &mut frames);
    give_folios(folios, &mut frames);
    frames
}

/// Ends the objects, and brings the folios of the files home.
fn give_objects(mut objects: Vec<Option<Object>>, frames: &mut Frames)
    requires { All (IsLeft frames.old.home) objects.items }
    ensures frames { HasMore frames.old frames.new }
    ensures files { HoldsFiles frames.new objects.items }
{
    while let Some(object) = objects.pop() {
        give_object(object, frames);
    }
    objects.destroy_empty();
}

/// Ends an object; a file's folios come home.
fn give_object(object: Option<Object>, frames: &mut Frames)
    requires { IsLeft frames.old.home object }
    ensures frames { HasMore frames.old frames.new }
    ensures file { HoldsFile frames.new (option_map state_of object) }
{
    match object {
        None => {}
        Some(Object::Registry(registry)) => drop(registry),
        Some(Object::Session(session)) => drop(session),
        Some(Object::File(file)) => file.scrap(frames),
        _ => unreachable!(),
    }
}

/// Brings folios home.
fn give_folios(mut folios: Vec<Folio>, frames: &mut Frames)
    requires { All (λ f. f.home ≡ frames.old.home) folios.items }
    ensures frames { HasMore frames.old frames.new }
    ensures pages { All (λ g. g.order.0 ≡ 0 → page_at frames.new g.first ≡ Some g.bytes) folios.items }
{
    while let Some(folio) = folios.pop() {
        give_folio(folio, frames);
    }
    folios.destroy_empty();
}

/// Brings a folio home.
fn give_folio(folio: Folio, frames: &mut Frames)
    requires { folio.home ≡ frames.old.home }
    ensures frames { HasMore frames.old frames.new }
    ensures page { folio.order.0 ≡ 0 → page_at frames.new folio.first ≡ Some folio.bytes }
{
    let _bytes = folio.bytes();
    frames.give(folio);
}
