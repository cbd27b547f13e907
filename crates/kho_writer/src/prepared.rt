//! The room that writing takes.

ghost use Rattle.std.specs.Prelude.{◌≡◌, IfOk, IsTrue};
ghost use Rattle.kho_laws.specs.Carrying.{can_be_carried};
ghost use Rattle.kho_writer.specs.Folios.{front_count};

use folio_bitmaps::chunk_count;
use ho_base::numbers::{NoMemory, Pfn};
use record_frames::{Carried, need};
use std::alloc::Global;
use std::marker::Model;

/// All the room that writing takes: a place for the number of each frame of the entry and the records, which the chain
/// marks. Contracts see how many these are.
#[derive(Debug, Drop)]
pub struct Prepared {
    pub(crate) numbers: Vec<Pfn>,
}

impl Model for Prepared {
    ghost use Rattle.std.specs.Prelude.{ℕ, length};

    ghost Value = { ℕ };

    ghost view = { λ p. length p.numbers.items };
}

impl Prepared {
    /// The room for writing this. [`NoMemory`] where it can't be had. It costs the number of frames that the entry and
    /// the records take.
    pub fn make(alloc: Global, carried: &Carried) -> Result<Prepared, NoMemory>
        requires { IsTrue (can_be_carried carried.now) }
        ensures { IfOk result (λ p. p ≡ front_count carried.now) }
    {
        let count = front_frames(carried);
        match vec![in alloc; Pfn(0); count as usize] {
            Ok(numbers) => Ok(Prepared { numbers }),
            Err(_) => Err(NoMemory),
        }
    }
}

/// How many frames the entry and the records take.
fn front_frames(carried: &Carried) -> u32
    requires { IsTrue (can_be_carried carried.now) }
    ensures { result ≡ front_count carried.now }
{
    need(carried) - chunk_count(carried.shape.frames())
}
