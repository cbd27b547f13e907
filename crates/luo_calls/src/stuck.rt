//! A turn that can't be taken.

ghost use Rattle.std.specs.Prelude.{◌≡◌, []};
ghost use Rattle.machine_core.specs.Agents.{Agent};
ghost use Rattle.luo_calls.specs.Stuck.{CanRelease, Released};

use ho_base::numbers::ObjectNo;
use machine_core::{Halt, Object, Reach};
use phys_frames::folio::Folio;
use std::alloc::Global;

/// Why a turn can't be taken. Where the halt speaks of an object, or memory ran out with it in hand, it is still in
/// hand: what else the command has in hand goes back before it, so that it is the last one.
pub struct Stuck {
    pub halt: Halt,
    pub held: Option<(ObjectNo, Object)>,
}

/// Gives back what is still in hand, as it was.
pub fn release<R: Reach>(reach: &mut R, stuck: Stuck) -> Halt
    requires { CanRelease stuck.held (R.shown reach.old) }
    ensures halt { result ≡ stuck.halt }
    ensures released { Released stuck.held (R.shown reach.old) (R.shown reach.new) }
{
    let Stuck { halt, held } = stuck;
    if let Some((number, object)) = held {
        reach.end(number, object, None);
    }
    halt
}

/// A command that stops in the middle, with the folios that it had in hand.
pub struct Stopped {
    pub folios: Vec<Folio>,
    pub stuck: Stuck,
}

/// A command that stops in the middle with no folio in hand.
pub fn empty_handed(alloc: Global, stuck: Stuck) -> Stopped
    ensures folios { result.folios.items ≡ [] }
    ensures stuck { result.stuck ≡ stuck }
{
    Stopped {
        folios: Vec::new(alloc),
        stuck,
    }
}
