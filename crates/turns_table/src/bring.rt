//! The order of the slots that a seat holds.

ghost use Rattle.std.specs.Prelude.{◌≡◌, []};
ghost use Rattle.turns_table.specs.Slots.{pulled};

use atomic_table::Seat;

/// The slot goes before the others that the seat holds, since a step gives back the first one. Nothing is done at run
/// time: the order is the proof's alone.
pub(crate) fn bring<S, V>(seat: &mut Seat<S, V>, _slot: usize)
    ensures { (seat.new.table_id ≡ seat.old.table_id) × (seat.new.id ≡ seat.old.id) × (seat.new.me ≡ (seat.old.me.0, pulled _slot [] seat.old.me.1)) }
{}
