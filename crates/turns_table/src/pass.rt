//! What a thread takes its turns with.

ghost use Rattle.std.specs.Prelude.{◌≡◌, true};
ghost use Rattle.turns_table.specs.Slots.{IsSound};
ghost use Rattle.turns_table.specs.Kept.{IsLogged, has_at};

use crate::logs::Logs;
use crate::rule::Known;
use atomic_table::Seat;

/// A right to take turns, with agent numbers, their logs, and the numbers that it may still give. It knows what the
/// objects that it took have been. A pass that is dropped takes its numbers with it: the objects then never come back.
#[derive(Drop)]
pub struct Pass<T> {
    pub(crate) seat: Seat<Option<T>, Known<T>>,
    pub(crate) logs: Logs,
    ghost sound: { IsSound seat.table_id.slots seat.me },
    ghost logged: { IsLogged seat.me.0 logs.logs.items logs.has.items },
    ghost numbered: { has_at logs.has.items logs.number ≡ true },
}
