// The lock.
ghost use Rattle.std.specs.Prelude.{◌≡◌, ◌≤◌};

use crate::rule::{LockKey, TicketRule};
use crate::seat_view::SeatView;
use crate::turned::Turned;
use atomic_table::Table;
use std::alloc::Global;

/// The word that has the next ticket, modulo 2^64.
pub(crate) const TICKET: usize = 0;

/// The word that has the ticket served, modulo 2^64.
pub(crate) const SERVING: usize = 1;

/// A lock round a value of type V, which seats with a `Pass` take out in turn.
#[derive(Drop)]
pub struct Turns<V: Turned> {
    pub(crate) table: Table<
        Option<V>,
        SeatView<V::Frame>,
        LockKey<V::Frame>,
        TicketRule<V>,
        Global,
    >,
    ghost some_seat: { 1 ≤ table.shared.key.seats },
    ghost two_words: { table.shared.table_id.words ≡ 2 },
    ghost one_slot: { table.shared.table_id.slots ≡ 1 },
}
