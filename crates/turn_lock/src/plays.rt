// What each kind of step tells the seat that makes it.
ghost use Rattle.turn_lock.specs.SeatView.{view_after_split, new_seat_view, view_after_join, spent_view};
ghost use Rattle.turn_lock.specs.Plays.{DrawsTicket, LooksForTurn, EndsWithEntry, EndsWithoutEntry};

use crate::seat_view::SeatView;
use crate::turned::Turned;
use atomic_table::{Join, Play, Split};
use std::marker::PhantomData;

/// The seat draws a ticket.
pub(crate) struct Draw;

impl<T, F> Play<Option<T>, SeatView<F>> for Draw {
    ghost then = { DrawsTicket };
}

/// The seat looks whether it has the turn.
pub(crate) struct Look<V> {
    value: PhantomData<V>,
}

impl<V: Turned> Play<Option<V>, SeatView<V::Frame>> for Look<V> {
    ghost then = { LooksForTurn V.stands };
}

/// The seat ends its turn with an entry.
pub(crate) struct EndWithEntry;

impl<T, F> Play<Option<T>, SeatView<F>> for EndWithEntry {
    ghost then = { EndsWithEntry };
}

/// The seat ends its turn without an entry.
pub(crate) struct EndWithoutEntry;

impl<T, F> Play<Option<T>, SeatView<F>> for EndWithoutEntry {
    ghost then = { EndsWithoutEntry };
}

/// Seat 0 makes another seat.
pub(crate) struct MakeSeat;

impl<F> Split<SeatView<F>> for MakeSeat {
    ghost left = { view_after_split };

    ghost right = { new_seat_view };
}

/// Seat 0 takes in another seat.
pub(crate) struct JoinSeat;

impl<F> Join<SeatView<F>> for JoinSeat {
    ghost both = { view_after_join };

    ghost spent = { spent_view };
}
