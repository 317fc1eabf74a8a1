// The right to wait for a turn, and the turn itself.
ghost use Rattle.std.specs.Prelude.{◌≡◌, [], ◌∷◌, None, true};
ghost use Rattle.turn_lock.specs.Stage.{has_turn};
ghost use Rattle.turn_lock.specs.declared.seat_view.Stage.TheVariants.{Idle};

use crate::seat_view::SeatView;
use crate::turned::Turned;
use atomic_table::Seat;

/// A seat's right to wait for a turn at its lock. It has no bytes.
#[derive(Drop)]
pub struct Pass<V: Turned> {
    pub(crate) seat: Seat<Option<V>, SeatView<V::Frame>>,
    ghost idle: { seat.me.0.stage ≡ Idle },
    ghost holds_nothing: { seat.me.1 ≡ [] },
    ghost has_joined_none: { seat.me.0.joined_orders ≡ [] },
}

/// A seat's turn, while the value is lifted out of the lock. It has no bytes.
///
/// It can't be dropped: a turn ends by `lay` or by `put_back`.
pub struct Held<V: Turned> {
    pub(crate) seat: Seat<Option<V>, SeatView<V::Frame>>,
    ghost in_turn: { has_turn seat.me.0.stage ≡ true },
    ghost holds_slot: { seat.me.1 ≡ (0, None) ∷ [] },
    ghost has_joined_none: { seat.me.0.joined_orders ≡ [] },
}
