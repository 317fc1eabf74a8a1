// The rule that every step of a seat keeps.
use crate::seat_view::SeatView;
use crate::turned::Turned;
use atomic_table::TableRule;
use std::marker::PhantomData;

/// What a lock is told once, when it is made.
#[derive(Drop)]
pub struct LockKey<F> {
    /// What the locked value stands for beside an order.
    pub frame: F,
    /// How many seats the lock is for.
    pub seats: u64,
}

/// The rule of a ticket lock round a value of type V.
pub(crate) struct TicketRule<V> {
    value: PhantomData<V>,
}

impl<V: Turned> TableRule<Option<V>, SeatView<V::Frame>, LockKey<V::Frame>> for TicketRule<V> {
    ghost use Rattle.turn_lock.specs.Rule.{IsTicketLock};
    ghost use Rattle.turn_lock.specs.SeatView.{opening_view};

    ghost holds = { IsTicketLock V.stands };

    ghost first = { λ key. opening_view key };
}
