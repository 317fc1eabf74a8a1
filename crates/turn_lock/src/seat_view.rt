// What a seat knows.
use std::collections::LinkedList;

/// Where a seat stands in line. Tickets are counted from 0 without wrapping.
pub enum Stage {
    /// It has no ticket.
    Idle,
    /// It waits with a ticket.
    Waiting(u64),
    /// It has the turn, with the ticket that is served.
    InTurn(u64),
}

/// What a seat knows, of a lock with a frame of type F. It exists in proofs alone: no value of it is
/// ever made, so its numbers have no range there.
pub struct SeatView<F> {
    /// The seat's number, from 0 on.
    pub number: u64,
    /// The lock's frame, or `None` once the seat was joined into seat 0.
    pub frame: Option<F>,
    /// The order of entries, as far as the seat has seen it.
    pub seen: LinkedList<u64>,
    /// Where the seat stands in line.
    pub stage: Stage,
    /// Of seat 0, how many seats were made.
    pub seats_made: u64,
    /// Of seat 0, what the seats that were joined into it had seen, in the order of their numbers
    /// from 1 on.
    pub joined_orders: LinkedList<LinkedList<u64>>,
}
