// How a seat takes its turn.
ghost use Rattle.std.specs.Prelude.{◌≡◌, [], ◌∷◌, ◌++◌, Option, Some, None};
ghost use Rattle.turn_lock.specs.declared.seat_view.Stage.TheVariants.{Idle};
ghost use Rattle.turn_lock.specs.Order.{KnowsOwnEntries};
ghost use Rattle.turn_lock.specs.Stage.{IsWaitingWith};
ghost use Rattle.turn_lock.specs.SeatView.{view_at};
ghost use Rattle.turn_lock.specs.Plays.{HasTurnNow};
ghost use Rattle.turn_lock.specs.Passes.{IsPassOf, IsHeldOf, pass_number, pass_seen, held_number, held_order, lock_frame};

use crate::passes::{Held, Pass};
use crate::plays::{Draw, EndWithEntry, EndWithoutEntry, Look};
use crate::seat_view::SeatView;
use crate::turned::Turned;
use crate::turns::{SERVING, TICKET, Turns};
use atomic_table::Seat;
use std::sync::Wait;

/// A sleeper compares the low 32 bits of a word.
const SLEEPER_BITS: u64 = 0xffff_ffff;

impl<V: Turned> Turns<V> {
    // Draws a ticket, and returns its word.
    fn draw_ticket(&self, seat: &mut Seat<Option<V>, SeatView<V::Frame>>) -> u64
        requires table { seat.old.table_id ≡ self.now.table.shared.table_id }
        requires frame { seat.old.me.0.frame ≡ Some (lock_frame self.now) }
        requires idle { seat.old.me.0.stage ≡ Idle }
        ensures table { seat.new.table_id ≡ seat.old.table_id }
        ensures ticket { IsWaitingWith seat.new.me.0.stage result }
        ensures same { seat.new.me ≡ (view_at seat.old.me.0 seat.new.me.0.stage, seat.old.me.1) }
    {
        self.table.shared.fetch_add::<Draw>(seat, TICKET, 1)
    }

    // Sleeps until the seat's ticket is served.
    fn wait_for_turn<R: Wait>(
        &self,
        rt: &R,
        seat: &mut Seat<Option<V>, SeatView<V::Frame>>,
        ticket: u64,
    )
        requires table { seat.old.table_id ≡ self.now.table.shared.table_id }
        requires frame { seat.old.me.0.frame ≡ Some (lock_frame self.now) }
        requires waits { IsWaitingWith seat.old.me.0.stage ticket }
        ensures table { seat.new.table_id ≡ seat.old.table_id }
        ensures turn { HasTurnNow V.stands seat.old.me seat.new.me }
    {
        let shared = &self.table.shared;
        for _ in rt.forever() {
            let serving = shared.load::<Look<V>>(seat, SERVING);
            if serving == ticket {
                return;
            }
            shared.park(rt, SERVING, (serving & SLEEPER_BITS) as u32);
        }
        unreachable!()
    }

    // Puts a value or nothing into the slot that the seat holds, and returns what was there.
    fn exchange(&self, seat: &mut Seat<Option<V>, SeatView<V::Frame>>, new: Option<V>) -> Option<V>
        requires table { seat.old.table_id ≡ self.now.table.shared.table_id }
        requires holds_slot { (old : Option V) × (seat.old.me.1 ≡ (0, old) ∷ []) }
        ensures table { seat.new.table_id ≡ seat.old.table_id }
        ensures found { seat.old.me.1 ≡ (0, result) ∷ [] }
        ensures stored { seat.new.me ≡ (seat.old.me.0, (0, new) ∷ []) }
    {
        self.table.shared.exchange(seat, 0, new)
    }

    // Puts the value back into the empty slot that the seat holds.
    fn store(&self, seat: &mut Seat<Option<V>, SeatView<V::Frame>>, value: V)
        requires table { seat.old.table_id ≡ self.now.table.shared.table_id }
        requires holds_slot { seat.old.me.1 ≡ (0, None) ∷ [] }
        ensures table { seat.new.table_id ≡ seat.old.table_id }
        ensures stored { seat.new.me ≡ (seat.old.me.0, (0, Some value) ∷ []) }
    {
        match self.exchange(seat, Some(value)) {
            None => {}
            Some(_) => unreachable!(),
        }
    }

    /// Waits for the seat's turn, and takes the value out of the lock.
    ///
    /// No other seat has a turn until this one ends its own. A seat that waits sleeps until the
    /// end of a turn wakes it.
    pub fn lift<R: Wait>(&self, rt: &R, pass: Pass<V>) -> (V, Held<V>)
        requires { IsPassOf self.now pass }
        ensures lock { IsHeldOf self.now result.1 }
        ensures number { held_number result.1 ≡ pass_number pass }
        ensures value { V.stands result.0 (lock_frame self.now) (held_order result.1) }
        ensures known { KnowsOwnEntries (pass_number pass) (pass_seen pass) (held_order result.1) }
    {
        let Pass { mut seat } = pass;
        let ticket = self.draw_ticket(&mut seat);
        self.wait_for_turn(rt, &mut seat, ticket);
        match self.exchange(&mut seat, None) {
            Some(value) => (value, Held { seat }),
            None => unreachable!(),
        }
    }

    /// Lays the value back, and ends the turn with an entry of the seat's number. Waits for nobody.
    pub fn lay(&self, value: V, held: Held<V>) -> Pass<V>
        requires lock { IsHeldOf self.now held }
        requires value { V.stands value (lock_frame self.now) (held_order held ++ held_number held ∷ []) }
        ensures lock { IsPassOf self.now result }
        ensures number { pass_number result ≡ held_number held }
        ensures seen { pass_seen result ≡ held_order held ++ held_number held ∷ [] }
    {
        let Held { mut seat } = held;
        self.store(&mut seat, value);
        let shared = &self.table.shared;
        shared.fetch_add::<EndWithEntry>(&mut seat, SERVING, 1);
        shared.wake_all(SERVING);
        Pass { seat }
    }

    /// Puts the value back, and ends the turn without an entry. Waits for nobody.
    pub fn put_back(&self, value: V, held: Held<V>) -> Pass<V>
        requires lock { IsHeldOf self.now held }
        requires value { V.stands value (lock_frame self.now) (held_order held) }
        ensures lock { IsPassOf self.now result }
        ensures number { pass_number result ≡ held_number held }
        ensures seen { pass_seen result ≡ held_order held }
    {
        let Held { mut seat } = held;
        self.store(&mut seat, value);
        let shared = &self.table.shared;
        shared.fetch_add::<EndWithoutEntry>(&mut seat, SERVING, 1);
        shared.wake_all(SERVING);
        Pass { seat }
    }
}
