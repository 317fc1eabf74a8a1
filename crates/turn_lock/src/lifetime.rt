// How a lock is made with its seats, and how it ends.
ghost use Rattle.std.specs.Prelude.{◌≡◌, ℕ, ◌≤◌, List, [], IfOk, map, vec_len};
ghost use Rattle.turn_lock.specs.Order.{IsWholeOrder};
ghost use Rattle.turn_lock.specs.SeatView.{opening_view};
ghost use Rattle.turn_lock.specs.Rule.{HasJoinedAll, StandsForWhole};
ghost use Rattle.turn_lock.specs.Passes.{AreNewPasses, ArePassesInOrder, pass_seen, lock_frame, lock_seats};

use crate::passes::Pass;
use crate::plays::{JoinSeat, MakeSeat};
use crate::rule::{LockKey, TicketRule};
use crate::seat_view::SeatView;
use crate::turned::Turned;
use crate::turns::Turns;
use atomic_table::{Seat, Table};
use std::alloc::{AllocError, Global};

impl<V: Turned> Turns<V> {
    // A lock with seat 0.
    fn with_first_seat(
        alloc: Global,
        value: V,
        frame: V::Frame,
        seats: u32,
    ) -> Result<(Turns<V>, Seat<Option<V>, SeatView<V::Frame>>), AllocError>
        requires seats { (1 ≤ seats) × (seats ≤ 8) }
        requires value { V.stands value frame [] }
        ensures frame { IfOk result (λ made. lock_frame made.0 ≡ frame) }
        ensures seats { IfOk result (λ made. lock_seats made.0 ≡ seats) }
        ensures table { IfOk result (λ made. made.1.table_id ≡ made.0.table.shared.table_id) }
        ensures first { IfOk result (λ made. made.1.me ≡ (opening_view made.0.table.shared.key, [])) }
    {
        let mut slots = Vec::with_capacity(alloc, 1)?;
        slots.push_reserved(Some(value));
        let key = LockKey {
            frame,
            seats: seats as u64,
        };
        match Table::new(alloc, &[0, 0], slots, &key) {
            Ok((table, seat)) => Ok((Turns { table }, seat)),
            Err(_) => Err(AllocError),
        }
    }

    // The passes of all seats, made from seat 0.
    fn deal(
        &self,
        alloc: Global,
        mut first: Seat<Option<V>, SeatView<V::Frame>>,
        seats: u32,
    ) -> Result<Vec<Pass<V>>, AllocError>
        requires seats { (lock_seats self.now ≡ seats) × (1 ≤ seats) }
        requires table { first.table_id ≡ self.now.table.shared.table_id }
        requires first { first.me ≡ (opening_view self.now.table.shared.key, []) }
        ensures count { IfOk result (λ passes. vec_len passes ≡ seats) }
        ensures passes { IfOk result (λ passes. AreNewPasses self.now passes.items) }
    {
        let mut passes = Vec::with_capacity(alloc, seats as usize)?;
        for _number in 1..seats {
            let seat = self.table.shared.split_seat::<MakeSeat>(&mut first);
            passes.push_reserved(Pass { seat });
        }
        passes.insert(0, Pass { seat: first })?;
        Ok(passes)
    }

    /// A lock round the value, for 1 to 8 seats, and the pass of each seat in the order of their
    /// numbers, from 0 on.
    ///
    /// # Errors
    ///
    /// `AllocError` where memory runs out. The value and the frame are dropped then.
    pub fn new(
        alloc: Global,
        value: V,
        frame: V::Frame,
        seats: u32,
    ) -> Result<(Turns<V>, Vec<Pass<V>>), AllocError>
        requires seats { (1 ≤ seats) × (seats ≤ 8) }
        requires value { V.stands value frame [] }
        ensures frame { IfOk result (λ made. lock_frame made.0 ≡ frame) }
        ensures seats { IfOk result (λ made. lock_seats made.0 ≡ seats) }
        ensures count { IfOk result (λ made. vec_len made.1 ≡ seats) }
        ensures passes { IfOk result (λ made. AreNewPasses made.0 made.1.items) }
    {
        let (lock, first) = Turns::with_first_seat(alloc, value, frame, seats)?;
        let passes = lock.deal(alloc, first, seats)?;
        Ok((lock, passes))
    }

    // The value of a table whose other seats were all joined into seat 0.
    fn value_of_table(
        table: Table<Option<V>, SeatView<V::Frame>, LockKey<V::Frame>, TicketRule<V>, Global>,
        first: Seat<Option<V>, SeatView<V::Frame>>,
    ) -> V
        requires table { first.table_id ≡ table.shared.table_id }
        requires slots { table.shared.table_id.slots ≡ 1 }
        requires first { HasJoinedAll table.shared.key first.me.0 }
        ensures { StandsForWhole V.stands table.shared.key first.me.0 result }
    {
        let mut closed = table.close_with(first);
        let value = closed.take(0);
        closed.free();
        match value {
            Some(value) => value,
            None => unreachable!(),
        }
    }

    /// Ends the lock, and gives its value. It takes the passes of all its seats, in the order of
    /// their numbers.
    ///
    /// The value stands for the whole order, which is the longest that a pass has seen.
    pub fn close(self, mut passes: Vec<Pass<V>>) -> V
        requires count { vec_len passes ≡ lock_seats self }
        requires passes { ArePassesInOrder self passes.items }
        ensures { (order : List ℕ)
            × V.stands result (lock_frame self) order
            × IsWholeOrder order (map pass_seen passes.items) }
    {
        let Turns { table } = self;
        let Pass { seat: mut first } = passes.remove(0);
        for pass in passes {
            let Pass { seat } = pass;
            table.shared.join_seat::<JoinSeat>(&mut first, seat);
        }
        Turns::value_of_table(table, first)
    }
}
