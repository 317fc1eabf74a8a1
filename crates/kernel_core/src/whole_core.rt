//! A core with its log.

ghost use Rattle.std.specs.Prelude.{◌≡◌, ℕ, ◌≤◌, ◌<◌, ◌+◌, ◌++◌, true, false, not, List, length, Some, IsSome, IfSome, is_some};
ghost use Rattle.hart_model.specs.declared.probe.Probe.{Probe as LogEntry};
ghost use Rattle.core_model.specs.Events.{hart_of};
ghost use Rattle.core_model.specs.Orders.{max_steps};
ghost use Rattle.kernel_core.specs.Running.{event_on, entries_of};
ghost use Rattle.kernel_core.specs.History.{History, IsCoreOf, IsSoundCore, given, core_of};
ghost use Rattle.kernel_core.specs.PacedHistory.{PacedHistory, IsPacedCoreOf, has_stopped_at, stepped, acted, next_steps_of, next_entries_of, is_above_before_action};

use crate::counted::Counted;
use crate::run::Run;
use crate::seat::{Seat, stopped_after};
use core_model::{Action, Event};
use probe_log::Keeper;
use ready_queue::Board;
use std::marker::Model;

/// No hart comes to a queue action by more steps, the action's own among them.
const MAX_STEPS: u32 = 5_000;

/// No step makes more entries.
const ENTRIES_EACH: u64 = 6;

/// All harts of a bundle over one queue, with the log of every write of every latch.
#[derive(Drop)]
pub struct Core<K: Keeper> {
    pub(crate) run: Run,
    pub(crate) tasks: u32,
    pub(crate) log: Counted<K>,
    pub(crate) seats: Vec<Seat>,
    pub(crate) is_paced: bool,
}

impl<K: Keeper> Model for Core<K> {
    ghost use Rattle.std.specs.Prelude.{◌≡◌, true};
    ghost use Rattle.kernel_core.specs.History.{CoreValue};
    ghost use Rattle.kernel_core.specs.PacedHistory.{PacedHistory, IsPacedCoreOf};

    ghost Value = { CoreValue K };

    ghost view = { λ c. record { run = c.run; tasks = c.tasks; log = c.log; seats = c.seats.items; is_paced = c.is_paced } };

    // While it goes by the plans, it was told something that goes by them.
    ghost invariant = { λ c. (c.is_paced ≡ true) → (t : PacedHistory)
        × IsPacedCoreOf t (record { run = c.run; tasks = c.tasks; log = c.log; seats = c.seats.items; is_paced = c.is_paced }) };
}

impl<K: Keeper> Core<K> {
    /// An event: a step of its hart, or its timer becomes pending. The hart exists, fewer queue actions were made than the core was booted
    /// for, and the keeper has room for 6 entries. It answers the queue action that the event made, and none exactly where it made none.
    /// A core that was told events and is given this one was told them and this one; whatever a core was told, it is sound; and a keeper
    /// that stood for a list stands for that list with the entries of the event at its end. Takes no memory.
    pub fn apply(&mut self, event: Event) -> Option<Action>
        requires hart { hart_of event < length self.old.run.harts }
        requires actions { length self.old.run.board.lists.order < self.old.run.actions }
        requires room { 6 ≤ K.room_of self.old.log.keeper }
        ensures told { (t : History) → IsCoreOf t self.old → IsCoreOf (given t event) self.new }
        ensures sound { (t : History) → IsCoreOf t self.old → IsSoundCore (given t event) }
        ensures action { result ≡ (event_on self.old.run event).action }
        ensures actions { self.new.run.actions ≡ self.old.run.actions }
        ensures keeper { (before : List LogEntry) → K.stands self.old.log.keeper before → K.stands self.new.log.keeper (before ++ entries_of self.old.run event) }
        ensures room { K.room_of self.new.log.keeper + length (entries_of self.old.run event) ≡ K.room_of self.old.log.keeper }
        ensures paced { self.new.is_paced ≡ false }
        ensures seats { self.new.seats ≡ self.old.seats }
    {
        self.is_paced = false;
        self.run.apply(event, &mut self.log)
    }

    /// Whether this core goes by the plans of its harts: from boot on, until its first `apply`.
    pub fn paced(&self) -> bool
        ensures paced { result ≡ self.now.is_paced }
    {
        self.is_paced
    }

    /// Whether this hart goes on: it does until a step under its plan finds nothing; `apply` doesn't change it. A hart that there isn't goes on.
    pub fn goes_on(&self, hart: u32) -> bool
        ensures goes_on { result ≡ not (has_stopped_at self.now hart) }
    {
        match self.seats.get(hart as usize) {
            Some(seat) => !seat.stopped,
            None => true,
        }
    }

    /// The next step of a hart under its plan, with the tick before it where the plan has one there. The core goes by the plans, the hart
    /// exists and hasn't found nothing, fewer queue actions were made than the core was booted for, and the keeper has room for 6 entries. It
    /// answers the queue action that the step made, and none exactly where it made none. A core that was told something that goes by the plans
    /// was told this step too; it is sound; and a keeper that stood for a list stands for that list with the entries of the step at its end.
    /// Takes no memory.
    pub fn to_step(&mut self, hart: u32) -> Option<Action>
        requires paced { self.old.is_paced ≡ true }
        requires hart { hart < length self.old.run.harts }
        requires goes_on { has_stopped_at self.old hart ≡ false }
        requires actions { length self.old.run.board.lists.order < self.old.run.actions }
        requires room { 6 ≤ K.room_of self.old.log.keeper }
        ensures told { (t : PacedHistory) → IsPacedCoreOf t self.old → IsPacedCoreOf (stepped t hart) self.new }
        ensures action { (t : PacedHistory) → IsPacedCoreOf t self.old → result ≡ (next_steps_of t hart 1).action }
        ensures sound { (t : PacedHistory) → IsPacedCoreOf t self.old → IsSoundCore (stepped t hart).history }
        ensures actions { self.new.run.actions ≡ self.old.run.actions }
        ensures paced { self.new.is_paced ≡ true }
        ensures keeper { (t : PacedHistory) → IsPacedCoreOf t self.old → (before : List LogEntry) → K.stands self.old.log.keeper before
            → K.stands self.new.log.keeper (before ++ next_entries_of t hart 1) }
        ensures room { (t : PacedHistory) → IsPacedCoreOf t self.old
            → K.room_of self.new.log.keeper + length (next_entries_of t hart 1) ≡ K.room_of self.old.log.keeper }
    {
        let seat = &mut self.seats[hart as usize];
        let action = self.run.go_paced(hart, &mut seat.pace, &mut self.log);
        seat.stopped = stopped_after(&action, seat.stopped);
        action
    }

    /// The steps of a hart under its plan, up to and with its next queue action, as long as the keeper has room for 6 entries before each. The
    /// core goes by the plans, the hart exists and hasn't found nothing, and fewer queue actions were made than the core was booted for. It
    /// answers the action, and none exactly where before one of the steps there is less room: then the steps before it were made, and the core
    /// still goes by the plans. With room for 30,000
    /// entries there always is an action, and the steps make no more. A core that was told something that goes by the plans was told these
    /// steps too; it is sound; and a keeper that stood for a list stands for that list with the entries of the steps at its end. Takes no
    /// memory.
    pub fn to_action_within(&mut self, hart: u32) -> Option<Action>
        requires paced { self.old.is_paced ≡ true }
        requires hart { hart < length self.old.run.harts }
        requires goes_on { has_stopped_at self.old hart ≡ false }
        requires actions { length self.old.run.board.lists.order < self.old.run.actions }
        ensures told { IfSome result (λ action. (t : PacedHistory) → IsPacedCoreOf t self.old → IsPacedCoreOf (acted t hart) self.new) }
        ensures action { IfSome result (λ action. (t : PacedHistory) → IsPacedCoreOf t self.old
            → (next_steps_of t hart max_steps).action ≡ Some action) }
        ensures sound { IfSome result (λ action. (t : PacedHistory) → IsPacedCoreOf t self.old → IsSoundCore (acted t hart).history) }
        ensures actions { self.new.run.actions ≡ self.old.run.actions }
        ensures paced { self.new.is_paced ≡ true }
        ensures keeper { IfSome result (λ action. (t : PacedHistory) → IsPacedCoreOf t self.old → (before : List LogEntry)
            → K.stands self.old.log.keeper before → K.stands self.new.log.keeper (before ++ next_entries_of t hart max_steps)) }
        ensures room { IfSome result (λ action. (t : PacedHistory) → IsPacedCoreOf t self.old
            → K.room_of self.new.log.keeper + length (next_entries_of t hart max_steps) ≡ K.room_of self.old.log.keeper) }
        ensures none { (t : PacedHistory) (most : ℕ) → IsPacedCoreOf t self.old
            → K.room_of self.old.log.keeper + length (core_of t.history).log ≡ most + 6
            → is_some result ≡ not (is_above_before_action most t hart) }
        ensures enough { 30000 ≤ K.room_of self.old.log.keeper → IsSome result }
        ensures few { IfSome result (λ action. K.room_of self.old.log.keeper ≤ K.room_of self.new.log.keeper + 30000) }
    {
        for _step in 0..MAX_STEPS {
            if self.log.room() < ENTRIES_EACH {
                return None;
            }
            if let Some(action) = self.to_step(hart) {
                return Some(action);
            }
        }
        unreachable!()
    }

    /// The steps of a hart under its plan, up to and with its next queue action, which it answers. The core goes by the plans, the hart exists
    /// and hasn't found nothing, fewer queue actions were made than the core was booted for, and the keeper has room for 30,000 entries. A
    /// core that was told an order, entry by entry, was told the order with this hart at its end, as [`laws`](crate::laws) has it; it is
    /// sound; a keeper that stood for a list stands for that list with the entries of the steps at its end, which are no more than 30,000.
    /// Takes no memory.
    pub fn to_action(&mut self, hart: u32) -> Action
        requires paced { self.old.is_paced ≡ true }
        requires hart { hart < length self.old.run.harts }
        requires goes_on { has_stopped_at self.old hart ≡ false }
        requires actions { length self.old.run.board.lists.order < self.old.run.actions }
        requires room { 30000 ≤ K.room_of self.old.log.keeper }
        ensures told { (t : PacedHistory) → IsPacedCoreOf t self.old → IsPacedCoreOf (acted t hart) self.new }
        ensures action { (t : PacedHistory) → IsPacedCoreOf t self.old → (next_steps_of t hart max_steps).action ≡ Some result }
        ensures sound { (t : PacedHistory) → IsPacedCoreOf t self.old → IsSoundCore (acted t hart).history }
        ensures actions { self.new.run.actions ≡ self.old.run.actions }
        ensures paced { self.new.is_paced ≡ true }
        ensures keeper { (t : PacedHistory) → IsPacedCoreOf t self.old → (before : List LogEntry) → K.stands self.old.log.keeper before
            → K.stands self.new.log.keeper (before ++ next_entries_of t hart max_steps) }
        ensures room { (t : PacedHistory) → IsPacedCoreOf t self.old
            → K.room_of self.new.log.keeper + length (next_entries_of t hart max_steps) ≡ K.room_of self.old.log.keeper }
        ensures few { K.room_of self.old.log.keeper ≤ K.room_of self.new.log.keeper + 30000 }
    {
        match self.to_action_within(hart) {
            Some(action) => action,
            None => unreachable!(),
        }
    }

    /// The board.
    pub fn board(&self) -> &Board
        ensures board { result.now ≡ self.now.run.board }
    {
        &self.run.board
    }

    /// The keeper.
    pub fn keeper(&self) -> &K
        ensures keeper { result.now ≡ self.now.log.keeper }
    {
        self.log.keeper()
    }
}
