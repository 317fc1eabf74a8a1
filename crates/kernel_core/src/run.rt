//! A board and harts, event by event.

ghost use Rattle.std.specs.Prelude.{◌≡◌, ◌≤◌, ◌<◌, ◌+◌, ◌++◌, List, length, slice_get};
ghost use Rattle.hart_model.specs.declared.probe.Probe.{Probe as LogEntry};
ghost use Rattle.core_model.specs.declared.event.Event.TheVariants as events;
ghost use Rattle.core_model.specs.Events.{hart_of};
ghost use Rattle.core_model.specs.declared.plan.Plan.{Plan as HartPlan};
ghost use Rattle.core_model.specs.Orders.{HartPace, count_on, pace_after};
ghost use Rattle.kernel_core.specs.Running.{IsAfterEvent, event_on, entries_of};
ghost use Rattle.kernel_core.specs.PacedRun.{IsPaceIn, ticked_run};

use crate::board_step::{go, go_paced};
use crate::kernel::Kernel;
use core_model::{Action, Event};
use hart_state::Hart;
use probe_log::Keeper;
use ready_queue::Board;
use std::marker::Model;
use timer_plan::Pace;

/// A board with the harts that take from it and give to it, the kernel that they execute, and how many queue actions there may be.
#[derive(Debug, Drop)]
pub(crate) struct Run {
    pub(crate) board: Board,
    pub(crate) harts: Vec<Hart>,
    pub(crate) kernel: Kernel,
    pub(crate) actions: u64,
}

impl Model for Run {
    ghost use Rattle.core_model.specs.declared.loaded.Loaded.{Loaded};
    ghost use Rattle.kernel_core.specs.Running.{RunValue, IsRunKept};

    ghost Value = { RunValue };

    ghost view = { λ r. record { board = r.board; harts = r.harts.items; kernel = r.kernel; actions = r.actions } };

    ghost invariant = { λ r. (loaded : Loaded) × IsRunKept loaded (record { board = r.board; harts = r.harts.items; kernel = r.kernel; actions = r.actions }) };
}

impl Run {
    /// A step of the hart of this number.
    fn go<K: Keeper>(&mut self, number: u32, keeper: &mut K) -> Option<Action>
        requires hart { number < length self.old.harts }
        requires actions { length self.old.board.lists.order < self.old.actions }
        requires room { 6 ≤ K.room_of keeper.old }
        ensures after { IsAfterEvent self.old self.new (events.Go number) }
        ensures action { result ≡ (event_on self.old (events.Go number)).action }
        ensures log { (log : List LogEntry) → K.stands keeper.old log → K.stands keeper.new (log ++ entries_of self.old (events.Go number)) }
        ensures room { K.room_of keeper.new + length (entries_of self.old (events.Go number)) ≡ K.room_of keeper.old }
    {
        let code = self.kernel.code().words.as_slice();
        let hart = &mut self.harts[number as usize];
        go(&mut self.board, hart, number, code, keeper)
    }

    /// A step of the hart of this number under its plan, with the tick before it where the plan has one there.
    pub(crate) fn go_paced<K: Keeper>(
        &mut self,
        number: u32,
        pace: &mut Pace,
        keeper: &mut K,
    ) -> Option<Action>
        requires hart { number < length self.old.harts }
        requires paced { (plan : HartPlan) × (progress : HartPace) × IsPaceIn self.old number plan progress pace.old }
        requires actions { length self.old.board.lists.order < self.old.actions }
        requires room { 6 ≤ K.room_of keeper.old }
        ensures after { (plan : HartPlan) (progress : HartPace) → IsPaceIn self.old number plan progress pace.old
            → IsAfterEvent (ticked_run plan progress number self.old) self.new (events.Go number) }
        ensures action { (plan : HartPlan) (progress : HartPace) → IsPaceIn self.old number plan progress pace.old
            → result ≡ (event_on (ticked_run plan progress number self.old) (events.Go number)).action }
        ensures pace { (plan : HartPlan) (progress : HartPace) → IsPaceIn self.old number plan progress pace.old
            → IsPaceIn self.new number plan (pace_after progress (count_on (slice_get self.new.harts number)) result) pace.new }
        ensures log { (plan : HartPlan) (progress : HartPace) → IsPaceIn self.old number plan progress pace.old
            → (log : List LogEntry) → K.stands keeper.old log
            → K.stands keeper.new (log ++ entries_of (ticked_run plan progress number self.old) (events.Go number)) }
        ensures room { (plan : HartPlan) (progress : HartPace) → IsPaceIn self.old number plan progress pace.old
            → K.room_of keeper.new + length (entries_of (ticked_run plan progress number self.old) (events.Go number)) ≡ K.room_of keeper.old }
    {
        let code = self.kernel.code().words.as_slice();
        let hart = &mut self.harts[number as usize];
        go_paced(&mut self.board, hart, pace, number, code, keeper)
    }

    /// The timer of the hart of this number becomes pending.
    fn tick(&mut self, number: u32)
        requires hart { number < length self.old.harts }
        ensures after { IsAfterEvent self.old self.new (events.Tick number) }
    {
        self.harts[number as usize].tick();
    }

    /// An event: a step of its hart, or its timer.
    pub(crate) fn apply<K: Keeper>(&mut self, event: Event, keeper: &mut K) -> Option<Action>
        requires hart { hart_of event < length self.old.harts }
        requires actions { length self.old.board.lists.order < self.old.actions }
        requires room { 6 ≤ K.room_of keeper.old }
        ensures after { IsAfterEvent self.old self.new event }
        ensures action { result ≡ (event_on self.old event).action }
        ensures log { (log : List LogEntry) → K.stands keeper.old log → K.stands keeper.new (log ++ entries_of self.old event) }
        ensures room { K.room_of keeper.new + length (entries_of self.old event) ≡ K.room_of keeper.old }
    {
        match event {
            Event::Go(number) => self.go(number, keeper),
            Event::Tick(number) => {
                self.tick(number);
                None
            }
        }
    }
}
