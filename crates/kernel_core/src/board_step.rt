//! One step of a hart over a board.

ghost use Rattle.std.specs.Prelude.{◌≡◌, ◌≤◌, ◌<◌, ◌+◌, ◌++◌, List, length, Some};
ghost use Rattle.hart_model.specs.declared.probe.Probe.{Probe as LogEntry};
ghost use Rattle.hart_model.specs.HartStep.{hart_step};
ghost use Rattle.core_model.specs.declared.plan.Plan.{Plan as HartPlan};
ghost use Rattle.core_model.specs.Orders.{HartPace, held_count, pace_after};
ghost use Rattle.hart_advance.specs.Pacing.{IsPaceOf, IsUnderKernel, due_hart};
ghost use Rattle.core_model.specs.BoardStep.{board_step_of};
ghost use Rattle.kernel_core.specs.BoardStep.{IsWanted, CanGo, CanGoPaced, IsAfterBoardStep};

use crate::queue_action::{draw_if_taken, give, take};
use core_model::Action;
use hart_advance::step_paced;
use hart_model::{Did, QueueCall};
use hart_state::Hart;
use probe_log::Keeper;
use ready_queue::{Board, Kind};
use timer_plan::Pace;

/// The queue action that the hart's step comes to.
fn act<K: Keeper>(
    board: &mut Board,
    hart: &mut Hart,
    number: u32,
    code: &[u32],
    call: QueueCall,
    keeper: &mut K,
) -> Action
    requires can { CanGo code.now board.old number hart.old }
    requires wanted { IsWanted call (hart_step code.now hart.old) }
    requires room { 6 ≤ K.room_of keeper.old }
    ensures gone { IsAfterBoardStep (board_step_of code.now board.old.lists number hart.old) board.new.lists hart.new (Some result) }
    ensures spare { length board.new.lists.order + board.new.spare ≡ length board.old.lists.order + board.old.spare }
    ensures log { (log : List LogEntry) → K.stands keeper.old log → K.stands keeper.new (log ++ (board_step_of code.now board.old.lists number hart.old).probes) }
    ensures room { K.room_of keeper.new + length (board_step_of code.now board.old.lists number hart.old).probes ≡ K.room_of keeper.old }
{
    match call {
        QueueCall::Take => take(board, hart, number, code, keeper),
        QueueCall::GiveReady => give(board, hart, number, code, Kind::Ready, keeper),
        QueueCall::GiveDone => give(board, hart, number, code, Kind::Done, keeper),
    }
}

/// A step of the hart of this number, with its queue action.
pub(crate) fn go<K: Keeper>(
    board: &mut Board,
    hart: &mut Hart,
    number: u32,
    code: &[u32],
    keeper: &mut K,
) -> Option<Action>
    requires can { CanGo code.now board.old number hart.old }
    requires room { 6 ≤ K.room_of keeper.old }
    ensures gone { IsAfterBoardStep (board_step_of code.now board.old.lists number hart.old) board.new.lists hart.new result }
    ensures spare { length board.new.lists.order + board.new.spare ≡ length board.old.lists.order + board.old.spare }
    ensures log { (log : List LogEntry) → K.stands keeper.old log → K.stands keeper.new (log ++ (board_step_of code.now board.old.lists number hart.old).probes) }
    ensures room { K.room_of keeper.new + length (board_step_of code.now board.old.lists number hart.old).probes ≡ K.room_of keeper.old }
{
    match hart.step(code, keeper) {
        Did::Wants(call) => Some(act(board, hart, number, code, call, keeper)),
        Did::Ran => None,
        Did::Trapped(_) => None,
        Did::Wedged => None,
    }
}

/// A step of the hart of this number under its plan, with its queue action, which its pace is told of.
pub(crate) fn go_paced<K: Keeper>(
    board: &mut Board,
    hart: &mut Hart,
    pace: &mut Pace,
    number: u32,
    code: &[u32],
    keeper: &mut K,
) -> Option<Action>
    requires kernel { IsUnderKernel code.now hart.old }
    requires can { CanGoPaced code.now board.old number hart.old pace.old }
    requires room { 6 ≤ K.room_of keeper.old }
    ensures gone { (plan : HartPlan) (progress : HartPace) → IsPaceOf plan progress hart.old pace.old
        → IsAfterBoardStep (board_step_of code.now board.old.lists number (due_hart plan progress hart.old)) board.new.lists hart.new result }
    ensures spare { length board.new.lists.order + board.new.spare ≡ length board.old.lists.order + board.old.spare }
    ensures pace { (plan : HartPlan) (progress : HartPace) → IsPaceOf plan progress hart.old pace.old
        → IsPaceOf plan (pace_after progress (held_count hart.new.held) result) hart.new pace.new }
    ensures log { (plan : HartPlan) (progress : HartPace) → IsPaceOf plan progress hart.old pace.old → (log : List LogEntry) → K.stands keeper.old log
        → K.stands keeper.new (log ++ (board_step_of code.now board.old.lists number (due_hart plan progress hart.old)).probes) }
    ensures room { (plan : HartPlan) (progress : HartPace) → IsPaceOf plan progress hart.old pace.old
        → K.room_of keeper.new + length (board_step_of code.now board.old.lists number (due_hart plan progress hart.old)).probes ≡ K.room_of keeper.old }
{
    match step_paced(hart, pace, code, keeper) {
        Did::Wants(call) => {
            let action = act(board, hart, number, code, call, keeper);
            draw_if_taken(pace, &action);
            Some(action)
        }
        Did::Ran | Did::Trapped(_) | Did::Wedged => None,
    }
}
