//! The queue action that a hart comes to, on a board.

ghost use Rattle.std.specs.Prelude.{◌≡◌, ◌≤◌, ◌+◌, ◌++◌, List, length, Some};
ghost use Rattle.hart_model.specs.declared.probe.Probe.{Probe as LogEntry};
ghost use Rattle.core_model.specs.BoardStep.{board_step_of};
ghost use Rattle.kernel_core.specs.BoardStep.{drawn_by, CanTake, CanGive, IsAfterBoardStep};

use core_model::Action;
use hart_state::Hart;
use probe_log::Keeper;
use ready_queue::{Board, Kind};
use timer_plan::Pace;

/// The take of the hart of this number, whose next step asks for it, and the answer to it. The hart has nothing out, the board has spare for
/// what is out and two more, and the keeper has room for 6 entries. The board, the hart, the entries and the action are those of the step; a
/// take uses one of the spare. Takes no memory.
pub fn take<K: Keeper>(
    board: &mut Board,
    hart: &mut Hart,
    number: u32,
    code: &[u32],
    keeper: &mut K,
) -> Action
    requires can { CanTake code.now board.old number hart.old }
    requires room { 6 ≤ K.room_of keeper.old }
    ensures gone { IsAfterBoardStep (board_step_of code.now board.old.lists number hart.old) board.new.lists hart.new (Some result) }
    ensures spare { length board.new.lists.order + board.new.spare ≡ length board.old.lists.order + board.old.spare }
    ensures log { (log : List LogEntry) → K.stands keeper.old log → K.stands keeper.new (log ++ (board_step_of code.now board.old.lists number hart.old).probes) }
    ensures room { K.room_of keeper.new + length (board_step_of code.now board.old.lists number hart.old).probes ≡ K.room_of keeper.old }
{
    let got = board.take(number);
    let action = match &got {
        Some(context) => Action::Took(context.body().task_no()),
        None => Action::Empty,
    };
    hart.answer_take(code, got, keeper);
    action
}

/// The give of the hart of this number, whose next step gives back what it holds as one of this kind, and the answer to it. What it holds is
/// out on it and may be given so, and the keeper has room for 6 entries; a board always has spare for what is out. The board, the hart, the
/// entries and the action are those of the step; a give uses one of the spare. Takes no memory.
pub fn give<K: Keeper>(
    board: &mut Board,
    hart: &mut Hart,
    number: u32,
    code: &[u32],
    kind: Kind,
    keeper: &mut K,
) -> Action
    requires can { CanGive code.now board.old number hart.old kind }
    requires room { 6 ≤ K.room_of keeper.old }
    ensures gone { IsAfterBoardStep (board_step_of code.now board.old.lists number hart.old) board.new.lists hart.new (Some result) }
    ensures spare { length board.new.lists.order + board.new.spare ≡ length board.old.lists.order + board.old.spare }
    ensures log { (log : List LogEntry) → K.stands keeper.old log → K.stands keeper.new (log ++ (board_step_of code.now board.old.lists number hart.old).probes) }
    ensures room { K.room_of keeper.new + length (board_step_of code.now board.old.lists number hart.old).probes ≡ K.room_of keeper.old }
{
    let context = hart.give(code, keeper);
    let task = context.body().task_no();
    board.give(number, context, kind);
    match kind {
        Kind::Ready => Action::GaveReady(task),
        Kind::Done => Action::GaveDone(task),
    }
}

/// Tells a pace of its hart's queue action: it draws the next quantum exactly where a take gave a context.
pub fn draw_if_taken(pace: &mut Pace, action: &Action)
    ensures pace { pace.new ≡ drawn_by action.now pace.old }
{
    match action {
        Action::Took(_) => pace.took(),
        Action::Empty | Action::GaveReady(_) | Action::GaveDone(_) => {}
    }
}
