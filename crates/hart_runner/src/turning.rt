//! The parts of a worker's turn.

ghost use Rattle.std.specs.Prelude.{◌≡◌, ◌↔◌, ℕ, List, length, None, IsTrue, IfSome, IfNone};
ghost use Rattle.core_model.specs.declared.action.Action.TheVariants as actions;
ghost use Rattle.core_model.specs.declared.loaded.Loaded.{Loaded};
ghost use Rattle.core_model.specs.KernelWords.{kernel_code};
ghost use Rattle.turn_lock.specs.Passes.{IsPassOf, IsHeldOf, pass_number, pass_seen, held_number, held_order, lock_frame};
ghost use Rattle.hart_runner.specs.CoreBoards.{IsBoardOf};
ghost use Rattle.hart_runner.specs.Receipts.{IsReceiptOf};
ghost use Rattle.hart_runner.specs.Working.{IsWorkerOf};
ghost use Rattle.hart_runner.specs.Turning.{IsTurning, IsAtGive};

use crate::board::CoreBoard;
use crate::own_hart::OwnHart;
use crate::receipt::{Cause, Receipt};
use core_model::Action;
use hart_advance::advance;
use hart_model::QueueCall;
use kernel_core::queue_action::{draw_if_taken, give, take};
use ready_queue::Kind;
use turn_lock::{Held, Pass, Turns};

/// Steps a hart that holds a context up to its give, and says of which kind that is. None where it holds nothing; then nothing is done.
pub(crate) fn to_give(own: &mut OwnHart, code: &[u32]) -> Option<Kind>
    requires code { code.now ≡ kernel_code.words }
    requires turning { (loaded : Loaded) × (number : ℕ) × (order : List ℕ) × IsTurning loaded number order own.old }
    ensures gives { IfSome result (λ kind. (loaded : Loaded) (number : ℕ) (order : List ℕ)
        → IsTurning loaded number order own.old → IsAtGive loaded number order kind own.new) }
    ensures same { IfNone result (own.new ≡ own.old) }
    ensures none { IfNone result (own.old.hart.held ≡ None) }
{
    if own.hart.held().is_none() {
        return None;
    }
    match advance(&mut own.hart, &mut own.pace, code, &mut own.tally) {
        QueueCall::GiveReady => Some(Kind::Ready),
        QueueCall::GiveDone => Some(Kind::Done),
        QueueCall::Take => unreachable!(),
    }
}

/// A turn whose hart has come to its give: gives on the lifted board, and lays it back.
pub(crate) fn give_turn(
    lock: &Turns<CoreBoard>,
    lifted: CoreBoard,
    held: Held<CoreBoard>,
    own: &mut OwnHart,
    number: u32,
    code: &[u32],
    kind: Kind,
) -> Pass<CoreBoard>
    requires code { code.now ≡ kernel_code.words }
    requires held { IsHeldOf lock.now held }
    requires number { held_number held ≡ number }
    requires board { IsBoardOf (lock_frame lock.now).value lifted.0 (held_order held) }
    requires gives { IsAtGive (lock_frame lock.now).value number (held_order held) kind own.old }
    ensures pass { IsPassOf lock.now result }
    ensures number { pass_number result ≡ number }
    ensures turning { IsTurning (lock_frame lock.now).value number (pass_seen result) own.new }
{
    let CoreBoard(mut board) = lifted;
    let _action = give(
        &mut board,
        &mut own.hart,
        number,
        code,
        kind,
        &mut own.tally,
    );
    lock.lay(CoreBoard(board), held)
}

/// Whether a take found nothing.
fn found_nothing(action: &Action) -> bool
    ensures test { IsTrue result ↔ (action.now ≡ actions.Empty) }
{
    match action {
        Action::Empty => true,
        Action::Took(_) | Action::GaveReady(_) | Action::GaveDone(_) => false,
    }
}

/// A turn whose hart holds nothing: reserves, steps the hart to its take, takes on the lifted board and lays it back. Without memory it puts
/// the board back, with the hart unstepped. It answers the receipt where the worker ends, and None where a context was taken.
pub(crate) fn take_turn(
    lock: &Turns<CoreBoard>,
    lifted: CoreBoard,
    held: Held<CoreBoard>,
    own: &mut OwnHart,
    number: u32,
    code: &[u32],
) -> (Pass<CoreBoard>, Option<Receipt>)
    requires code { code.now ≡ kernel_code.words }
    requires held { IsHeldOf lock.now held }
    requires number { held_number held ≡ number }
    requires board { IsBoardOf (lock_frame lock.now).value lifted.0 (held_order held) }
    requires turning { IsTurning (lock_frame lock.now).value number (held_order held) own.old }
    requires none { own.old.hart.held ≡ None }
    ensures pass { IsPassOf lock.now result.0 }
    ensures number { pass_number result.0 ≡ number }
    ensures turning { IfNone result.1 (IsTurning (lock_frame lock.now).value number (pass_seen result.0) own.new) }
    ensures worker { IsWorkerOf (lock_frame lock.now).value number (pass_seen result.0) own.new.hart own.new.tally }
    ensures receipt { IfSome result.1 (λ receipt. IsReceiptOf (lock_frame lock.now).value (pass_seen result.0) number receipt) }
    ensures length { IfSome result.1 (λ receipt. receipt.order_length ≡ length (pass_seen result.0)) }
{
    let CoreBoard(mut board) = lifted;
    if board.reserve_two().is_err() {
        let order_length = board.order().len() as u32;
        let pass = lock.put_back(CoreBoard(board), held);
        return (pass, Some(Receipt::new(order_length, Cause::Memory)));
    }
    let _call = advance(&mut own.hart, &mut own.pace, code, &mut own.tally);
    let action = take(&mut board, &mut own.hart, number, code, &mut own.tally);
    let order_length = board.order().len() as u32;
    let pass = lock.lay(CoreBoard(board), held);
    draw_if_taken(&mut own.pace, &action);
    if found_nothing(&action) {
        return (pass, Some(Receipt::new(order_length, Cause::Empty)));
    }
    (pass, None)
}
