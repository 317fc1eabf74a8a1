//! Reading a saved board.

ghost use Rattle.std.specs.Prelude.{◌≡◌, ◌==◌, IfOk};
ghost use Rattle.isa_model.specs.Limits.{max_order_entries};
ghost use Rattle.saved_form.specs.Fields.{field, pair, counted_items};
ghost use Rattle.saved_form.specs.Ranges.{up_to, waits, is_ready_in, ended};
ghost use Rattle.saved_form.specs.Spelling.{magic, spelling};
ghost use Rattle.saved_form.specs.Reading.{task_list, run, board, read_saved};
ghost use Rattle.saved_form.specs.InRange.{IsInRange};
ghost use Rattle.saved_form.specs.Answer.{Gives, Answers};

use crate::numbers::{Numbers, ReadError, passed};
use crate::read_harts::{harts, quanta_of};
use crate::read_lists::{TaskList, runs, task_list};
use crate::read_tasks::{Known, tasks};
use crate::saved::{SavedBoard, SavedTask};
use crate::writing::MAGIC;
use core_model::{Items, OrderRun};
use isa_model::Words;
use std::alloc::Global;

/// How many harts there are at most.
const HARTS_MAX: u32 = 8;

/// How many slots there are at most.
const SLOTS_MAX: u32 = 8;

/// How many tasks there are at most.
const TASKS_MAX: u32 = 32;

/// The number that the first four bytes spell.
fn magic(numbers: &mut Numbers) -> Result<u32, ReadError>
    ensures value { Gives result numbers.new (field (λ n. n == magic) numbers.old) }
{
    let at = numbers.at();
    let number = numbers.any()?;
    passed(number, at, number == MAGIC)
}

/// The four lists of a board, and the runs of its order.
type Lists = (Words, (Words, (Words, (Words, Items<OrderRun>))));

/// What stands after the tasks.
fn lists(
    alloc: Global,
    harts: u32,
    tasks: &[SavedTask],
    numbers: &mut Numbers,
) -> Result<Lists, ReadError>
    ensures value { Gives result numbers.new
        (pair (task_list waits tasks.now) (λ waiting.
        pair (task_list (is_ready_in 0) tasks.now) (λ ready_first.
        pair (task_list (is_ready_in 1) tasks.now) (λ ready_second.
        pair (task_list ended tasks.now) (λ has_ended.
        counted_items (up_to max_order_entries) (run harts))))) numbers.old) }
{
    let waiting = task_list(alloc, TaskList::Waiting, tasks, numbers)?;
    let ready_first = task_list(alloc, TaskList::Ready(0), tasks, numbers)?;
    let ready_second = task_list(alloc, TaskList::Ready(1), tasks, numbers)?;
    let ended = task_list(alloc, TaskList::Ended, tasks, numbers)?;
    let order = runs(alloc, harts, numbers)?;
    Ok((waiting, (ready_first, (ready_second, (ended, order)))))
}

/// A saved board.
fn board(alloc: Global, numbers: &mut Numbers) -> Result<SavedBoard, ReadError>
    ensures value { Gives result numbers.new (board numbers.old) }
{
    magic(numbers)?;
    let hart_count = numbers.between(1, HARTS_MAX)?;
    let slots = numbers.between(1, SLOTS_MAX)?;
    let task_count = numbers.between(1, TASKS_MAX)?;
    let harts = harts(alloc, hart_count, numbers)?;
    let known = Known {
        quanta: quanta_of(harts.as_slice()),
        tasks: task_count,
        harts: hart_count,
        slots,
    };
    let tasks = tasks(alloc, &known, numbers)?;
    let (waiting, (ready_first, (ready_second, (ended, order)))) = lists(
        alloc,
        hart_count,
        tasks.as_slice(),
        numbers,
    )?;
    Ok(SavedBoard {
        harts,
        slots,
        tasks,
        waiting,
        ready_first,
        ready_second,
        ended,
        order,
    })
}

/// What all of the bytes say.
fn whole_board(alloc: Global, bytes: &[u8]) -> Result<SavedBoard, ReadError>
    ensures exact { Answers result (read_saved bytes.now) }
{
    let mut numbers = Numbers::new(bytes);
    let board = board(alloc, &mut numbers)?;
    let at = numbers.at();
    if at == bytes.len() as u64 {
        Ok(board)
    } else {
        Err(ReadError::Bad { at })
    }
}

/// Reads a saved board. Errors: the first fault, at its byte; `Memory` where memory ran out.
///
/// No number that says how many fields follow makes it take memory before they are there. So it takes memory and time linear in the
/// length of the bytes.
pub fn read(alloc: Global, bytes: &[u8]) -> Result<SavedBoard, ReadError>
    // The board that the bytes say, or their first fault, as functions of them.
    ensures exact { Answers result (read_saved bytes.now) }

    // The bytes are the only spelling of the board, which is within its ranges: writing it gives them again.
    ensures spelled { IfOk result (λ board. (bytes.now ≡ spelling board) × IsInRange board) }
{
    whole_board(alloc, bytes)
}
