//! Reading the lists of a saved board, and the runs of its order.

ghost use Rattle.std.specs.Prelude.{◌≡◌, [], ◌+◌, ◌≤◌, ◌==◌, ◌&&◌, not, length, slice_get, nat_le, nat_lt, count_by, IfOk};
ghost use Rattle.std.specs.List.{list_any};
ghost use Rattle.saved_form.specs.Fields.{field, items, made, pair, counted_items};
ghost use Rattle.saved_form.specs.Ranges.{is_there, is_listed, is_hart_again, up_to};
ghost use Rattle.saved_form.specs.Reading.{listed, task_list, run_from, run};
ghost use Rattle.saved_form.specs.Answer.{Gives};
ghost use Rattle.saved_form.specs.Lists.{belongs_to};

use crate::numbers::{Numbers, ReadError, passed};
use crate::saved::{Progress, SavedTask};
use core_model::{Items, OrderRun};
use isa_model::Words;
use std::alloc::Global;

/// How many actions an order has at most.
const ACTIONS_MAX: u32 = 1_048_576;

/// A list of the board.
#[derive(Clone, Copy)]
pub(crate) enum TaskList {
    /// The tasks that wait.
    Waiting,
    /// The ready tasks of this band.
    Ready(u32),
    /// The ended tasks.
    Ended,
}

/// Whether a task belongs in a list.
fn belongs(list: TaskList, task: &SavedTask) -> bool
    ensures value { result ≡ belongs_to list task.now }
{
    match (list, &task.progress) {
        (TaskList::Waiting, Progress::Waits) => true,
        (TaskList::Ready(band), Progress::IsReady(_)) => task.band == band,
        (TaskList::Ended, Progress::HasEnded(_)) => true,
        _ => false,
    }
}

/// How many tasks belong in a list.
fn belonging(list: TaskList, tasks: &[SavedTask]) -> usize
    ensures value { result ≡ count_by (belongs_to list) tasks.now }
{
    tasks.iter().filter(|task| belongs(list, task)).count()
}

/// How many tasks there are in a list: all that belong there.
fn list_len(list: TaskList, tasks: &[SavedTask], numbers: &mut Numbers) -> Result<u32, ReadError>
    ensures value { Gives result numbers.new (field (λ n. n == count_by (belongs_to list) tasks.now) numbers.old) }
{
    let at = numbers.at();
    let count = numbers.any()?;
    passed(count, at, count as usize == belonging(list, tasks))
}

/// Whether a task of this number belongs in a list.
fn is_there(list: TaskList, tasks: &[SavedTask], number: u32) -> bool
    ensures value { result ≡ is_there (belongs_to list) (slice_get tasks.now number) }
{
    match tasks.get(number as usize) {
        Some(task) => belongs(list, task),
        None => false,
    }
}

/// Whether a number stands among these.
fn stands_in(numbers: &[u32], number: u32) -> bool
    ensures value { result ≡ list_any (λ u. u == number) numbers.now }
{
    numbers.iter().any(|other| *other == number)
}

/// Whether a task of this number belongs in a list, and isn't one of these.
fn is_listed(list: TaskList, tasks: &[SavedTask], before: &[u32], number: u32) -> bool
    ensures value { result ≡ is_listed (belongs_to list) tasks.now before.now number }
{
    is_there(list, tasks, number) && !stands_in(before, number)
}

/// The task after these in a list: one that belongs there and isn't one of these.
fn listed(
    list: TaskList,
    tasks: &[SavedTask],
    before: &[u32],
    numbers: &mut Numbers,
) -> Result<u32, ReadError>
    ensures value { Gives result numbers.new (listed (belongs_to list) tasks.now before.now numbers.old) }
{
    let at = numbers.at();
    let task = numbers.any()?;
    passed(task, at, is_listed(list, tasks, before, task))
}

/// So many tasks of a list.
fn so_many_listed(
    alloc: Global,
    list: TaskList,
    tasks: &[SavedTask],
    count: u32,
    numbers: &mut Numbers,
) -> Result<Words, ReadError>
    ensures value { Gives result numbers.new (items (listed (belongs_to list) tasks.now) [] count numbers.old) }
{
    let mut found = Vec::new(alloc);
    for _index in 0..count {
        let task = listed(list, tasks, found.as_slice(), numbers)?;
        found.push(task)?;
    }
    Ok(Words::new(found))
}

/// A list of the board: the numbers of the tasks that belong there, each once.
pub(crate) fn task_list(
    alloc: Global,
    list: TaskList,
    tasks: &[SavedTask],
    numbers: &mut Numbers,
) -> Result<Words, ReadError>
    ensures value { Gives result numbers.new (task_list (belongs_to list) tasks.now numbers.old) }
{
    let count = list_len(list, tasks, numbers)?;
    so_many_listed(alloc, list, tasks, count, numbers)
}

/// The hart of a run: one that there is, and another than that of the run before.
fn next_hart(harts: u32, last: Option<u32>, numbers: &mut Numbers) -> Result<u32, ReadError>
    ensures value { Gives result numbers.new (field (λ hart. nat_lt hart harts && not (is_hart_again last hart)) numbers.old) }
{
    let at = numbers.at();
    let hart = numbers.any()?;
    let is_again = match last {
        Some(other) => other == hart,
        None => false,
    };
    passed(hart, at, hart < harts && !is_again)
}

/// How often a run comes, where the runs before come so often.
fn times(total: u32, numbers: &mut Numbers) -> Result<u32, ReadError>
    ensures value { Gives result numbers.new (field (λ times. nat_le 1 times && nat_le (total + times) ACTIONS_MAX) numbers.old) }
    ensures bound { IfOk result (λ times. total + times ≤ ACTIONS_MAX) }
{
    let at = numbers.at();
    let times = numbers.any()?;
    let all = u64::from(total) + u64::from(times);
    passed(times, at, 1 <= times && all <= u64::from(ACTIONS_MAX))
}

/// The run of the order after runs of which the last is of this hart, and which come so often.
fn run(
    harts: u32,
    last: Option<u32>,
    total: u32,
    numbers: &mut Numbers,
) -> Result<OrderRun, ReadError>
    ensures value { Gives result numbers.new (made run_from (pair (field (λ hart. nat_lt hart harts && not (is_hart_again last hart))) (λ hart. field (λ times. nat_le 1 times && nat_le (total + times) ACTIONS_MAX))) numbers.old) }
    ensures bound { IfOk result (λ run. total + run.times ≤ ACTIONS_MAX) }
{
    let hart = next_hart(harts, last, numbers)?;
    let times = times(total, numbers)?;
    Ok(OrderRun { hart, times })
}

/// So many runs of the order.
fn so_many_runs(
    alloc: Global,
    harts: u32,
    count: u32,
    numbers: &mut Numbers,
) -> Result<Items<OrderRun>, ReadError>
    ensures value { Gives result numbers.new (items (run harts) [] count numbers.old) }
{
    let mut found = Vec::new(alloc);
    let mut last = None;
    let mut total: u32 = 0;
    for _index in 0..count {
        let run = run(harts, last, total, numbers)?;
        found.push(run)?;
        last = Some(run.hart);
        total += run.times;
    }
    Ok(Items::new(found))
}

/// The order, as its runs.
pub(crate) fn runs(
    alloc: Global,
    harts: u32,
    numbers: &mut Numbers,
) -> Result<Items<OrderRun>, ReadError>
    ensures value { Gives result numbers.new (counted_items (up_to ACTIONS_MAX) (run harts) numbers.old) }
{
    let count = numbers.up_to(ACTIONS_MAX as usize)?;
    so_many_runs(alloc, harts, count, numbers)
}
