//! Marks along the run of a task, and what a why names, read from the mark before it.

ghost use Rattle.std.specs.Prelude.{◌≡◌, IfOk, slice_get};
ghost use Rattle.std.specs.List.{AllZip};
ghost use Rattle.isa_model.specs.TaskPlaces.{IsValidTask};
ghost use Rattle.probe_inspect.specs.Reached.{IsAfter};
ghost use Rattle.probe_inspect.specs.Shown.{value_shown_of, change_shown_of, shown_of};
ghost use Rattle.probe_inspect.specs.Trails.{IsTrailOf};

use crate::shown::{Shown, run_to};
use alone_run::{Alone, Mark};
use hart_model::{Probe, Why};
use isa_model::{Latch, Task};
use std::alloc::{AllocError, Global};
use std::marker::Model;

/// How many instructions lie between two marks.
const APART: u64 = 256;

/// Marks of the run alone of a task, one for each 256 instructions, so that what the task computes at any step is at most 256
/// instructions away.
#[derive(Drop)]
pub struct Trail {
    marks: Vec<Mark>,
}

impl Model for Trail {
    ghost use Rattle.std.specs.Prelude.{List};
    ghost use Rattle.alone_run.specs.declared.marks.Mark.{Mark};

    ghost Value = { List Mark };

    ghost view = { λ t. t.marks.items };
}

impl Trail {
    /// The marks of a task, which is run once to its end. Errors: where memory ran out.
    pub fn new(alloc: Global, task: &Task) -> Result<Trail, AllocError>
        requires valid { IsValidTask task.now }
        ensures trail { IfOk result (λ trail. IsTrailOf task.now trail) }
    {
        let mut alone = Alone::start(alloc, task)?;
        let mut marks = Vec::new(alloc);
        for index in 0..u64::from(task.fuel) / APART + 1 {
            marks.push(alone.mark(alloc)?)?;
            run_to(&mut alone, APART * (index + 1));
            if alone.ended().is_some() {
                return Ok(Trail { marks });
            }
        }
        Ok(Trail { marks })
    }

    /// The task of the marks after so many instructions, from the last mark that isn't after them.
    pub(crate) fn run_at(&self, alloc: Global, task: &Task, count: u64) -> Result<Alone, AllocError>
        requires trail { IsTrailOf task.now self.now }
        ensures after { IfOk result (λ alone. IsAfter task.now count alone) }
    {
        let last = self.marks.len() as u64 - 1;
        let index = u64::min(count / APART, last);
        let mut alone = Alone::resume(alloc, task, &self.marks[index as usize])?;
        run_to(&mut alone, count);
        Ok(alone)
    }
}

/// The value of a latch of a task of this number after so many instructions.
fn value_by(
    alloc: Global,
    tasks: &[Task],
    trails: &[Trail],
    number: u32,
    count: u32,
    latch: Latch,
) -> Result<Shown, AllocError>
    requires trails { AllZip IsTrailOf tasks.now trails.now }
    ensures value { IfOk result (λ shown. shown ≡ value_shown_of (slice_get tasks.now number) count latch) }
{
    let Some(task) = tasks.get(number as usize) else {
        return Ok(Shown::Nothing);
    };
    let alone = trails[number as usize].run_at(alloc, task, u64::from(count))?;
    Ok(Shown::Value(alone.value(latch)))
}

/// The values of a latch of a task of this number before and after an instruction.
fn change_by(
    alloc: Global,
    tasks: &[Task],
    trails: &[Trail],
    number: u32,
    step: u32,
    latch: &Latch,
) -> Result<Shown, AllocError>
    requires trails { AllZip IsTrailOf tasks.now trails.now }
    ensures pair { IfOk result (λ shown. shown ≡ change_shown_of (slice_get tasks.now number) step latch.now) }
{
    let Some(task) = tasks.get(number as usize) else {
        return Ok(Shown::Nothing);
    };
    let mut alone = trails[number as usize].run_at(alloc, task, u64::from(step))?;
    let was = alone.value(*latch);
    let _control = alone.step();
    let now = alone.value(*latch);
    Ok(Shown::Pair(was, now))
}

/// What [`explain`](crate::explain) shows, read from marks: trail i is that of task i. Executes at most 256 instructions. Errors: where
/// memory ran out.
pub fn explain_by(
    alloc: Global,
    tasks: &[Task],
    trails: &[Trail],
    probe: &Probe,
) -> Result<Shown, AllocError>
    requires trails { AllZip IsTrailOf tasks.now trails.now }
    ensures shown { IfOk result (λ shown. shown ≡ shown_of tasks.now probe.entry.now) }
{
    match probe.why {
        Why::Public | Why::Unexplained => Ok(Shown::Nothing),
        Why::Value {
            task,
            step,
            latch,
            ..
        } => value_by(alloc, tasks, trails, task, step, latch),
        Why::Step { task, step, latch } => change_by(alloc, tasks, trails, task, step, &latch),
    }
}
