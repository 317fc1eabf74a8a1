//! The values that a why names.

ghost use Rattle.std.specs.Prelude.{◌≡◌, ◌≤◌, IfOk};
ghost use Rattle.std.specs.List.{AllByRecursion};
ghost use Rattle.isa_model.specs.TaskPlaces.{IsValidTask};
ghost use Rattle.probe_inspect.specs.Reached.{IsAfter};
ghost use Rattle.probe_inspect.specs.Shown.{value_shown, change_shown, shown_of};

use alone_run::Alone;
use hart_model::{Probe, Why};
use isa_model::{Latch, Task};
use std::alloc::{AllocError, Global};

/// What a probe shows of the undisturbed run of a task.
#[derive(Clone, Copy, Debug, PartialEq, Eq)]
pub enum Shown {
    /// Nothing.
    Nothing,
    /// The value of a latch after so many instructions.
    Value(u32),
    /// The values of a latch before and after an instruction.
    Pair(u32, u32),
}

/// Runs a task on until it has executed so many instructions or has ended.
pub(crate) fn run_to(alone: &mut Alone, count: u64)
    requires before { alone.old.count ≤ count }
    ensures after { IsAfter alone.old.task count alone.new }
{
    let start = u64::from(alone.count());
    for _done in start..count {
        let Some(_control) = alone.step() else {
            return;
        };
    }
}

/// The value of a latch of a task after so many instructions.
fn value_after(alloc: Global, task: &Task, count: u32, latch: Latch) -> Result<Shown, AllocError>
    requires valid { IsValidTask task.now }
    ensures value { IfOk result (λ shown. shown ≡ value_shown task.now count latch) }
{
    let mut alone = Alone::start(alloc, task)?;
    run_to(&mut alone, u64::from(count));
    Ok(Shown::Value(alone.value(latch)))
}

/// The values of a latch of a task before and after an instruction.
fn change_at(alloc: Global, task: &Task, step: u32, latch: &Latch) -> Result<Shown, AllocError>
    requires valid { IsValidTask task.now }
    ensures pair { IfOk result (λ shown. shown ≡ change_shown task.now step latch.now) }
{
    let mut alone = Alone::start(alloc, task)?;
    run_to(&mut alone, u64::from(step));
    let was = alone.value(*latch);
    let _control = alone.step();
    let now = alone.value(*latch);
    Ok(Shown::Pair(was, now))
}

/// What a probe's why names in the undisturbed run of a task: of a value the latch's value after the instructions that it says, of a
/// step the latch's values before and after that instruction. Nothing where the why names none, and where there is no task of its
/// number. After its end a run stays as it is. Each call runs the task anew: see [`explain_by`](crate::explain_by) and
/// [`Walk`](crate::Walk) for many entries.
pub fn explain(alloc: Global, tasks: &[Task], probe: &Probe) -> Result<Shown, AllocError>
    requires valid { AllByRecursion IsValidTask tasks.now }
    ensures shown { IfOk result (λ shown. shown ≡ shown_of tasks.now probe.entry.now) }
{
    match probe.why {
        Why::Public | Why::Unexplained => Ok(Shown::Nothing),
        Why::Value {
            task,
            step,
            latch,
            ..
        } => match tasks.get(task as usize) {
            Some(task) => value_after(alloc, task, step, latch),
            None => Ok(Shown::Nothing),
        },
        Why::Step { task, step, latch } => match tasks.get(task as usize) {
            Some(task) => change_at(alloc, task, step, &latch),
            None => Ok(Shown::Nothing),
        },
    }
}
