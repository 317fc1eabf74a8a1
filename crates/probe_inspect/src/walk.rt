//! Going through a log, with what each entry names in the runs alone of tasks.

ghost use Rattle.std.specs.Prelude.{◌≡◌, IfOk, OnOk, slice_get};
ghost use Rattle.std.specs.List.{AllByRecursion};
ghost use Rattle.isa_model.specs.TaskPlaces.{IsValidTask};
ghost use Rattle.probe_inspect.specs.Reached.{IsAfter};
ghost use Rattle.probe_inspect.specs.Shown.{value_shown, change_shown, value_shown_of, change_shown_of, shown_of};
ghost use Rattle.probe_inspect.specs.Trails.{IsTrailOf};

use crate::shown::{Shown, run_to};
use crate::trails::Trail;
use alone_run::Alone;
use hart_model::{Probe, Why};
use isa_model::{Latch, Task};
use std::alloc::{AllocError, Global};
use std::marker::Model;

/// Goes on to so many instructions of a task: from where its run is, if that is fewer than 256 instructions before, else from a mark.
fn go_to(
    alloc: Global,
    task: &Task,
    trail: &Trail,
    alone: &mut Alone,
    count: u64,
) -> Result<(), AllocError>
    requires trail { IsTrailOf task.now trail.now }
    requires task { alone.old.task ≡ task.now }
    ensures task { alone.new.task ≡ task.now }
    ensures after { OnOk result (IsAfter task.now count alone.new) }
{
    let done = u64::from(alone.count());
    if done <= count && count < done + 256 {
        run_to(alone, count);
        return Ok(());
    }
    *alone = trail.run_at(alloc, task, count)?;
    Ok(())
}

/// The marks of a task, and two of its runs: one is where values were last read, the other one where those after an instruction were.
/// Contracts see the task.
#[derive(Drop)]
struct Run {
    trail: Trail,
    before: Alone,
    after: Alone,
}

impl Model for Run {
    ghost use Rattle.std.specs.Prelude.{◌≡◌};
    ghost use Rattle.isa_model.specs.declared.task.Task.{Task};
    ghost use Rattle.probe_inspect.specs.Trails.{IsTrailOf};

    ghost Value = { Task };

    ghost view = { λ r. r.before.task };

    ghost invariant = { λ r. IsTrailOf r.before.task r.trail × (r.after.task ≡ r.before.task) };
}

impl Run {
    /// A task before its first instruction, with its marks.
    fn new(alloc: Global, task: &Task) -> Result<Run, AllocError>
        requires valid { IsValidTask task.now }
        ensures task { IfOk result (λ r. r ≡ task.now) }
    {
        Ok(Run {
            trail: Trail::new(alloc, task)?,
            before: Alone::start(alloc, task)?,
            after: Alone::start(alloc, task)?,
        })
    }

    /// The value of a latch after so many instructions.
    fn value(
        &mut self,
        alloc: Global,
        task: &Task,
        count: u32,
        latch: Latch,
    ) -> Result<Shown, AllocError>
        requires task { self.old ≡ task.now }
        ensures task { self.new ≡ self.old }
        ensures value { IfOk result (λ shown. shown ≡ value_shown task.now count latch) }
    {
        go_to(alloc, task, &self.trail, &mut self.before, u64::from(count))?;
        Ok(Shown::Value(self.before.value(latch)))
    }

    /// The values of a latch before and after an instruction.
    fn change(
        &mut self,
        alloc: Global,
        task: &Task,
        step: u32,
        latch: &Latch,
    ) -> Result<Shown, AllocError>
        requires task { self.old ≡ task.now }
        ensures task { self.new ≡ self.old }
        ensures pair { IfOk result (λ shown. shown ≡ change_shown task.now step latch.now) }
    {
        go_to(alloc, task, &self.trail, &mut self.before, u64::from(step))?;
        go_to(
            alloc,
            task,
            &self.trail,
            &mut self.after,
            u64::from(step) + 1,
        )?;
        Ok(Shown::Pair(self.before.value(*latch), self.after.value(*latch)))
    }
}

/// The runs alone of tasks, each where an entry of a log last named it: neighbouring entries, which mostly name the same step or the next
/// one, cost few instructions. Contracts see the tasks.
#[derive(Drop)]
pub struct Walk {
    runs: Vec<Run>,
}

impl Model for Walk {
    ghost use Rattle.std.specs.Prelude.{List};
    ghost use Rattle.isa_model.specs.declared.task.Task.{Task};

    ghost Value = { List Task };

    ghost view = { λ w. w.runs.items };
}

impl Walk {
    /// Runs each task once, and keeps a mark of it for each 256 instructions. Errors: where memory ran out.
    pub fn new(alloc: Global, tasks: &[Task]) -> Result<Walk, AllocError>
        requires valid { AllByRecursion IsValidTask tasks.now }
        ensures tasks { IfOk result (λ w. w ≡ tasks.now) }
    {
        let mut runs = Vec::new(alloc);
        for task in tasks {
            runs.push(Run::new(alloc, task)?)?;
        }
        Ok(Walk { runs })
    }

    /// The value of a latch of a task of this number after so many instructions.
    fn value(
        &mut self,
        alloc: Global,
        tasks: &[Task],
        number: u32,
        count: u32,
        latch: Latch,
    ) -> Result<Shown, AllocError>
        requires tasks { self.old ≡ tasks.now }
        ensures tasks { self.new ≡ self.old }
        ensures value { IfOk result (λ shown. shown ≡ value_shown_of (slice_get tasks.now number) count latch) }
    {
        let Some(task) = tasks.get(number as usize) else {
            return Ok(Shown::Nothing);
        };
        self.runs[number as usize].value(alloc, task, count, latch)
    }

    /// The values of a latch of a task of this number before and after an instruction.
    fn change(
        &mut self,
        alloc: Global,
        tasks: &[Task],
        number: u32,
        step: u32,
        latch: &Latch,
    ) -> Result<Shown, AllocError>
        requires tasks { self.old ≡ tasks.now }
        ensures tasks { self.new ≡ self.old }
        ensures pair { IfOk result (λ shown. shown ≡ change_shown_of (slice_get tasks.now number) step latch.now) }
    {
        let Some(task) = tasks.get(number as usize) else {
            return Ok(Shown::Nothing);
        };
        self.runs[number as usize].change(alloc, task, step, latch)
    }

    /// What [`explain`](crate::explain) shows, of the tasks that the runs are of. Errors: where memory ran out.
    pub fn explain(
        &mut self,
        alloc: Global,
        tasks: &[Task],
        probe: &Probe,
    ) -> Result<Shown, AllocError>
        requires tasks { self.old ≡ tasks.now }
        ensures tasks { self.new ≡ self.old }
        ensures shown { IfOk result (λ shown. shown ≡ shown_of tasks.now probe.entry.now) }
    {
        match probe.why {
            Why::Public | Why::Unexplained => Ok(Shown::Nothing),
            Why::Value {
                task,
                step,
                latch,
                ..
            } => self.value(alloc, tasks, task, step, latch),
            Why::Step { task, step, latch } => self.change(alloc, tasks, task, step, &latch),
        }
    }
}
