//! Tasks, each by itself.

ghost use Rattle.std.specs.Prelude.{◌≡◌, IfOk};
ghost use Rattle.std.specs.List.{AllByRecursion};
ghost use Rattle.isa_model.specs.TaskPlaces.{IsValidTask};
ghost use Rattle.kernel_cli.specs.AloneTasks.{ended_of, ends_of};

use alone_run::{Ended, Task, run_alone};
use std::alloc::{AllocError, Global};

/// What a task ends with.
fn end_of(alloc: Global, task: &Task) -> Result<Ended, AllocError>
    requires valid { IsValidTask task.now }
    ensures end { IfOk result (λ ended. ended ≡ ended_of task.now) }
{
    run_alone(alloc, task)
}

/// What the tasks end with, in their order.
pub(crate) fn ends(alloc: Global, tasks: &[Task]) -> Result<Vec<Ended>, AllocError>
    requires valid { AllByRecursion IsValidTask tasks.now }
    ensures ends { IfOk result (λ ends. ends.items ≡ ends_of tasks.now) }
{
    let mut ends = Vec::new(alloc);
    let mut rest = tasks;
    while let [first, others @ ..] = rest {
        ends.push(end_of(alloc, first)?)?;
        rest = others;
    }
    Ok(ends)
}
