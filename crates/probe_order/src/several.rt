//! What several entries of a log name in the runs alone of tasks.

ghost use Rattle.std.specs.Prelude.{◌≡◌, ◌<◌, All, IfOk, length};
ghost use Rattle.std.specs.List.{AllByRecursion};
ghost use Rattle.isa_model.specs.TaskPlaces.{IsValidTask};
ghost use Rattle.probe_order.specs.Determined.{shown_at};

use probe_inspect::{Shown, Task, Walk};
use probe_log::Packed;
use std::alloc::{AllocError, Global};

/// What the entries at places of a log name of tasks, in the order of the places; nothing of one that is unexplained or names no task. The
/// tasks are run once, and each entry executes at most 512 instructions more. Errors: where memory ran out.
pub fn shown_many(
    alloc: Global,
    tasks: &[Task],
    log: &Packed,
    at: &[u64],
) -> Result<Vec<Shown>, AllocError>
    requires valid { AllByRecursion IsValidTask tasks.now }
    requires within { All (λ i. i < length log.now.entries) at.now }
    ensures shown { IfOk result (λ shown. shown.items ≡ shown_at tasks.now log.now.entries at.now) }
{
    let mut walk = Walk::new(alloc, tasks)?;
    let mut shown = Vec::with_capacity(alloc, at.len())?;
    for i in at {
        match log.get(*i) {
            Some(probe) => shown.push(walk.explain(alloc, tasks, &probe)?)?,
            None => shown.push(Shown::Nothing)?,
        }
    }
    Ok(shown)
}
