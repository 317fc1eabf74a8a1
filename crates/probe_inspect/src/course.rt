//! The course of a run alone: what others see of it, and the latches that each of its instructions writes.

ghost use Rattle.std.specs.Prelude.{◌≡◌, ◌+◌, ◌<◌, IfOk, None};
ghost use Rattle.isa_model.specs.TaskPlaces.{IsValidTask};
ghost use Rattle.isa_model.specs.Alone.{alone_at};
ghost use Rattle.probe_inspect.specs.Course.{IsPassed, IsCourseOf};

use crate::effects::next_writes;
use crate::latch_list::{add_latches, add_served};
use alone_run::Alone;
use core_model::Items;
use isa_model::{Control, Latch, Task};
use std::alloc::{AllocError, Global};

/// An instruction of a course: what others see of it, and the latches that it writes, in their order.
#[derive(Drop)]
pub struct Passed {
    pub control: Control,
    pub latches: Items<Latch>,
}

/// The instructions of a run alone, how many latches they write, and the pc at its end.
#[derive(Drop)]
pub struct Course {
    pub steps: Items<Passed>,
    pub places: usize,
    pub last_pc: u32,
}

/// The next instruction of a run that hasn't ended.
fn pass(alloc: Global, task: &Task, alone: &mut Alone) -> Result<Passed, AllocError>
    requires task { alone.old.task ≡ task.now }
    requires running { (alone_at task.now alone.old.count).end ≡ None }
    ensures passed { IfOk result (IsPassed task.now alone.old.count) }
    ensures next { IfOk result (λ passed. alone.new ≡ record { task = task.now; count = alone.old.count + 1 }) }
    ensures within { IfOk result (λ passed. alone.old.count < task.now.fuel) }
{
    let mut latches = Vec::new(alloc);
    if let Some(writes) = next_writes(task, alone) {
        add_latches(&mut latches, &writes)?;
    }
    match alone.step() {
        Some(control) => {
            add_served(&mut latches, control.deed)?;
            Ok(Passed {
                control,
                latches: Items::new(latches),
            })
        }
        None => unreachable!(),
    }
}

/// The course of the run alone of a task.
pub(crate) fn course_of(alloc: Global, task: &Task) -> Result<Course, AllocError>
    requires valid { IsValidTask task.now }
    ensures course { IfOk result (λ course. IsCourseOf task.now course) }
{
    let mut steps = Vec::new(alloc);
    let mut places = 0;
    let mut alone = Alone::start(alloc, task)?;
    while alone.ended().is_none() {
        let passed = pass(alloc, task, &mut alone)?;
        places += passed.latches.len();
        steps.push(passed)?;
    }
    let last_pc = alone.pc();
    Ok(Course {
        steps: Items::new(steps),
        places,
        last_pc,
    })
}
