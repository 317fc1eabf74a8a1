//! Plans for harts and places for tasks.

ghost use Rattle.std.specs.Prelude.{◌≡◌, ◌<◌, ◌≤◌, IfOk, vec_len};
ghost use Rattle.isa_model.specs.Limits.{max_tasks};
ghost use Rattle.rv_loader.specs.Loading.{plan_of, plans_of, task_at, placed_tasks, bands_of, loaded_of};

use crate::coding::CodedTask;
use bundle_text::{Bundle, PlanText, TaskText};
use core_model::{Items, Loaded, Plan, Quanta, World};
use isa_model::Task;
use std::alloc::{AllocError, Global};

/// The tail of a hart without a plan line.
const MISSING_TAIL: u16 = 4_096;

/// Where the code of task number 0 begins, in bytes.
const CODE_PLACE: u32 = 0x10_0000;

/// Where its data begin.
const DATA_PLACE: u32 = 0x10_8000;

/// How far apart the places of tasks are.
const TASK_STRIDE: u32 = 0x1_0000;

/// The plan of a hart.
fn plan_of(alloc: Global, lines: &[PlanText], hart: u32) -> Result<Plan, AllocError>
    ensures plan { IfOk result (λ plan. plan ≡ plan_of lines.now hart) }
{
    for line in lines {
        if line.hart == hart {
            return line.plan.copy(alloc);
        }
    }
    Ok(Plan {
        quanta: Quanta::new(Vec::new(alloc)),
        tail: MISSING_TAIL,
    })
}

/// A plan for each hart, in the order of their numbers.
fn plans_of(alloc: Global, lines: &[PlanText], harts: u32) -> Result<Items<Plan>, AllocError>
    ensures plans { IfOk result (λ plans. plans ≡ plans_of lines.now harts) }
{
    let mut plans = Items::empty(alloc);
    for hart in 0..harts {
        plans.push(plan_of(alloc, lines, hart)?)?;
    }
    Ok(plans)
}

/// A task at the place of its number.
fn task_at(number: u32, task: CodedTask) -> Task
    requires number { number < max_tasks }
    ensures task { result ≡ task_at (number, task) }
{
    Task {
        code_at: CODE_PLACE + TASK_STRIDE * number,
        data_at: DATA_PLACE + TASK_STRIDE * number,
        code: task.code,
        data_len: task.data_len,
        fuel: task.fuel,
        out_max: task.out_max,
        tape: task.tape,
    }
}

/// The tasks at their places.
fn placed_tasks(alloc: Global, tasks: Vec<CodedTask>) -> Result<Items<Task>, AllocError>
    requires few { vec_len tasks ≤ max_tasks }
    ensures tasks { IfOk result (λ placed. placed ≡ placed_tasks tasks.items) }
{
    let mut placed = Items::empty(alloc);
    for task in tasks {
        placed.push(task_at(placed.len() as u32, task))?;
    }
    Ok(placed)
}

/// The bands of tasks.
fn bands_of(alloc: Global, tasks: &[TaskText]) -> Result<Items<u32>, AllocError>
    ensures bands { IfOk result (λ bands. bands ≡ bands_of tasks.now) }
{
    let mut bands = Items::empty(alloc);
    for task in tasks {
        bands.push(task.band)?;
    }
    Ok(bands)
}

/// The worlds in memory of their own.
fn copied(alloc: Global, worlds: &[World]) -> Result<Items<World>, AllocError>
    ensures same { IfOk result (λ copies. copies ≡ worlds.now) }
{
    let mut copies = Items::empty(alloc);
    for world in worlds {
        copies.push(world.copy(alloc)?)?;
    }
    Ok(copies)
}

/// What is loaded of a bundle and the words of its tasks.
pub(crate) fn loaded_of(
    alloc: Global,
    bundle: &Bundle,
    harts: u32,
    tasks: Vec<CodedTask>,
) -> Result<Loaded, AllocError>
    requires few { vec_len tasks ≤ max_tasks }
    ensures loaded { IfOk result (λ loaded. loaded ≡ loaded_of bundle.now harts tasks.items) }
{
    Ok(Loaded {
        harts,
        slots: bundle.slots,
        plans: plans_of(alloc, bundle.plans.as_slice(), harts)?,
        tasks: placed_tasks(alloc, tasks)?,
        bands: bands_of(alloc, bundle.tasks.as_slice())?,
        worlds: copied(alloc, bundle.worlds.as_slice())?,
        events: bundle.events.copy(alloc)?,
        order: bundle.order.copy(alloc)?,
    })
}
