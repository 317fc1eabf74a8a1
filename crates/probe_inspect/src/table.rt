//! The rows of all worlds along the course of the first one, or the first world that leaves it.

ghost use Rattle.std.specs.Prelude.{◌≡◌, ◌+◌, ◌<◌, ◌≤◌, All, IfOk, IsSome, length, slice_get, List, Some};
ghost use Rattle.isa_model.specs.declared.task.Task.{Task};
ghost use Rattle.isa_model.specs.TaskPlaces.{IsValidTask};
ghost use Rattle.core_model.specs.declared.world.World.{World};
ghost use Rattle.isa_model.specs.Limits.{max_tape_words};
ghost use Rattle.core_model.specs.Security.{task_in};
ghost use Rattle.probe_inspect.specs.declared.course.Course.{Course};
ghost use Rattle.probe_inspect.specs.Rows.{LeavesAt};
ghost use Rattle.probe_inspect.specs.Table.{IsPartingTo, IsTable};

use crate::course::Course;
use crate::rows::{Followed, Row, follow};
use core_model::{Items, World};
use isa_model::Task;
use std::alloc::{AllocError, Global};

/// A world that leaves a course, by its number, and the step at which it does.
#[derive(Clone, Copy)]
pub(crate) struct Parting {
    pub world: usize,
    pub step: usize,
}

/// What is known of the worlds so far: the first parting, or their rows.
#[derive(Drop)]
pub(crate) struct Table {
    pub rows: Items<Row>,
    pub parting: Option<Parting>,
}

/// The parting at the least step, the earlier one of two at one step.
fn earlier(parting: Option<Parting>, world: usize, step: usize) -> Option<Parting>
    ensures parting { (T : Task) (worlds : List World) (course : Course) (w : World) → slice_get worlds world ≡ Some w
        → LeavesAt (task_in T w) course step → IsPartingTo T worlds course world parting → IsPartingTo T worlds course (world + 1) result }
    ensures some { IsSome result }
{
    match parting {
        None => Some(Parting { world, step }),
        Some(first) => {
            if first.step <= step {
                Some(first)
            } else {
                Some(Parting { world, step })
            }
        }
    }
}

/// Runs the task in one world more.
fn add_world(
    alloc: Global,
    course: &Course,
    task: &Task,
    world: usize,
    table: &mut Table,
) -> Result<(), AllocError>
    requires valid { IsValidTask task.now }
    ensures table { IfOk result (λ done. (T : Task) (worlds : List World) (w : World) → slice_get worlds world ≡ Some w → task.now ≡ task_in T w
        → IsTable T worlds course.now world table.old → IsTable T worlds course.now (world + 1) table.new) }
{
    match follow(alloc, course, task)? {
        Followed::Along(row) => {
            table.rows.push(row)?;
        }
        Followed::Leaves(step) => {
            table.parting = earlier(table.parting, world, step);
        }
    }
    Ok(())
}

/// The rows of all worlds along a course, or the first parting.
pub(crate) fn table_of(
    alloc: Global,
    course: &Course,
    task: &Task,
    worlds: &[World],
) -> Result<Table, AllocError>
    requires valid { IsValidTask task.now }
    requires words { All (λ (world : World). length world.tape ≤ max_tape_words) worlds.now }
    ensures table { IfOk result (IsTable task.now worlds.now course.now (length worlds.now)) }
{
    let mut in_world = task.copy(alloc)?;
    let mut table = Table {
        rows: Items::new(Vec::with_capacity(alloc, worlds.len())?),
        parting: None,
    };
    for i in 0..worlds.len() {
        in_world.tape = worlds[i].tape.copy(alloc)?;
        add_world(alloc, course, &in_world, i, &mut table)?;
    }
    Ok(table)
}
