//! The changes of the latches in one world, along a course.

ghost use Rattle.std.specs.Prelude.{◌≡◌, ◌+◌, ◌++◌, ◌<◌, ◌↔◌, IfOk, OnOk, map, None, true, false};
ghost use Rattle.isa_model.specs.TaskPlaces.{IsValidTask};
ghost use Rattle.isa_model.specs.AloneValue.{alone_value};
ghost use Rattle.probe_inspect.specs.Course.{IsSeenAt, IsEndAt};
ghost use Rattle.probe_inspect.specs.Rows.{IsFollowed};

use crate::course::{Course, Passed};
use alone_run::Alone;
use isa_model::{Latch, Task, Words};
use std::alloc::{AllocError, Global};

/// The values of latches before and after the instructions that write them, in the order of the course.
#[derive(Drop)]
pub struct Row {
    pub was: Words,
    pub now: Words,
}

/// A run beside a course: it takes it, or leaves it at a step.
#[derive(Drop)]
pub(crate) enum Followed {
    Along(Row),
    Leaves(usize),
}

/// Adds the values of latches where a run stands.
fn add_values(values: &mut Vec<u32>, alone: &Alone, latches: &[Latch]) -> Result<(), AllocError>
    ensures added { OnOk result (values.new.items ≡ values.old.items ++ map (alone_value alone.now.task alone.now.count) latches.now) }
{
    for latch in latches {
        values.push(alone.value(*latch))?;
    }
    Ok(())
}

/// One instruction of a run; whether it is seen as this one.
fn passes(alone: &mut Alone, passed: &Passed) -> bool
    ensures task { alone.new.task ≡ alone.old.task }
    ensures seen { result ≡ true → IsSeenAt alone.old.task alone.old.count passed.now × (alone.new.count ≡ alone.old.count + 1) }
    ensures other { result ≡ false → IsSeenAt alone.old.task alone.old.count passed.now → ⊥ }
{
    match alone.step() {
        Some(control) => control == passed.control,
        None => false,
    }
}

/// Whether a run has ended at a pc.
fn has_ended_at(alone: &Alone, pc: u32) -> bool
    ensures end { (result ≡ true) ↔ IsEndAt alone.now.task alone.now.count pc }
{
    alone.ended().is_some() && alone.pc() == pc
}

/// Runs a task along a course.
pub(crate) fn follow(alloc: Global, course: &Course, task: &Task) -> Result<Followed, AllocError>
    requires valid { IsValidTask task.now }
    ensures followed { IfOk result (IsFollowed task.now course.now) }
{
    let mut alone = Alone::start(alloc, task)?;
    let mut was = Vec::with_capacity(alloc, course.places)?;
    let mut now = Vec::with_capacity(alloc, course.places)?;
    let steps = course.steps.as_slice();
    for step in 0..steps.len() {
        let passed = &steps[step];
        add_values(&mut was, &alone, passed.latches.as_slice())?;
        if !passes(&mut alone, passed) {
            return Ok(Followed::Leaves(step));
        }
        add_values(&mut now, &alone, passed.latches.as_slice())?;
    }
    if has_ended_at(&alone, course.last_pc) {
        Ok(Followed::Along(Row {
            was: Words::new(was),
            now: Words::new(now),
        }))
    } else {
        Ok(Followed::Leaves(steps.len()))
    }
}
