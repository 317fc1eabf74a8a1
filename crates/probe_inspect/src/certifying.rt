//! The verdict on a task in the worlds of its secret.

ghost use Rattle.std.specs.Prelude.{◌<◌, ◌≤◌, All, IfErr, IfOk, OnOk, Ok, Err, length, List, Some};
ghost use Rattle.isa_model.specs.declared.task.Task.{Task};
ghost use Rattle.isa_model.specs.TaskPlaces.{IsValidTask};
ghost use Rattle.core_model.specs.declared.world.World.{World};
ghost use Rattle.isa_model.specs.Limits.{max_worlds, max_tape_words};
ghost use Rattle.core_model.specs.Loaded.{AreAsLong};
ghost use Rattle.probing_laws.specs.Verdicts.{IsAdmitted, IsEven};
ghost use Rattle.probing_laws.specs.Certified.{IsCertified};
ghost use Rattle.probe_inspect.specs.Certify.{IsRefused, IsFirstCourse, AreEvenGroups, AreAllRows, IsWorldsOf, IsSurveyOf, IsFitting};

use crate::columns::verdict_on;
use crate::course::{Course, course_of};
use crate::groups::{Group, groups_of, odd_group};
use crate::rows::Row;
use crate::table::table_of;
use core_model::{Items, World};
use isa_model::Task;
use probing_laws::{CertFault, Verdict};
use std::alloc::{AllocError, Global};

/// Whether there are worlds, and not too many for the fuel.
fn admit(task: &Task, worlds: &[World]) -> Result<(), CertFault>
    requires worlds { IsWorldsOf task.now worlds.now }
    ensures admitted { OnOk result (IsAdmitted task.now worlds.now) }
    ensures refused { IfErr result (IsRefused task.now worlds.now) }
{
    if worlds.is_empty() {
        return Err(CertFault::NoWorlds);
    }
    let product = worlds.len() as u64 * u64::from(task.fuel);
    if product > 2_000_000 {
        return Err(CertFault::TooMuch { product });
    }
    Ok(())
}

/// The groups of the worlds, where they are equally large.
fn even_groups(alloc: Global, task: &Task, worlds: &[World]) -> Result<Vec<Group>, CertFault>
    requires worlds { IsWorldsOf task.now worlds.now }
    requires admitted { IsAdmitted task.now worlds.now }
    ensures groups { IfOk result (λ groups. AreEvenGroups worlds.now groups.items) }
    ensures refused { IfErr result (IsRefused task.now worlds.now) }
{
    let groups = groups_of(alloc, worlds)?;
    match odd_group(groups.as_slice()) {
        Some(secret_b) => Err(CertFault::Uneven {
            secret_a: groups[0].secret,
            secret_b,
        }),
        None => Ok(groups),
    }
}

/// The course of the first world.
fn first_course(alloc: Global, task: &Task, worlds: &[World]) -> Result<Course, AllocError>
    requires worlds { IsWorldsOf task.now worlds.now }
    requires some { 0 < length worlds.now }
    ensures course { IfOk result (IsFirstCourse task.now worlds.now) }
{
    let mut first = task.copy(alloc)?;
    first.tape = worlds[0].tape.copy(alloc)?;
    course_of(alloc, &first)
}

/// The rows of all worlds, where they take the course of the first one.
fn rows_along(
    alloc: Global,
    course: &Course,
    task: &Task,
    worlds: &[World],
) -> Result<Items<Row>, CertFault>
    requires worlds { IsWorldsOf task.now worlds.now }
    requires admitted { IsAdmitted task.now worlds.now }
    requires even { IsEven worlds.now }
    requires course { IsFirstCourse task.now worlds.now course.now }
    ensures rows { IfOk result (λ rows. AreAllRows task.now worlds.now course.now rows) }
    ensures refused { IfErr result (IsRefused task.now worlds.now) }
{
    let table = table_of(alloc, course, task, worlds)?;
    match table.parting {
        Some(parting) => Err(CertFault::ControlDiffers {
            world_a: 0,
            world_b: parting.world as u32,
            step: parting.step as u32,
        }),
        None => Ok(table.rows),
    }
}

/// A task in the worlds of its secret: the worlds by their secrets, which have equally many, the course that all of them take, and the
/// changes along it in each world, in the order of the worlds.
#[derive(Drop)]
pub struct Survey {
    pub groups: Items<Group>,
    pub course: Course,
    pub rows: Items<Row>,
}

/// The survey of a task in the worlds of its secret, by runs alone, one world after the other. Errors: the faults of [`certify`], in the
/// same order.
pub fn survey_of(alloc: Global, task: &Task, worlds: &[World]) -> Result<Survey, CertFault>
    requires worlds { IsWorldsOf task.now worlds.now }
    ensures survey { IfOk result (λ survey. IsSurveyOf task.now worlds.now survey) }
    ensures fits { IfOk result IsFitting }
    ensures refused { IfErr result (IsRefused task.now worlds.now) }
{
    admit(task, worlds)?;
    let groups = even_groups(alloc, task, worlds)?;
    let course = first_course(alloc, task, worlds)?;
    let rows = rows_along(alloc, &course, task, worlds)?;
    Ok(Survey {
        groups: Items::new(groups),
        course,
        rows,
    })
}

/// The verdict on what was surveyed: the first latch write that isn't independent of the secret, or secure. Errors: where memory ran out.
pub fn verdict_of(alloc: Global, survey: &Survey) -> Result<Verdict, AllocError>
    requires fits { IsFitting survey.now }
    ensures verdict { (T : Task) (worlds : List World) → IsWorldsOf T worlds → IsSurveyOf T worlds survey.now
        → IfOk result (λ verdict. IsCertified T worlds (Ok verdict)) }
{
    verdict_on(
        alloc,
        &survey.course,
        survey.groups.as_slice(),
        survey.rows.as_slice(),
    )
}

/// The verdict on a task in the worlds of its secret, by runs alone, one world after the other: each world is the task with that
/// world's tape. What is secure here is so in the log of every core that runs the task, beside any other tasks and after every list of
/// events: the law [`transfer`](probing_laws::transfer).
///
/// The answers are tried in this order: no worlds; worlds times fuel over 2,000,000; secrets with different numbers of worlds; a world that
/// takes another course than the first one; the first latch write that isn't independent of the secret; secure. Each comes exactly where
/// it is so and none before it is. Memory may come at any place.
///
/// The time goes with worlds times fuel, and with what sorting the changes of each place takes. Beside the course of the first world it
/// takes 8 bytes for each latch write of each world, and holds the machine of one world at a time.
pub fn certify(alloc: Global, task: &Task, worlds: &[World]) -> Result<Verdict, CertFault>
    requires valid { IsValidTask task.now }
    requires few { length worlds.now ≤ max_worlds }
    requires words { All (λ (world : World). length world.tape ≤ max_tape_words) worlds.now }
    requires as_long { AreAsLong worlds.now }
    ensures certified { IsCertified task.now worlds.now result }
{
    let survey = survey_of(alloc, task, worlds)?;
    Ok(verdict_of(alloc, &survey)?)
}
