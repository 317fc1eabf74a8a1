//! The limits of a bundle.

ghost use Rattle.std.specs.Prelude.{◌≡◌, ◌<◌, ◌^◌, map, None};
ghost use Rattle.std.specs.Result.{result_err};
ghost use Rattle.std.specs.List.{AllByRecursion};
ghost use Rattle.core_model.specs.Events.{event_count, entry_count};
ghost use Rattle.bundle_text.specs.Range.{IsShort, IsEventRunInRange, IsOrderRunInRange, IsInRange};
ghost use Rattle.rv_loader.specs.Refusals.{first_of, least, most, limit_refusal, tasks_refusal, task_refusal, quanta_refusal, worlds_refusal, world_refusal, events_refusal, order_refusal, limits_refusal, hart_refusal, quanta_listed, fuels_stated, bound_of, bound_refusal, refusal_of};

use crate::coding::CodedTask;
use crate::fault::{LoadFault, What};
use bundle_text::{Bundle, PlanText, TaskText, World};
use core_model::{EventRun, OrderRun};

/// The greatest bound of the queue actions.
const MAX_ACTION_BOUND: u64 = 1_048_576;

/// The least number that is allowed.
fn least(what: What) -> u64
    ensures value { result ≡ least what }
{
    match what {
        What::Tasks => 1,
        _ => 0,
    }
}

/// The greatest number that is allowed.
fn most(what: What) -> u64
    ensures value { result ≡ most what }
{
    match what {
        What::Tasks => 32,
        What::Code | What::Tape => 4_096,
        What::Quanta => 1_024,
        What::Worlds => 65_536,
        What::Events | What::Order => 1_048_576,
    }
}

/// Refuses a number that is outside of its range.
fn check(what: What, got: u64) -> Result<(), LoadFault>
    ensures refusal { result_err result ≡ limit_refusal what got }
{
    if least(what) <= got && got <= most(what) {
        Ok(())
    } else {
        Err(LoadFault::Limit { what, got })
    }
}

/// Refuses a number of tasks.
fn check_tasks(tasks: &[CodedTask]) -> Result<(), LoadFault>
    ensures refusal { result_err result ≡ tasks_refusal tasks.now }
{
    check(What::Tasks, tasks.len() as u64)
}

/// Refuses the first code or tape of a task that is too long.
fn check_each_task(tasks: &[CodedTask]) -> Result<(), LoadFault>
    ensures refusal { result_err result ≡ first_of (map task_refusal tasks.now) }
{
    for task in tasks {
        check(What::Code, task.code.len() as u64)?;
        check(What::Tape, task.tape.len() as u64)?;
    }
    Ok(())
}

/// Refuses the first plan line that has too many quanta.
fn check_quanta(lines: &[PlanText]) -> Result<(), LoadFault>
    ensures refusal { result_err result ≡ first_of (map quanta_refusal lines.now) }
{
    for line in lines {
        check(What::Quanta, line.plan.quanta.as_slice().len() as u64)?;
    }
    Ok(())
}

/// Refuses a number of worlds.
fn check_worlds(worlds: &[World]) -> Result<(), LoadFault>
    ensures refusal { result_err result ≡ worlds_refusal worlds.now }
{
    check(What::Worlds, worlds.len() as u64)
}

/// Refuses the first world that has too many words.
fn check_each_world(worlds: &[World]) -> Result<(), LoadFault>
    ensures refusal { result_err result ≡ first_of (map world_refusal worlds.now) }
{
    for world in worlds {
        check(What::Tape, world.tape.len() as u64)?;
    }
    Ok(())
}

/// How many events runs stand for.
fn event_count(runs: &[EventRun]) -> u64
    requires fits { event_count runs.now < 2 ^ 64 }
    ensures count { result ≡ event_count runs.now }
{
    runs.iter().map(|run| u64::from(run.times)).sum()
}

/// How many entries of an order runs stand for.
fn entry_count(runs: &[OrderRun]) -> u64
    requires fits { entry_count runs.now < 2 ^ 64 }
    ensures count { result ≡ entry_count runs.now }
{
    runs.iter().map(|run| u64::from(run.times)).sum()
}

/// Refuses a number of events.
fn check_events(runs: &[EventRun]) -> Result<(), LoadFault>
    requires short { IsShort runs.now }
    requires range { AllByRecursion IsEventRunInRange runs.now }
    ensures refusal { result_err result ≡ events_refusal runs.now }
{
    check(What::Events, event_count(runs))
}

/// Refuses a number of entries of the order.
fn check_order(runs: &[OrderRun]) -> Result<(), LoadFault>
    requires short { IsShort runs.now }
    requires range { AllByRecursion IsOrderRunInRange runs.now }
    ensures refusal { result_err result ≡ order_refusal runs.now }
{
    check(What::Order, entry_count(runs))
}

/// Refuses the first number that is outside of its range.
fn check_limits(bundle: &Bundle, tasks: &[CodedTask]) -> Result<(), LoadFault>
    requires range { IsInRange bundle.now }
    ensures refusal { result_err result ≡ limits_refusal bundle.now tasks.now }
{
    check_tasks(tasks)?;
    check_each_task(tasks)?;
    check_quanta(bundle.plans.as_slice())?;
    check_worlds(bundle.worlds.as_slice())?;
    check_each_world(bundle.worlds.as_slice())?;
    check_events(bundle.events.as_slice())?;
    check_order(bundle.order.as_slice())
}

/// Refuses the first plan line of a hart that isn't there.
fn check_harts(lines: &[PlanText], harts: u32) -> Result<(), LoadFault>
    ensures refusal { result_err result ≡ first_of (map (hart_refusal harts) lines.now) }
{
    for line in lines {
        if line.hart >= harts {
            return Err(LoadFault::PlanForMissingHart { hart: line.hart });
        }
    }
    Ok(())
}

/// How many quanta plan lines list.
fn quanta_listed(lines: &[PlanText]) -> u64
    requires fits { quanta_listed lines.now < 2 ^ 64 }
    ensures sum { result ≡ quanta_listed lines.now }
{
    lines
        .iter()
        .map(|line| line.plan.quanta.as_slice().len() as u64)
        .sum()
}

/// The sum of the fuels of tasks.
fn fuels_stated(texts: &[TaskText]) -> u64
    requires fits { fuels_stated texts.now < 2 ^ 64 }
    ensures sum { result ≡ fuels_stated texts.now }
{
    texts.iter().map(|text| u64::from(text.fuel)).sum()
}

/// The bound of the queue actions.
fn bound_of(bundle: &Bundle, harts: u32) -> u64
    requires range { IsInRange bundle.now }
    requires quanta { first_of (map quanta_refusal bundle.now.plans) ≡ None }
    ensures bound { result ≡ bound_of bundle.now harts }
{
    let quanta = quanta_listed(bundle.plans.as_slice());
    let fuels = fuels_stated(bundle.tasks.as_slice());
    2 * (quanta + fuels + bundle.tasks.len() as u64) + u64::from(harts)
}

/// Refuses a bound of the queue actions that is too great.
fn check_bound(bundle: &Bundle, harts: u32) -> Result<(), LoadFault>
    requires range { IsInRange bundle.now }
    requires quanta { first_of (map quanta_refusal bundle.now.plans) ≡ None }
    ensures refusal { result_err result ≡ bound_refusal (bound_of bundle.now harts) }
{
    let bound = bound_of(bundle, harts);
    if bound <= MAX_ACTION_BOUND {
        Ok(())
    } else {
        Err(LoadFault::TooLong { bound })
    }
}

/// Refuses a bundle whose code is words.
pub(crate) fn check_all(bundle: &Bundle, harts: u32, tasks: &[CodedTask]) -> Result<(), LoadFault>
    requires range { IsInRange bundle.now }
    ensures refusal { result_err result ≡ refusal_of bundle.now harts tasks.now }
{
    check_limits(bundle, tasks)?;
    check_harts(bundle.plans.as_slice(), harts)?;
    check_bound(bundle, harts)
}
