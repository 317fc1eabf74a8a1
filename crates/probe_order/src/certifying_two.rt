//! The verdict on a task in the worlds of its secret by two probes at once.

ghost use Rattle.std.specs.Prelude.{◌≡◌, ◌<◌, ◌≤◌, All, List, Some, length, slice_get};
ghost use Rattle.isa_model.specs.declared.task.Task.{Task};
ghost use Rattle.isa_model.specs.TaskPlaces.{IsValidTask};
ghost use Rattle.isa_model.specs.Limits.{max_worlds, max_tape_words};
ghost use Rattle.core_model.specs.declared.world.World.{World};
ghost use Rattle.core_model.specs.Loaded.{AreAsLong};
ghost use Rattle.probing_laws.specs.CertifiedTwo.{IsSecureAt, IsCertifiedTwo};
ghost use Rattle.probe_inspect.specs.Certify.{IsWorldsOf, IsSurveyOf, IsFitting};
ghost use Rattle.probe_inspect.specs.declared.groups.Group.{Group};
ghost use Rattle.probe_order.specs.CertifyTwo.{fault_of, leak_between};
ghost use Rattle.probe_order.specs.declared.places.Place.{Place};

use crate::pairs::{Pair, difference_among};
use crate::places::{Place, places_of};
use core_model::World;
use isa_model::Task;
use isa_model::laws::latch_order_is_total;
use probe_inspect::{Group, Survey, survey_of, verdict_of};
use probing_laws::{CertFault, TwoFault, Verdict, VerdictTwo};
use std::alloc::{AllocError, Global};

/// A fault by one probe as one by two.
fn fault_by_one(fault: CertFault) -> TwoFault
    ensures fault { result ≡ fault_of fault }
{
    match fault {
        CertFault::Memory => TwoFault::Memory,
        CertFault::NoWorlds
        | CertFault::TooMuch { .. }
        | CertFault::Uneven { .. }
        | CertFault::ControlDiffers { .. } => TwoFault::Cert(fault),
    }
}

/// The leak at two places, by their numbers.
fn leak_of(groups: &[Group], places: &[Place], pair: &Pair) -> VerdictTwo
    requires some { 0 < length groups.now }
    requires first { pair.now.first < length places.now }
    requires second { pair.now.second < length places.now }
    ensures leak { (g : Group) (p q : Place) → slice_get groups.now 0 ≡ Some g → slice_get places.now pair.now.first ≡ Some p
        → slice_get places.now pair.now.second ≡ Some q → result ≡ leak_between p q g.secret pair.now.difference }
{
    let first = places[pair.first];
    let second = places[pair.second];
    let difference = pair.difference;
    let (before, after) = difference.joint;
    VerdictTwo::Leak {
        steps: (first.step, second.step),
        latches: (first.latch, second.latch),
        secret_a: groups[0].secret,
        secret_b: difference.secret,
        values: (before.0, before.1, after.0, after.1),
        count_a: difference.count_first,
        count_b: difference.count_other,
    }
}

/// The verdict by two probes where one tells nothing, with so many latch writes in each world.
fn by_two(alloc: Global, survey: &Survey, places: u64) -> Result<VerdictTwo, TwoFault>
    requires fits { IsFitting survey.now }
    requires few { length survey.now.rows ≤ max_worlds }
    requires places { places ≤ 700000 }
    ensures certified { (T : Task) (worlds : List World) → IsWorldsOf T worlds → IsSurveyOf T worlds survey.now → IsSecureAt T worlds places
        → IsCertifiedTwo T worlds result }
{
    let product = survey.rows.len() as u64 * places * places;
    if product > 50_000_000 {
        return Err(TwoFault::TooMany { product });
    }
    let list = places_of(alloc, &survey.course)?;
    let groups = survey.groups.as_slice();
    latch_order_is_total();
    match difference_among(alloc, groups, survey.rows.as_slice(), list.len())? {
        Some(pair) => Ok(leak_of(groups, list.as_slice(), &pair)),
        None => Ok(VerdictTwo::Secure { places }),
    }
}

/// The verdict on a task in the worlds of its secret by two probes at once, by runs alone. What is secure here is so in the log of every core
/// that runs the task, beside any other tasks and after every list of events: the law [`transfer_two`](probing_laws::transfer_two).
///
/// The answers are tried in this order: the faults of [`certify`](probe_inspect::certify); its leak; worlds times the square of the number
/// of latch writes over 50,000,000; the first two latch writes that together aren't independent of the secret, by the first and then by the
/// second one; secure. Each comes exactly where it is so and none before it is. Memory may come at any place.
///
/// Beside what `certify` takes, the time goes with the worlds times the pairs of latch writes, and it takes up to 12 bytes for each latch
/// write of each world.
pub fn certify_two(alloc: Global, task: &Task, worlds: &[World]) -> Result<VerdictTwo, TwoFault>
    requires valid { IsValidTask task.now }
    requires few { length worlds.now ≤ max_worlds }
    requires words { All (λ (world : World). length world.tape ≤ max_tape_words) worlds.now }
    requires as_long { AreAsLong worlds.now }
    ensures certified { IsCertifiedTwo task.now worlds.now result }
{
    let survey = match survey_of(alloc, task, worlds) {
        Ok(survey) => survey,
        Err(fault) => return Err(fault_by_one(fault)),
    };
    let verdict = verdict_of(alloc, &survey)?;
    match verdict {
        Verdict::Secure { places } => by_two(alloc, &survey, places),
        Verdict::Leak { .. } => Ok(VerdictTwo::One(verdict)),
    }
}
