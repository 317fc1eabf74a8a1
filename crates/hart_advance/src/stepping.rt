//! One step of a hart under its plan.

ghost use Rattle.std.specs.Prelude.{◌≡◌, ◌≢◌, ◌≤◌, ◌+◌, ◌==◌, List, ◌++◌, length};
ghost use Rattle.hart_model.specs.declared.probe.Probe.{Probe as LogEntry};
ghost use Rattle.hart_model.specs.declared.calls.QueueCall.{QueueCall};
ghost use Rattle.hart_model.specs.HartStep.{hart_step};
ghost use Rattle.hart_model.specs.StepResult.{did_of, hart_after, probes_of};
ghost use Rattle.hart_model.specs.UserStep.{is_fuel_used};
ghost use Rattle.hart_state.specs.Asked.{AsksFor};
ghost use Rattle.core_model.specs.declared.plan.Plan.{Plan as HartPlan};
ghost use Rattle.core_model.specs.Orders.{HartPace, held_count};
ghost use Rattle.core_model.specs.Routines.{ticked_if};
ghost use Rattle.hart_advance.specs.Pacing.{IsPaceOf, IsUnderKernel, due_hart, paced_step, is_quantum_over as quantum_is_over, counted};

use hart_model::{Did, Mode};
use hart_state::Hart;
use probe_log::Keeper;
use timer_plan::Pace;

/// How many instructions the task that a hart holds has executed; 0 where it holds none.
fn count_of(hart: &Hart) -> u32
    ensures count { result ≡ held_count hart.now.held }
{
    match hart.held() {
        None => 0,
        Some(context) => context.body().count(),
    }
}

/// Whether a hart holds a task that has used its fuel.
fn has_used_fuel(hart: &Hart) -> bool
    ensures test { result ≡ is_fuel_used hart.now.held }
{
    match hart.held() {
        None => false,
        Some(context) => context.body().count() == context.body().task().fuel,
    }
}

/// Whether the quantum is over, in user mode, with fuel left.
fn is_quantum_over(hart: &Hart, pace: &Pace) -> bool
    ensures test { result ≡ quantum_is_over hart.now pace.now }
{
    hart.mode() == Mode::User && !has_used_fuel(hart) && pace.due()
}

/// The tick where the quantum is over.
fn tick_if_over(hart: &mut Hart, pace: &Pace)
    ensures hart { hart.new ≡ ticked_if (quantum_is_over hart.old pace.now) hart.old }
{
    if is_quantum_over(hart, pace) {
        hart.tick();
    }
}

/// Counts the instruction that a step executed, if it executed one: by the counts of the task before the step and after it.
fn count_instruction(pace: &mut Pace, before: u32, after: u32)
    requires not_due { before ≢ after → pace.old.ran ≢ pace.old.quantum }
    ensures pace { pace.new ≡ counted (before == after) pace.old }
{
    if before != after {
        pace.ran();
    }
}

/// One step of a hart under its plan, with the tick before it where the plan has one there. The hart is on its way under a kernel that has this
/// code, and the keeper has room for 6 entries. For every plan and every place in it for which the pace stands: the hart after it, the answer and
/// the entries are those of the step that has the plan's tick before it, and the pace stands for the same place, with the instruction counted
/// if the step executed one, also if it trapped. At a queue action it answers `Wants`, and the hart then wants this action. Takes no memory.
pub fn step_paced<K: Keeper>(hart: &mut Hart, pace: &mut Pace, code: &[u32], keeper: &mut K) -> Did
    requires kernel { IsUnderKernel code.now hart.old }
    requires room { 6 ≤ K.room_of keeper.old }
    ensures did { (plan : HartPlan) (progress : HartPace) → IsPaceOf plan progress hart.old pace.old
        → result ≡ did_of (paced_step code.now plan progress hart.old) }
    ensures wants { (plan : HartPlan) (progress : HartPace) → IsPaceOf plan progress hart.old pace.old → (call : QueueCall) → result ≡ Did.Wants call
        → AsksFor call (paced_step code.now plan progress hart.old) }
    ensures asks { (call : QueueCall) → result ≡ Did.Wants call → AsksFor call (hart_step code.now hart.new) }
    ensures hart { (plan : HartPlan) (progress : HartPace) → IsPaceOf plan progress hart.old pace.old
        → hart.new ≡ hart_after (due_hart plan progress hart.old) (paced_step code.now plan progress hart.old) }
    ensures pace { (plan : HartPlan) (progress : HartPace) → IsPaceOf plan progress hart.old pace.old → IsPaceOf plan progress hart.new pace.new }
    ensures log { (plan : HartPlan) (progress : HartPace) → IsPaceOf plan progress hart.old pace.old → (log : List LogEntry) → K.stands keeper.old log
        → K.stands keeper.new (log ++ probes_of (paced_step code.now plan progress hart.old)) }
    ensures room { (plan : HartPlan) (progress : HartPace) → IsPaceOf plan progress hart.old pace.old
        → K.room_of keeper.new + length (probes_of (paced_step code.now plan progress hart.old)) ≡ K.room_of keeper.old }
{
    tick_if_over(hart, pace);
    let before = count_of(hart);
    let did = hart.step(code, keeper);
    let after = count_of(hart);
    count_instruction(pace, before, after);
    did
}
