//! The steps of a hart up to its next queue action.

ghost use Rattle.std.specs.Prelude.{◌≡◌, ◌+◌, ℕ, List, ◌++◌, length};
ghost use Rattle.hart_model.specs.declared.probe.Probe.{Probe as LogEntry};
ghost use Rattle.hart_model.specs.HartStep.{hart_step};
ghost use Rattle.hart_state.specs.Asked.{AsksFor};
ghost use Rattle.core_model.specs.declared.plan.Plan.{Plan as HartPlan};
ghost use Rattle.core_model.specs.Orders.{HartPace};
ghost use Rattle.order_laws.specs.OwnSteps.{AtAction};
ghost use Rattle.hart_advance.specs.Pacing.{IsPaceOf, IsUnderKernel};
ghost use Rattle.hart_advance.specs.Advancing.{ReachesAction, CanAdvance};

use crate::stepping::step_paced;
use hart_model::{Did, QueueCall};
use hart_state::Hart;
use probe_log::Keeper;
use timer_plan::Pace;

/// No hart comes to a queue action by more steps, the action's own among them.
const MAX_STEPS: u32 = 5_000;

/// The steps of a hart before its next queue action, with the ticks of its plan, and the action that it wants then. The hart is on its way under
/// a kernel that has this code, and comes to an action by its own steps; the keeper has room for their entries and 6 more. As the law
/// [`harts_can_advance`](crate::laws::harts_can_advance) says, that is so of each hart of a coarse run between two of its actions, unless it has
/// found nothing, and of a keeper with room for 30,000 entries. For every plan, every place in it for which the pace stands, and every number of
/// the hart: the answer, the hart and the entries are those of its own steps up to the action, and the pace stands for the same place. The action
/// isn't made. Takes no memory.
pub fn advance<K: Keeper>(
    hart: &mut Hart,
    pace: &mut Pace,
    code: &[u32],
    keeper: &mut K,
) -> QueueCall
    requires kernel { IsUnderKernel code.now hart.old }
    requires can { CanAdvance code.now hart.old pace.old (K.room_of keeper.old) }
    ensures asks { AsksFor result (hart_step code.now hart.new) }
    ensures call { (plan : HartPlan) (progress : HartPace) (number : ℕ) (a : AtAction)
        → ReachesAction code.now plan progress number hart.old pace.old a → result ≡ a.call }
    ensures hart { (plan : HartPlan) (progress : HartPace) (number : ℕ) (a : AtAction)
        → ReachesAction code.now plan progress number hart.old pace.old a → hart.new ≡ a.hart }
    ensures pace { (plan : HartPlan) (progress : HartPace) → IsPaceOf plan progress hart.old pace.old → IsPaceOf plan progress hart.new pace.new }
    ensures log { (plan : HartPlan) (progress : HartPace) (number : ℕ) (a : AtAction)
        → ReachesAction code.now plan progress number hart.old pace.old a
        → (log : List LogEntry) → K.stands keeper.old log → K.stands keeper.new (log ++ a.probes) }
    ensures room { (plan : HartPlan) (progress : HartPace) (number : ℕ) (a : AtAction)
        → ReachesAction code.now plan progress number hart.old pace.old a → K.room_of keeper.new + length a.probes ≡ K.room_of keeper.old }
{
    for _step in 0..MAX_STEPS {
        match step_paced(hart, pace, code, keeper) {
            Did::Wants(call) => return call,
            Did::Ran | Did::Trapped(_) | Did::Wedged => {}
        }
    }
    unreachable!()
}
