//! Laws about the definitions of `specs/`: each is the contract of a function that does nothing.

ghost use Rattle.std.specs.Prelude.{◌≡◌, ℕ, ◌^◌, ◌<◌, ◌≤◌, List};
ghost use Rattle.core_model.specs.Events.{order_of};
ghost use Rattle.core_model.specs.declared.event.OrderRun.{OrderRun};
ghost use Rattle.timer_plan.specs.OrderText.{runs_of, IsMaximal, run_token};
ghost use Rattle.timer_plan.specs.Tokens.{SpellsRun, SpellsOrderRun};

/// The runs of an order, written out, are the order.
pub fn runs_give_order()
    ensures order { (order : List ℕ) → order_of (runs_of order) ≡ order }
{}

/// The runs of an order are maximal: each comes at least once, and no two neighbours are of one hart.
pub fn runs_are_maximal()
    ensures maximal { (order : List ℕ) → IsMaximal (runs_of order) }
{}

/// No other maximal runs give the same order.
pub fn maximal_runs_are_unique()
    ensures runs { (runs : List OrderRun) → IsMaximal runs → runs_of (order_of runs) ≡ runs }
{}

/// A text spells at most one run.
pub fn run_is_unambiguous()
    ensures hart { (text : List ℕ) (hart times hart2 times2 : ℕ) → SpellsRun text hart times → SpellsRun text hart2 times2 → hart ≡ hart2 }
    ensures times { (text : List ℕ) (hart times hart2 times2 : ℕ) → SpellsRun text hart times → SpellsRun text hart2 times2 → times ≡ times2 }
{}

/// The token that is written of a run spells it.
pub fn written_run_spells_it()
    ensures spelled { (run : OrderRun) → run.hart < 10 → run.times < 2 ^ 64 → SpellsOrderRun (run_token run) run }
{}
