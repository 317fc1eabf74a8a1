//! The pace of a hart.

ghost use Rattle.std.specs.Prelude.{◌≡◌, ◌≢◌, ℕ, ◌+◌, ◌≤◌, ◌↔◌, IsTrue};
ghost use Rattle.core_model.specs.declared.plan.Plan.{Plan as HartPlan};
ghost use Rattle.timer_plan.specs.Pace.{pace_of, after_take};

use core_model::Plan;
use std::marker::Model;

/// Where a hart stands in its plan: which quantum counts, and how many instructions its task executed since the take that drew it
/// (this project's own). Contracts see the quanta that are left, the tail, the quantum and that number. Each call takes constant time
/// and no memory.
#[derive(Debug, Drop)]
pub struct Pace {
    plan: Plan,
    drawn: usize,
    quantum: u16,
    ran: u16,
}

impl Model for Pace {
    ghost use Rattle.std.specs.Prelude.{◌≤◌, drop, length};
    ghost use Rattle.timer_plan.specs.Pace.{PaceState};

    ghost Value = { PaceState };

    ghost view = { λ p. record { left = drop p.drawn p.plan.quanta; tail = p.plan.tail; quantum = p.quantum; ran = p.ran } };

    ghost invariant = { λ p. (p.ran ≤ p.quantum) × (p.drawn ≤ length p.plan.quanta) };
}

impl Pace {
    /// The pace of a plan before the first take. Its quantum is 0, and no instruction ran.
    pub fn new(plan: Plan) -> Pace
        ensures pace { result ≡ pace_of plan 0 0 }
    {
        Pace {
            plan,
            drawn: 0,
            quantum: 0,
            ran: 0,
        }
    }

    /// The listed quanta that no take has drawn yet, in their order. Each is a number of instructions.
    pub fn left(&self) -> &[u16]
        ensures left { result.now ≡ self.now.left }
    {
        &self.plan.quanta.as_slice()[self.drawn..]
    }

    /// The quantum of each take once no listed one is left, a number of instructions.
    pub fn tail(&self) -> u16
        ensures tail { result ≡ self.now.tail }
    {
        self.plan.tail
    }

    /// A take gave a context: draws the next quantum of the plan, and no instruction ran since.
    pub fn took(&mut self)
        ensures pace { self.new ≡ after_take self.old }

        // After every number of takes the pace is the plan's.
        ensures of_plan { (plan : HartPlan) (takes ran : ℕ) → self.old ≡ pace_of plan takes ran → self.new ≡ pace_of plan (takes + 1) 0 }
    {
        let quanta = self.plan.quanta.as_slice();
        if self.drawn < quanta.len() {
            self.quantum = quanta[self.drawn];
            self.drawn += 1;
        } else {
            self.quantum = self.plan.tail;
        }
        self.ran = 0;
    }

    /// One instruction more ran. Only while no tick is due.
    pub fn ran(&mut self)
        requires not_due { self.old.ran ≢ self.old.quantum }
        ensures pace { self.new ≡ record self.old { ran = self.old.ran + 1 } }
    {
        self.ran += 1;
    }

    /// Whether a tick is due: as many instructions ran as the quantum says.
    pub fn due(&self) -> bool
        ensures test { IsTrue result ↔ (self.now.ran ≡ self.now.quantum) }
        ensures within { self.now.ran ≤ self.now.quantum }
    {
        self.ran == self.quantum
    }
}
