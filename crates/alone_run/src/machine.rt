//! A machine that runs one task.

ghost use Rattle.isa_model.specs.declared.task.Task.{Task};
ghost use Rattle.isa_model.specs.Alone.{AloneState, after_fault, after_end, after_service};

use crate::latches::Latches;
use crate::output::Output;
use isa_model::{Deed, End, EndKind};

/// The latches, the pc, the output, the number of tape words that were taken, and the end.
#[derive(Drop)]
pub(crate) struct Machine {
    pub latches: Latches,
    pub pc: u32,
    pub output: Output,
    pub tape_at: usize,
    pub end: Option<End>,
}

impl Machine {
    ghost use Rattle.alone_run.specs.StandsFor.{StandsFor, Leaves};

    /// Ends the task by an exception.
    pub(crate) fn raise(&mut self, cause: u32) -> Deed
        ensures left { (T : Task) (s : AloneState) → StandsFor T s self.old → Leaves T (after_fault cause s) result self.new }
    {
        self.end = Some(End::Faulted { cause, pc: self.pc });
        Deed::Ended(EndKind::Faulted { cause })
    }

    /// Ends the task by a service.
    pub(crate) fn finish(&mut self, end: End, kind: EndKind) -> Deed
        ensures left { (T : Task) (s : AloneState) → StandsFor T s self.old → Leaves T (after_end end kind s) result self.new }
    {
        self.end = Some(end);
        Deed::Ended(kind)
    }

    /// Goes on after a service.
    pub(crate) fn return_from(&mut self, number: u32) -> Deed
        ensures left { (T : Task) (s : AloneState) → StandsFor T s self.old → Leaves T (after_service number s) result self.new }
    {
        self.pc = self.pc.wrapping_add(4);
        Deed::Called(number)
    }
}
