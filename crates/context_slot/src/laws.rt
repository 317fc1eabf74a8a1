//! A law about contexts: the contract of a function that does nothing.

ghost use Rattle.context_slot.specs.Laws.{AdmittedStandsForTask};

/// A task at its start that is admitted into a slot whose registers are 0 and public stands for itself after 0 instructions.
pub fn admitted_stands_for_task()
    ensures law { AdmittedStandsForTask }
{}
