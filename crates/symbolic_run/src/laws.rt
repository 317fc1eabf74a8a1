//! Laws of runs over abstract cells: each is the contract of a function that does nothing.

ghost use Rattle.symbolic_run.specs.Laws.{StepsAreTaken, PathsLead, RunsArePaths};

/// Each instruction that is followed over abstract cells does on a hart what its step says.
pub fn steps_are_taken()
    ensures law { StepsAreTaken }
{}

/// A path that is followed leads a hart to its end, whatever ticks come, and every entry on the way is explained.
pub fn paths_lead()
    ensures law { PathsLead }
{}

/// A run over straight words is the path of their instructions that takes no branch, and this path asks nothing.
pub fn runs_are_paths()
    ensures law { RunsArePaths }
{}
