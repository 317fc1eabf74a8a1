//! Laws about the definitions of `specs/`: each is the contract of a function that does nothing.

ghost use Rattle.hart_model.specs.Laws.{LowestMatchDecides, UnmatchedFails, NapotIsAligned, BoundsAllowRunAlone, MretUndoesTrap};

/// The lowest entry that matches any byte of an access in user mode decides about it alone; an access that none matches fails
/// (privileged manual, "Physical Memory Protection", "Priority and Matching Logic").
pub fn lowest_match_decides()
    ensures law { LowestMatchDecides }
    ensures unmatched { UnmatchedFails }
{}

/// A power-of-two entry covers a naturally aligned power of two of bytes: 8 where its address word ends in 0, and twice as many
/// for each low 1 (privileged manual, "Physical Memory Protection", "Address Matching").
pub fn napot_is_aligned()
    ensures law { NapotIsAligned }
{}

/// With the boot configuration and a valid task's four bounds, user mode may fetch, load and store exactly where the task's run
/// alone may.
pub fn bounds_allow_run_alone()
    ensures law { BoundsAllowRunAlone }
{}

/// A trap and then MRET give back the mode and the interrupt enable, and MRET goes to the pc of the trap.
pub fn mret_undoes_trap()
    ensures law { MretUndoesTrap }
{}
