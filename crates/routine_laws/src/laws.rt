//! Laws of routines: each is the contract of a function that does nothing.

ghost use Rattle.routine_laws.specs.Laws.{AcceptedRoutinesDo, OwnPartsAreAccepted};

/// Words that break no rule of a save part save, whatever code follows them, and words that break no rule of a restore part restore,
/// whatever code stands around them: the values, the tags and entries, and two runs that are alike.
pub fn accepted_routines_do()
    ensures routines { AcceptedRoutinesDo }
{}

/// The kernel's own save part and restore part break no rule.
pub fn own_parts_are_accepted()
    ensures parts { OwnPartsAreAccepted }
{}
