//! Laws about the definitions of `specs/`: each is the contract of a function that does nothing.

ghost use Rattle.hart_advance.specs.Laws.{PacesFollowActions, HartsCanAdvance};

/// A new pace stands for where a hart is in its plan before its first take. After a take that gave a context it stands for it once it has drawn
/// the next quantum, and after any other action, which leaves the hart empty-handed, as it is.
pub fn paces_follow_actions()
    ensures paces { PacesFollowActions }
{}

/// Each hart of a coarse run that is kept meets what [`advance`](crate::advance) requires, unless it has found nothing, if its pace stands for
/// where it is in its plan and the keeper has room for 30,000 entries.
pub fn harts_can_advance()
    ensures can { HartsCanAdvance }
{}
