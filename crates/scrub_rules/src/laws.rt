//! Laws of the rules: each is the contract of a function that does nothing.

ghost use Rattle.scrub_rules.specs.Laws.{AnswersAreExact, PartsMakeRoutines};

use routine_laws::own_parts_are_accepted;

/// For the same words at most one answer is right: they are accepted, with one division, or one rule at one place is the first that is
/// broken.
pub fn answers_are_exact()
    ensures answers { AnswersAreExact }
{}

/// Each accepted save part with each accepted restore part is accepted, EBREAK between them; so the kernel's own parts are.
pub fn parts_make_routines()
    ensures routines { PartsMakeRoutines }
{
    own_parts_are_accepted();
}
