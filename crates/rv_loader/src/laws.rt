//! Laws about the definitions of `specs/`: each is the contract of a function that does nothing.

ghost use Rattle.rv_loader.specs.Valid.{LoadsExactlyValid, RefusalsAreSo, LoadingIsSound, PlansAreOfLines};

/// Exactly the bundles load whose code assembles, whose numbers are within the limits, whose plans are of harts that are there, and
/// whose bound isn't too great.
pub fn loads_exactly_valid()
    ensures law { LoadsExactlyValid }
{}

/// What a refusal says is so.
pub fn refusals_are_so()
    ensures law { RefusalsAreSo }
{}

/// What a bundle in range loads as with 1 to 8 harts has a plan for each hart, valid tasks at their places, and is within the limits;
/// its bound is the one that was judged.
pub fn loading_is_sound()
    ensures law { LoadingIsSound }
{}

/// A hart that a plan line names has the plan of this line, and any other has the tail 4,096 and no quanta.
pub fn plans_are_of_lines()
    ensures law { PlansAreOfLines }
{}
