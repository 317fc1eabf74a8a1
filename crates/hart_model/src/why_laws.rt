//! Laws about the why of a write and about mixtures of tags: each is the contract of a function that does nothing.

ghost use Rattle.hart_model.specs.WhyLaws.{WhySaysItsTags, MixtureSaysItsParts};

/// A write is Public exactly where both tags are public; Value exactly where one is of a task and the other public, with the task,
/// the step and the latch of that tag and its side; Step exactly in user mode from an old tag of a task and of the written latch
/// itself to the tag of a later instruction of both; and Unexplained in all other cases: one tag is Many, or both are of tasks and
/// no such step.
pub fn why_says_its_tags()
    ensures law { WhySaysItsTags }
{}

/// A mixture of tags is Public exactly where all of them are, and Many in all other cases.
pub fn mixture_says_its_parts()
    ensures law { MixtureSaysItsParts }
{}
