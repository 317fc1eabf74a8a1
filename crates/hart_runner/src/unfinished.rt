//! Why a run by threads has no end.

ghost use Rattle.std.specs.Prelude.{◌≡◌};

use std::alloc::AllocError;

/// Why a run by threads has no finished core: want of memory, either way.
#[derive(Clone, Copy, Debug, PartialEq, Eq)]
pub enum Unfinished {
    /// There was no memory before the workers began, or for the snapshot after they ended.
    Memory,
    /// A task hasn't ended, since the worker of this hart had no memory for a take.
    Retired {
        /// The first hart whose receipt says so.
        hart: u32,
    },
}

impl From<AllocError> for Unfinished {
    ghost use Rattle.hart_runner.specs.declared.unfinished.Unfinished.TheVariants.{Memory};

    ghost from_gives = { λ _ why. why ≡ Memory };

    fn from(_: AllocError) -> Unfinished {
        Unfinished::Memory
    }
}
