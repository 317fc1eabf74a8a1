//! Why a bundle isn't loaded.

ghost use Rattle.std.specs.Prelude.{◌≡◌};

use rv_asm::{AsmFault, AsmKind};
use std::alloc::{AllocError, AllocFailed};
use std::convert::From;

/// What is counted, with the numbers that are allowed.
#[derive(Clone, Copy, Debug, PartialEq, Eq)]
pub enum What {
    /// The tasks: 1 to 32.
    Tasks,
    /// The words of a task's code: 0 to 4,096.
    Code,
    /// The words of the tape of a task or of a world: 0 to 4,096.
    Tape,
    /// The quanta of a plan: 0 to 1,024.
    Quanta,
    /// The worlds: 0 to 65,536.
    Worlds,
    /// The events, each run as often as it comes: 0 to 1,048,576.
    Events,
    /// The entries of the order, each run as often as it comes: 0 to 1,048,576.
    Order,
}

/// The first reason why a bundle isn't loaded, in the order in which they are tried.
#[derive(Clone, Copy, Debug, PartialEq, Eq)]
pub enum LoadFault {
    /// The code of a task doesn't assemble, for another reason than memory.
    Asm(AsmFault),
    /// A number is outside of its range.
    Limit {
        /// What was counted.
        what: What,
        /// The number.
        got: u64,
    },
    /// A plan line names a hart that isn't there.
    PlanForMissingHart {
        /// The hart's number.
        hart: u32,
    },
    /// The harts may make too many queue actions, so that an order may be too long.
    TooLong {
        /// Twice the listed quanta, the sum of the fuels and the tasks, and once the harts; more than 1,048,576.
        bound: u64,
    },
    /// Memory ran out.
    Memory,
}

impl From<AllocError> for LoadFault {
    ghost use Rattle.rv_loader.specs.declared.fault.LoadFault.TheVariants.{Memory};

    ghost from_gives = { λ _ fault. fault ≡ Memory };

    fn from(_: AllocError) -> LoadFault {
        LoadFault::Memory
    }
}

impl<T: Drop> From<AllocFailed<T>> for LoadFault {
    ghost use Rattle.rv_loader.specs.declared.fault.LoadFault.TheVariants.{Memory};

    ghost from_gives = { λ _ fault. fault ≡ Memory };

    fn from(_: AllocFailed<T>) -> LoadFault {
        LoadFault::Memory
    }
}

impl From<AsmFault> for LoadFault {
    ghost use Rattle.rv_loader.specs.Memory.{fault_of};

    ghost from_gives = { λ refused fault. fault ≡ fault_of refused };

    fn from(refused: AsmFault) -> LoadFault {
        match refused.kind {
            AsmKind::Memory => LoadFault::Memory,
            _ => LoadFault::Asm(refused),
        }
    }
}
