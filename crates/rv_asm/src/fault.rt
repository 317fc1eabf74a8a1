//! Why a listing is refused.

use asm_line::AsmKind;
use std::alloc::AllocError;

/// The first line that is refused, and why.
#[derive(Clone, Copy, Debug, PartialEq, Eq)]
pub struct AsmFault {
    /// The number of the line, or 0 where memory ran out.
    pub line: u32,
    /// The reason. `Memory` is want of memory alone.
    pub kind: AsmKind,
}

impl From<AllocError> for AsmFault {
    ghost use Rattle.std.specs.Prelude.{◌≡◌};
    ghost use Rattle.rv_asm.specs.Memory.{memory_fault};

    ghost from_gives = { λ _ fault. fault ≡ memory_fault };

    fn from(_refused: AllocError) -> AsmFault {
        AsmFault {
            line: 0,
            kind: AsmKind::Memory,
        }
    }
}
