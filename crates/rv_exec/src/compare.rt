//! Comparisons.

ghost use Rattle.std.specs.Prelude.{◌≡◌, int_lt};
ghost use Rattle.isa_model.specs.Arithmetic.{is_taken, signed};

use isa_model::Cmp;

/// Whether one word is below another as signed numbers.
pub(crate) fn is_less_signed(a: u32, b: u32) -> bool
    ensures value { result ≡ int_lt (signed a) (signed b) }
{
    a.cast_signed() < b.cast_signed()
}

/// Whether a branch with this comparison is taken (unprivileged manual, RV32I, "Conditional Branches"): Blt and Bge compare
/// signed numbers, Bltu and Bgeu unsigned ones.
pub fn taken(op: Cmp, a: u32, b: u32) -> bool
    ensures value { result ≡ is_taken op a b }
{
    match op {
        Cmp::Beq => a == b,
        Cmp::Bne => a != b,
        Cmp::Blt => is_less_signed(a, b),
        Cmp::Bge => !is_less_signed(a, b),
        Cmp::Bltu => a < b,
        Cmp::Bgeu => a >= b,
    }
}
