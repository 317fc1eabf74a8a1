//! Operations that give one of their operands.

ghost use Rattle.std.specs.Prelude.{◌≡◌};
ghost use Rattle.tape_terms.specs.Kept.{keeps_first, keeps_second, keeps_both};

use isa_model::Alu;

/// Whether an operation gives its first operand where the second is 0.
pub fn is_first_kept(op: Alu) -> bool
    ensures test { result ≡ keeps_first op }
{
    matches!(
        op,
        Alu::Add | Alu::Sub | Alu::Sll | Alu::Srl | Alu::Xor | Alu::Or
    )
}

/// Whether it gives its second operand where the first is 0.
pub fn is_second_kept(op: Alu) -> bool
    ensures test { result ≡ keeps_second op }
{
    matches!(op, Alu::Add | Alu::Xor | Alu::Or)
}

/// Whether it gives a word of this word twice.
pub fn are_both_kept(op: Alu) -> bool
    ensures test { result ≡ keeps_both op }
{
    matches!(op, Alu::Or | Alu::And)
}
