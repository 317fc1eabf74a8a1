//! Products, quotients and remainders (unprivileged manual, M).

ghost use Rattle.std.specs.Prelude.{◌≡◌, pos, ◌*ℤ◌};
ghost use Rattle.isa_model.specs.Arithmetic.{alu_of, high_word, signed};
ghost use Rattle.isa_model.specs.declared.instr.Alu.TheVariants.{Div, Divu, Rem, Remu};
ghost use Rattle.isa_model.specs.Effect.{is_of_multiplier};

use isa_model::Alu;

/// Whether an operation is one of the multiplier, which divides too. Its result goes through a latch of its own.
pub fn is_of_multiplier(op: Alu) -> bool
    ensures test { result ≡ is_of_multiplier op }
{
    matches!(
        op,
        Alu::Mul
            | Alu::Mulh
            | Alu::Mulhsu
            | Alu::Mulhu
            | Alu::Div
            | Alu::Divu
            | Alu::Rem
            | Alu::Remu
    )
}

/// The high word of a product.
fn high_word(product: i64) -> u32
    ensures value { result ≡ high_word product }
{
    (product.cast_unsigned() >> 32) as u32
}

/// The high word of the product of two signed numbers.
pub(crate) fn high_of_signed(a: u32, b: u32) -> u32
    ensures value { result ≡ high_word (signed a *ℤ signed b) }
{
    high_word(i64::from(a.cast_signed()) * i64::from(b.cast_signed()))
}

/// The high word of the product of a signed and an unsigned number.
pub(crate) fn high_of_mixed(a: u32, b: u32) -> u32
    ensures value { result ≡ high_word (signed a *ℤ pos b) }
{
    high_word(i64::from(a.cast_signed()) * i64::from(b))
}

/// The high word of the product of two unsigned numbers.
pub(crate) fn high_of_unsigned(a: u32, b: u32) -> u32
    ensures value { result ≡ high_word (pos a *ℤ pos b) }
{
    ((u64::from(a) * u64::from(b)) >> 32) as u32
}

/// The quotient of two signed numbers, rounded towards zero; all ones of a division by 0.
pub(crate) fn signed_quotient(a: u32, b: u32) -> u32
    ensures value { result ≡ alu_of Div a b }
{
    if b == 0 {
        0xffff_ffff
    } else {
        a.cast_signed()
            .wrapping_div(b.cast_signed())
            .cast_unsigned()
    }
}

/// The quotient of two unsigned numbers; all ones of a division by 0.
pub(crate) fn quotient(a: u32, b: u32) -> u32
    ensures value { result ≡ alu_of Divu a b }
{
    if b == 0 { 0xffff_ffff } else { a / b }
}

/// The remainder of two signed numbers, with the sign of the dividend; the dividend of a division by 0.
pub(crate) fn signed_remainder(a: u32, b: u32) -> u32
    ensures value { result ≡ alu_of Rem a b }
{
    if b == 0 {
        a
    } else {
        a.cast_signed()
            .wrapping_rem(b.cast_signed())
            .cast_unsigned()
    }
}

/// The remainder of two unsigned numbers; the dividend of a division by 0.
pub(crate) fn remainder(a: u32, b: u32) -> u32
    ensures value { result ≡ alu_of Remu a b }
{
    if b == 0 { a } else { a % b }
}
