//! The operations of the arithmetic unit.

ghost use Rattle.std.specs.Prelude.{◌≡◌, ◌%◌, ◌^◌};
ghost use Rattle.isa_model.specs.Arithmetic.{alu_of, bit_of, floor_quotient, signed};
ghost use Rattle.isa_model.specs.Bits.{two_complement};

use crate::compare::is_less_signed;
use crate::multiply::{
    high_of_mixed, high_of_signed, high_of_unsigned, quotient, remainder, signed_quotient,
    signed_remainder,
};
use isa_model::Alu;

/// A test as a word: 1 where it holds, else 0.
fn bit(test: bool) -> u32
    ensures value { result ≡ bit_of test }
{
    if test { 1 } else { 0 }
}

/// A shift to the right that copies the sign, by the low five bits of the amount.
fn arithmetic_shift(a: u32, b: u32) -> u32
    ensures value { result ≡ two_complement 32 (floor_quotient (signed a) (2 ^ (b % 32))) }
{
    if a < 0x8000_0000 {
        a >> (b % 32)
    } else {
        !(!a >> (b % 32))
    }
}

/// What an operation gives of two words (unprivileged manual, RV32I, "Integer Computational Instructions"; M): sums, differences
/// and the low word of a product modulo 2^32; shifts by the low five bits of `b`; Slt compares signed numbers, Sltu unsigned ones;
/// the high word of a product of signed numbers (Mulh), of a signed and an unsigned one (Mulhsu), and of unsigned ones (Mulhu);
/// Div and Rem round towards zero, Divu and Remu are unsigned, and a division by 0 gives all ones, with the dividend as remainder.
///
/// It is inlined: after a decoded word the compiler then knows the operation, and chooses it once.
#[inline(always)]
pub fn alu(op: Alu, a: u32, b: u32) -> u32
    ensures value { result ≡ alu_of op a b }
{
    match op {
        Alu::Add => a.wrapping_add(b),
        Alu::Sub => a.wrapping_sub(b),
        Alu::Sll => a.wrapping_shl(b),
        Alu::Slt => bit(is_less_signed(a, b)),
        Alu::Sltu => bit(a < b),
        Alu::Xor => a ^ b,
        Alu::Srl => a.wrapping_shr(b),
        Alu::Sra => arithmetic_shift(a, b),
        Alu::Or => a | b,
        Alu::And => a & b,
        Alu::Mul => a.wrapping_mul(b),
        Alu::Mulh => high_of_signed(a, b),
        Alu::Mulhsu => high_of_mixed(a, b),
        Alu::Mulhu => high_of_unsigned(a, b),
        Alu::Div => signed_quotient(a, b),
        Alu::Divu => quotient(a, b),
        Alu::Rem => signed_remainder(a, b),
        Alu::Remu => remainder(a, b),
    }
}
