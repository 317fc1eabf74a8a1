//! Operations on constants.

ghost use Rattle.std.specs.Prelude.{◌≡◌, ℕ, ◌<◌, List, length, IfOk, IfSome};
ghost use Rattle.isa_model.specs.Arithmetic.{alu_of};
ghost use Rattle.tape_terms.specs.Values.{value_of, Keeps};

use isa_model::Alu;
use rv_exec::alu;
use std::alloc::AllocError;
use tape_terms::Pool;

/// The word that a term denotes on all tapes, if it is a constant.
pub(crate) fn constant_at(pool: &Pool, i: usize) -> Option<u32>
    ensures value { IfSome result (λ word. (tape : List ℕ) → value_of pool.now tape i ≡ word) }
{
    pool.terms().constant_at(i)
}

/// The word that an operation gives of two constants.
fn folded(pool: &Pool, op: Alu, a: usize, b: usize) -> Option<u32>
    ensures value { IfSome result (λ word. (tape : List ℕ) → alu_of op (value_of pool.now tape a) (value_of pool.now tape b) ≡ word) }
{
    match constant_at(pool, a) {
        None => None,
        Some(first) => match constant_at(pool, b) {
            None => None,
            Some(second) => Some(alu(op, first, second)),
        },
    }
}

/// A term that denotes what an operation gives of two terms: a constant, where both are.
pub(crate) fn operate_on(pool: &mut Pool, op: Alu, a: usize, b: usize) -> Result<usize, AllocError>
    requires first { a < length pool.old }
    requires second { b < length pool.old }
    ensures place { IfOk result (λ i. i < length pool.new) }
    ensures value { IfOk result (λ i. (tape : List ℕ) → value_of pool.new tape i ≡ alu_of op (value_of pool.old tape a) (value_of pool.old tape b)) }
    ensures others { Keeps pool.old pool.new }
{
    match folded(pool, op, a, b) {
        Some(word) => pool.constant(word),
        None => pool.of(op, a, b),
    }
}
