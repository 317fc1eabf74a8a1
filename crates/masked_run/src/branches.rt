//! Branches.

ghost use Rattle.std.specs.Prelude.{◌≡◌, ℕ, ◌+◌, ◌%◌, Bool, true, false, List, IfSome};
ghost use Rattle.isa_model.specs.declared.instr.Instr.TheVariants.{Branch};
ghost use Rattle.isa_model.specs.declared.latch.Latch.{Latch};
ghost use Rattle.isa_model.specs.Bits.{low_word, two_complement};
ghost use Rattle.isa_model.specs.Arithmetic.{is_taken};
ghost use Rattle.tape_terms.specs.Values.{value_of};
ghost use Rattle.masked_run.specs.Places.{term_at, AreIn};
ghost use Rattle.masked_run.specs.Standing.{Does};

use crate::machine::Machine;
use isa_model::{Cmp, RegNo};
use rv_effect::immediate_bits;
use rv_exec::taken;
use tape_terms::Pool;

/// Whether a branch is taken, if that is the same on all tapes as far as this is seen: its operands are one term, or both are constants.
fn decided(pool: &Pool, op: Cmp, a: usize, b: usize) -> Option<bool>
    ensures same { IfSome result (λ is. (tape : List ℕ) → is_taken op (value_of pool.now tape a) (value_of pool.now tape b) ≡ is) }
{
    if a == b {
        return Some(taken(op, 0, 0));
    }
    match pool.terms().constant_at(a) {
        None => None,
        Some(first) => match pool.terms().constant_at(b) {
            None => None,
            Some(second) => Some(taken(op, first, second)),
        },
    }
}

/// A branch that is taken.
fn take_branch(pool: &Pool, machine: &mut Machine, op: Cmp, rs1: RegNo, rs2: RegNo, off: i32)
    requires places { AreIn pool.now (term_at machine.old.latches) }
    requires taken { (tape : List ℕ) →
        is_taken op (value_of pool.now tape (term_at machine.old.latches (Latch.Reg rs1))) (value_of pool.now tape (term_at machine.old.latches (Latch.Reg rs2))) ≡ true }
    requires aligned { low_word (machine.old.pc + two_complement 32 off) % 4 ≡ 0 }
    ensures done { Does (Branch op rs1 rs2 off) pool.now machine.old pool.now machine.new }
{
    let first = machine.latches.reg(rs1);
    let second = machine.latches.reg(rs2);
    machine.latches.write_ports(first, second);
    machine.pc = machine.pc.wrapping_add(immediate_bits(off));
}

/// A branch that isn't taken.
fn pass_branch(pool: &Pool, machine: &mut Machine, op: Cmp, rs1: RegNo, rs2: RegNo, off: i32)
    requires places { AreIn pool.now (term_at machine.old.latches) }
    requires passed { (tape : List ℕ) →
        is_taken op (value_of pool.now tape (term_at machine.old.latches (Latch.Reg rs1))) (value_of pool.now tape (term_at machine.old.latches (Latch.Reg rs2))) ≡ false }
    ensures done { Does (Branch op rs1 rs2 off) pool.now machine.old pool.now machine.new }
{
    let first = machine.latches.reg(rs1);
    let second = machine.latches.reg(rs2);
    machine.latches.write_ports(first, second);
    machine.pc = machine.pc.wrapping_add(4);
}

/// Does a branch, if it is decided, and goes on at a multiple of 4.
pub(crate) fn branch(
    pool: &Pool,
    machine: &mut Machine,
    op: Cmp,
    rs1: RegNo,
    rs2: RegNo,
    off: i32,
) -> bool
    requires places { AreIn pool.now (term_at machine.old.latches) }
    ensures done { result ≡ true → Does (Branch op rs1 rs2 off) pool.now machine.old pool.now machine.new }
{
    let first = machine.latches.reg(rs1);
    let second = machine.latches.reg(rs2);
    match decided(pool, op, first, second) {
        None => false,
        Some(true) => {
            if machine.pc.wrapping_add(immediate_bits(off)) % 4 != 0 {
                return false;
            }
            take_branch(pool, machine, op, rs1, rs2, off);
            true
        }
        Some(false) => {
            pass_branch(pool, machine, op, rs1, rs2, off);
            true
        }
    }
}
