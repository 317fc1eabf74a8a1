//! Jumps to an address in a register.

ghost use Rattle.std.specs.Prelude.{◌≡◌, ℕ, ◌*◌, ◌/◌, ◌%◌, true, List, IfOk};
ghost use Rattle.isa_model.specs.declared.instr.Instr.TheVariants.{Jalr};
ghost use Rattle.isa_model.specs.declared.latch.Latch.{Latch};
ghost use Rattle.isa_model.specs.Effect.{address};
ghost use Rattle.tape_terms.specs.Values.{value_of};
ghost use Rattle.masked_run.specs.Places.{term_at, AreIn};
ghost use Rattle.masked_run.specs.Standing.{Does};

use crate::folding::constant_at;
use crate::machine::Machine;
use isa_model::RegNo;
use rv_effect::address_of;
use std::alloc::AllocError;
use tape_terms::Pool;

/// A jump where the register has this word on all tapes.
fn jump_to(
    pool: &mut Pool,
    machine: &mut Machine,
    rd: RegNo,
    rs1: RegNo,
    imm: i32,
    base: u32,
) -> Result<(), AllocError>
    requires places { AreIn pool.old (term_at machine.old.latches) }
    requires known { (tape : List ℕ) → value_of pool.old tape (term_at machine.old.latches (Latch.Reg rs1)) ≡ base }
    requires aligned { address base imm / 2 * 2 % 4 ≡ 0 }
    ensures done { IfOk result (λ u. Does (Jalr rd rs1 imm) pool.old machine.old pool.new machine.new) }
{
    let first = machine.latches.reg(rs1);
    let target = address_of(base, imm) / 2 * 2;
    let term = pool.constant(machine.pc.wrapping_add(4))?;
    machine.latches.write_port_a(first);
    machine.latches.write_result(rd, term);
    machine.pc = target;
    Ok(())
}

/// JALR, if the register is a constant and the address a multiple of 4.
pub(crate) fn jump_indirect(
    pool: &mut Pool,
    machine: &mut Machine,
    rd: RegNo,
    rs1: RegNo,
    imm: i32,
) -> Result<bool, AllocError>
    requires places { AreIn pool.old (term_at machine.old.latches) }
    ensures done { IfOk result (λ known. known ≡ true → Does (Jalr rd rs1 imm) pool.old machine.old pool.new machine.new) }
{
    let first = machine.latches.reg(rs1);
    match constant_at(pool, first) {
        None => Ok(false),
        Some(base) => {
            if address_of(base, imm) / 2 * 2 % 4 != 0 {
                return Ok(false);
            }
            jump_to(pool, machine, rd, rs1, imm, base)?;
            Ok(true)
        }
    }
}
