//! One small function for each form of instruction.

ghost use Rattle.std.specs.Prelude.{◌≡◌, ℕ, ◌^◌, ◌<◌, Bool, true, false, List, IfOk};
ghost use Rattle.isa_model.specs.declared.instr.Instr.TheVariants.{Lui, Auipc, Jal, AluImm, AluReg, Fence};
ghost use Rattle.isa_model.specs.declared.task.Task.{Task};
ghost use Rattle.isa_model.specs.Effect.{is_of_multiplier};
ghost use Rattle.isa_model.specs.Alone.{after_fault};
ghost use Rattle.masked_run.specs.Places.{term_at, AreIn};
ghost use Rattle.masked_run.specs.Standing.{Does, Steps};

use crate::folding::operate_on;
use crate::machine::Machine;
use isa_model::{Alu, EndKind, RegNo};
use rv_effect::immediate_bits;
use std::alloc::AllocError;
use tape_terms::Pool;

/// LUI.
pub(crate) fn load_upper(
    pool: &mut Pool,
    machine: &mut Machine,
    rd: RegNo,
    imm20: u32,
) -> Result<(), AllocError>
    requires small { imm20 < 2 ^ 20 }
    requires places { AreIn pool.old (term_at machine.old.latches) }
    ensures done { IfOk result (λ u. Does (Lui rd imm20) pool.old machine.old pool.new machine.new) }
{
    let term = pool.constant(imm20 * 4096)?;
    machine.latches.write_result(rd, term);
    machine.pc = machine.pc.wrapping_add(4);
    Ok(())
}

/// AUIPC.
pub(crate) fn add_upper_to_pc(
    pool: &mut Pool,
    machine: &mut Machine,
    rd: RegNo,
    imm20: u32,
) -> Result<(), AllocError>
    requires small { imm20 < 2 ^ 20 }
    requires places { AreIn pool.old (term_at machine.old.latches) }
    ensures done { IfOk result (λ u. Does (Auipc rd imm20) pool.old machine.old pool.new machine.new) }
{
    let term = pool.constant(machine.pc.wrapping_add(imm20 * 4096))?;
    machine.latches.write_result(rd, term);
    machine.pc = machine.pc.wrapping_add(4);
    Ok(())
}

/// An operation on a register and an immediate.
pub(crate) fn operate_immediate(
    pool: &mut Pool,
    machine: &mut Machine,
    op: Alu,
    rd: RegNo,
    rs1: RegNo,
    imm: i32,
) -> Result<(), AllocError>
    requires places { AreIn pool.old (term_at machine.old.latches) }
    ensures done { IfOk result (λ u. Does (AluImm op rd rs1 imm) pool.old machine.old pool.new machine.new) }
{
    let first = machine.latches.reg(rs1);
    let second = pool.constant(immediate_bits(imm))?;
    let term = operate_on(pool, op, first, second)?;
    machine.latches.write_port_a(first);
    machine.latches.write_result(rd, term);
    machine.pc = machine.pc.wrapping_add(4);
    Ok(())
}

/// An operation of the arithmetic unit on two registers.
pub(crate) fn operate_plain(
    pool: &mut Pool,
    machine: &mut Machine,
    op: Alu,
    rd: RegNo,
    rs1: RegNo,
    rs2: RegNo,
) -> Result<(), AllocError>
    requires plain { is_of_multiplier op ≡ false }
    requires places { AreIn pool.old (term_at machine.old.latches) }
    ensures done { IfOk result (λ u. Does (AluReg op rd rs1 rs2) pool.old machine.old pool.new machine.new) }
{
    let first = machine.latches.reg(rs1);
    let second = machine.latches.reg(rs2);
    let term = operate_on(pool, op, first, second)?;
    machine.latches.write_port_a(first);
    machine.latches.write_port_b(second);
    machine.latches.write_result(rd, term);
    machine.pc = machine.pc.wrapping_add(4);
    Ok(())
}

/// An operation of the multiplier on two registers.
pub(crate) fn multiply(
    pool: &mut Pool,
    machine: &mut Machine,
    op: Alu,
    rd: RegNo,
    rs1: RegNo,
    rs2: RegNo,
) -> Result<(), AllocError>
    requires multiplies { is_of_multiplier op ≡ true }
    requires places { AreIn pool.old (term_at machine.old.latches) }
    ensures done { IfOk result (λ u. Does (AluReg op rd rs1 rs2) pool.old machine.old pool.new machine.new) }
{
    let first = machine.latches.reg(rs1);
    let second = machine.latches.reg(rs2);
    let term = operate_on(pool, op, first, second)?;
    machine.latches.write_port_a(first);
    machine.latches.write_port_b(second);
    machine.latches.write_mul(term);
    machine.latches.write_result(rd, term);
    machine.pc = machine.pc.wrapping_add(4);
    Ok(())
}

/// FENCE, which does nothing.
pub(crate) fn fence(pool: &Pool, machine: &mut Machine, word: u32)
    requires places { AreIn pool.now (term_at machine.old.latches) }
    ensures done { Does (Fence word) pool.now machine.old pool.now machine.new }
{
    machine.pc = machine.pc.wrapping_add(4);
}

/// Ends the run by an exception.
pub(crate) fn raise(pool: &Pool, machine: &mut Machine, cause: u32)
    requires places { AreIn pool.now (term_at machine.old.latches) }
    ensures done { (T : Task) (fixed : List Bool) → Steps T fixed (λ U s. (after_fault cause s).state) pool.now machine.old pool.now machine.new }
{
    machine.end = Some(EndKind::Faulted { cause });
}

/// JAL to an address that is a multiple of 4.
pub(crate) fn jump_by(
    pool: &mut Pool,
    machine: &mut Machine,
    rd: RegNo,
    off: i32,
) -> Result<bool, AllocError>
    requires places { AreIn pool.old (term_at machine.old.latches) }
    ensures done { IfOk result (λ known. known ≡ true → Does (Jal rd off) pool.old machine.old pool.new machine.new) }
{
    let target = machine.pc.wrapping_add(immediate_bits(off));
    if target % 4 != 0 {
        return Ok(false);
    }
    let term = pool.constant(machine.pc.wrapping_add(4))?;
    machine.latches.write_result(rd, term);
    machine.pc = target;
    Ok(true)
}
