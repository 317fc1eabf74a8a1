//! One instruction of the run.

ghost use Rattle.std.specs.Prelude.{◌≡◌, ℕ, true, IfOk, Option, Some};
ghost use Rattle.isa_model.specs.declared.latch.Latch.{Latch};
ghost use Rattle.isa_model.specs.Encoding.{IsInstr};
ghost use Rattle.isa_model.specs.Alone.{after_call, after_decode, after_fetch, after_instr};
ghost use Rattle.masked_run.specs.Places.{term_at, AreIn};
ghost use Rattle.masked_run.specs.Standing.{Does, Steps};

use crate::branches::branch;
use crate::folding::constant_at;
use crate::forms::{
    add_upper_to_pc, fence, jump_by, load_upper, multiply, operate_immediate, operate_plain, raise,
};
use crate::jumps::jump_indirect;
use crate::machine::Machine;
use crate::services::serve;
use isa_model::{Instr, Task};
use rv_decode::decode;
use rv_effect::code_word;
use rv_exec::is_of_multiplier;
use std::alloc::AllocError;
use tape_terms::Pool;

/// The call of the environment, if the number of the service is a constant.
fn call(
    task: &Task,
    fixed: &[bool],
    pool: &mut Pool,
    machine: &mut Machine,
) -> Result<bool, AllocError>
    requires places { AreIn pool.old (term_at machine.old.latches) }
    ensures done { IfOk result (λ known. known ≡ true →
        Steps task.now fixed.now (λ U s. (after_call U (s.value (Latch.Reg 17)) (s.value (Latch.Reg 10)) s).state) pool.old machine.old pool.new machine.new) }
{
    let place = machine.latches.regs[17];
    match constant_at(pool, place) {
        None => Ok(false),
        Some(number) => {
            serve(task, fixed, pool, machine, number)?;
            Ok(true)
        }
    }
}

/// Does an instruction that was decoded, if it is one of those that are built and its control is the same on all tapes.
fn perform(
    task: &Task,
    fixed: &[bool],
    pool: &mut Pool,
    machine: &mut Machine,
    instr: &Instr,
) -> Result<bool, AllocError>
    requires valid { IsInstr instr.now }
    requires places { AreIn pool.old (term_at machine.old.latches) }
    ensures done { IfOk result (λ known. known ≡ true →
        Steps task.now fixed.now (λ U s. (after_decode U (Some instr.now) s).state) pool.old machine.old pool.new machine.new) }
{
    match instr {
        Instr::Lui { rd, imm20 } => {
            load_upper(pool, machine, *rd, *imm20)?;
            Ok(true)
        }
        Instr::Auipc { rd, imm20 } => {
            add_upper_to_pc(pool, machine, *rd, *imm20)?;
            Ok(true)
        }
        Instr::Jal { rd, off } => {
            let known = jump_by(pool, machine, *rd, *off)?;
            Ok(known)
        }
        Instr::Jalr { rd, rs1, imm } => {
            let known = jump_indirect(pool, machine, *rd, *rs1, *imm)?;
            Ok(known)
        }
        Instr::Branch { op, rs1, rs2, off } => Ok(branch(pool, machine, *op, *rs1, *rs2, *off)),
        Instr::AluImm { op, rd, rs1, imm } => {
            operate_immediate(pool, machine, *op, *rd, *rs1, *imm)?;
            Ok(true)
        }
        Instr::AluReg { op, rd, rs1, rs2 } => {
            if is_of_multiplier(*op) {
                multiply(pool, machine, *op, *rd, *rs1, *rs2)?;
            } else {
                operate_plain(pool, machine, *op, *rd, *rs1, *rs2)?;
            }
            Ok(true)
        }
        Instr::Fence { word } => {
            fence(pool, machine, *word);
            Ok(true)
        }
        Instr::Ecall => call(task, fixed, pool, machine),
        Instr::Ebreak => {
            raise(pool, machine, 3);
            Ok(true)
        }
        _ => Ok(false),
    }
}

/// Does what the word says that was fetched.
fn execute_word(
    task: &Task,
    fixed: &[bool],
    pool: &mut Pool,
    machine: &mut Machine,
    word: Option<u32>,
) -> Result<bool, AllocError>
    requires places { AreIn pool.old (term_at machine.old.latches) }
    ensures done { IfOk result (λ known. known ≡ true →
        Steps task.now fixed.now (λ U s. (after_fetch U word s).state) pool.old machine.old pool.new machine.new) }
{
    match word {
        None => {
            raise(pool, machine, 1);
            Ok(true)
        }
        Some(word) => match decode(word) {
            None => {
                raise(pool, machine, 2);
                Ok(true)
            }
            Some(instr) => perform(task, fixed, pool, machine, &instr),
        },
    }
}

/// Does the instruction at the pc.
#[tactic(auto, unfolding(isa_model::specs::Alone::after_instr))]
pub(crate) fn execute(
    task: &Task,
    fixed: &[bool],
    pool: &mut Pool,
    machine: &mut Machine,
) -> Result<bool, AllocError>
    requires places { AreIn pool.old (term_at machine.old.latches) }
    ensures done { IfOk result (λ known. known ≡ true →
        Steps task.now fixed.now (λ U s. (after_instr U s).state) pool.old machine.old pool.new machine.new) }
{
    let word = code_word(task, machine.pc);
    execute_word(task, fixed, pool, machine, word)
}
