//! One instruction of a machine: fetched, decoded and done.

ghost use Rattle.isa_model.specs.declared.instr.Instr.{Instr};
ghost use Rattle.isa_model.specs.declared.task.Task.{Task};
ghost use Rattle.isa_model.specs.Encoding.{IsInstr};
ghost use Rattle.isa_model.specs.Alone.{AloneState, after_fetch, after_instr, after_writes, deed_of, operands_of as operands_by, is_privileged as is_privileged_instr};
ghost use Rattle.std.specs.Prelude.{◌≡◌, ℕ, true, false};
ghost use Rattle.isa_model.specs.declared.latch.Latch.{Latch};
ghost use Rattle.isa_model.specs.Effect.{effect_of};
ghost use Rattle.alone_run.specs.LatchValues.{Holds};
ghost use Rattle.alone_run.specs.InstrForms.{is_access, is_on_registers};
ghost use Rattle.rv_effect.specs.EffectView.{effect_value};
ghost use Rattle.rv_effect.specs.View.{next_of, operands_of};
ghost use Rattle.alone_run.specs.StandsFor.{StandsFor, Leaves, Performs};

use crate::machine::Machine;
use crate::operands::operand_values;
use crate::services::call;
use isa_model::{Deed, Instr, Task};
use rv_decode::decode;
use rv_effect::{
    Effect, Next, Operands, add_upper_to_pc, address_of, branch, code_word, effect_anywhere,
    jump_by, jump_indirect, load, load_upper, operate, operate_immediate, store,
};

/// What others may see of an instruction that goes on, by the value of rs1.
fn deed_by(instr: &Instr, first: u32) -> Deed
    ensures deed { result ≡ deed_of instr.now first }
{
    match instr {
        Instr::Store { imm, .. } => Deed::Stored {
            word_at: address_of(first, *imm) / 4 * 4,
        },
        _ => Deed::Ran,
    }
}

/// What follows the writes of an instruction.
#[inline(always)]
fn follow(task: &Task, machine: &mut Machine, deed: Deed, next: Next) -> Deed
    ensures left { (s : AloneState) → StandsFor task.now s machine.old →
        Leaves task.now (after_writes task.now deed (next_of next) s) result machine.new }
{
    match next {
        Next::Goes(pc) => {
            machine.pc = pc;
            deed
        }
        Next::Raises(cause) => machine.raise(cause),
        Next::Calls => call(task, machine),
        Next::Returns => machine.raise(2),
    }
}

/// Writes the effect of an instruction that a task may do, and does what follows.
#[inline(always)]
fn take(task: &Task, machine: &mut Machine, instr: &Instr, o: &Operands, effect: &Effect) -> Deed
    requires of_user { is_privileged_instr instr.now ≡ false }
    requires operands { (v : Latch → ℕ) → Holds task.now machine.old.latches v → operands_of o.now ≡ operands_by task.now v instr.now }
    requires effect { effect_value effect.now ≡ effect_of instr.now machine.old.pc (operands_of o.now) }
    ensures performed { Performs task.now instr.now machine.old result machine.new }
{
    let deed = deed_by(instr, o.rs1);
    machine.latches.write(&effect.writes);
    follow(task, machine, deed, effect.next)
}

/// Does a load or a store.
fn access(task: &Task, machine: &mut Machine, instr: &Instr) -> Deed
    requires valid { IsInstr instr.now }
    requires form { is_access instr.now ≡ true }
    ensures performed { Performs task.now instr.now machine.old result machine.new }
{
    match instr {
        Instr::Load { kind, rd, rs1, imm } => {
            let o = operand_values(task, &machine.latches, instr);
            let effect = load(*kind, *rd, *rs1, *imm, machine.pc, &o);
            take(task, machine, instr, &o, &effect)
        }
        Instr::Store {
            kind,
            rs2,
            rs1,
            imm,
        } => {
            let o = operand_values(task, &machine.latches, instr);
            let effect = store(*kind, *rs2, *rs1, *imm, machine.pc, &o);
            take(task, machine, instr, &o, &effect)
        }
        _ => unreachable!(),
    }
}

/// Does an instruction on registers: a jump to an address in a register, a branch, an operation, a load or a store.
fn perform_on_registers(task: &Task, machine: &mut Machine, instr: &Instr) -> Deed
    requires valid { IsInstr instr.now }
    requires form { is_on_registers instr.now ≡ true }
    ensures performed { Performs task.now instr.now machine.old result machine.new }
{
    match instr {
        Instr::Jalr { rd, rs1, imm } => {
            let o = operand_values(task, &machine.latches, instr);
            let effect = jump_indirect(*rd, *rs1, *imm, machine.pc, &o);
            take(task, machine, instr, &o, &effect)
        }
        Instr::Branch { op, rs1, rs2, off } => {
            let o = operand_values(task, &machine.latches, instr);
            let effect = branch(*op, *rs1, *rs2, *off, machine.pc, &o);
            take(task, machine, instr, &o, &effect)
        }
        Instr::AluImm { op, rd, rs1, imm } => {
            let o = operand_values(task, &machine.latches, instr);
            let effect = operate_immediate(*op, *rd, *rs1, *imm, machine.pc, &o);
            take(task, machine, instr, &o, &effect)
        }
        Instr::AluReg { op, rd, rs1, rs2 } => {
            let o = operand_values(task, &machine.latches, instr);
            let effect = operate(*op, *rd, *rs1, *rs2, machine.pc, &o);
            take(task, machine, instr, &o, &effect)
        }
        _ => access(task, machine, instr),
    }
}

/// Does an instruction. CSR instructions and MRET are illegal here, since a task runs in user mode. A form that writes has an arm of its
/// own, so that the compiler leaves in its code the writes of that form alone.
fn perform(task: &Task, machine: &mut Machine, instr: &Instr) -> Deed
    requires valid { IsInstr instr.now }
    ensures performed { Performs task.now instr.now machine.old result machine.new }
{
    match instr {
        Instr::Lui { rd, imm20 } => {
            let o = operand_values(task, &machine.latches, instr);
            let effect = load_upper(*rd, *imm20, machine.pc, &o);
            take(task, machine, instr, &o, &effect)
        }
        Instr::Auipc { rd, imm20 } => {
            let o = operand_values(task, &machine.latches, instr);
            let effect = add_upper_to_pc(*rd, *imm20, machine.pc, &o);
            take(task, machine, instr, &o, &effect)
        }
        Instr::Jal { rd, off } => {
            let o = operand_values(task, &machine.latches, instr);
            let effect = jump_by(*rd, *off, machine.pc, &o);
            take(task, machine, instr, &o, &effect)
        }
        Instr::Fence { .. } | Instr::Ecall | Instr::Ebreak => {
            let o = operand_values(task, &machine.latches, instr);
            let effect = effect_anywhere(instr, machine.pc, &o);
            take(task, machine, instr, &o, &effect)
        }
        Instr::Mret => machine.raise(2),
        Instr::Csr { .. } => machine.raise(2),
        Instr::CsrImm { .. } => machine.raise(2),
        _ => perform_on_registers(task, machine, instr),
    }
}

/// Does what the word says that was fetched.
fn execute_word(task: &Task, machine: &mut Machine, word: Option<u32>) -> Deed
    ensures left { (s : AloneState) → StandsFor task.now s machine.old → Leaves task.now (after_fetch task.now word s) result machine.new }
{
    match word {
        None => machine.raise(1),
        Some(word) => match decode(word) {
            None => machine.raise(2),
            Some(instr) => perform(task, machine, &instr),
        },
    }
}

/// Does the instruction at the pc.
#[tactic(auto, unfolding(isa_model::specs::Alone::after_instr))]
pub(crate) fn execute(task: &Task, machine: &mut Machine) -> Deed
    ensures left { (s : AloneState) → StandsFor task.now s machine.old → Leaves task.now (after_instr task.now s) result machine.new }
{
    let word = code_word(task, machine.pc);
    execute_word(task, machine, word)
}
