//! The operands of an instruction, and the words that it reaches.

ghost use Rattle.isa_model.specs.declared.latch.Latch.{Latch};
ghost use Rattle.isa_model.specs.Alone.{code_word_at, data_word_at, word_or_else, word_reached as word_reached_by, operands_of as operands_by};
ghost use Rattle.std.specs.Prelude.{◌≡◌, ℕ};
ghost use Rattle.alone_run.specs.LatchValues.{Holds};
ghost use Rattle.rv_effect.specs.View.{operands_of};

use crate::latches::Latches;
use isa_model::{Instr, Task};
use rv_effect::{Operands, address_of, code_word, first_register, second_register};

/// The word that a load reaches, in the code or in the data.
fn loaded_word(task: &Task, latches: &Latches, at: u32) -> Option<u32>
    ensures word { (v : Latch → ℕ) → Holds task.now latches.now v →
        result ≡ word_or_else (code_word_at task.now at) (data_word_at task.now v at) }
{
    match code_word(task, at) {
        Some(word) => Some(word),
        None => latches.data_word(at),
    }
}

/// The memory word that an instruction reaches, by the value of rs1.
#[inline(always)]
fn word_reached(task: &Task, latches: &Latches, instr: &Instr, first: u32) -> Option<u32>
    ensures word { (v : Latch → ℕ) → Holds task.now latches.now v → result ≡ word_reached_by task.now v instr.now first }
{
    match instr {
        Instr::Load { imm, .. } => loaded_word(task, latches, address_of(first, *imm)),
        Instr::Store { imm, .. } => latches.data_word(address_of(first, *imm)),
        _ => None,
    }
}

/// The values of the operands of an instruction.
#[inline(always)]
pub(crate) fn operand_values(task: &Task, latches: &Latches, instr: &Instr) -> Operands
    ensures operands { (v : Latch → ℕ) → Holds task.now latches.now v → operands_of result ≡ operands_by task.now v instr.now }
{
    let rs1 = latches.reg(first_register(instr));
    let rs2 = latches.reg(second_register(instr));
    let word = word_reached(task, latches, instr, rs1);
    Operands {
        rs1,
        rs2,
        word,
        old_csr: 0,
    }
}
