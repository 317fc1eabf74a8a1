//! The writes of the instruction that a run alone comes to next.

ghost use Rattle.std.specs.Prelude.{◌≡◌};
ghost use Rattle.isa_model.specs.Alone.{alone_at, code_word_at, data_word_at, word_or_else, word_reached as word_reached_by, operands_of as operands_by};
ghost use Rattle.isa_model.specs.Encoding.{IsInstr};
ghost use Rattle.hart_model.specs.UserLaws.{alone_effect_of_instr, alone_effect_of_word, alone_effect};
ghost use Rattle.rv_effect.specs.View.{operands_of};
ghost use Rattle.probe_inspect.specs.LatchList.{writes_made};

use alone_run::Alone;
use isa_model::{Instr, Latch, Task};
use rv_decode::decode;
use rv_effect::{
    Operands, Writes, address_of, code_word, effect_anywhere, first_register, is_data_address,
    is_privileged, second_register,
};

/// The data word that an address lies in.
fn data_word(task: &Task, alone: &Alone, at: u32) -> Option<u32>
    requires task { alone.now.task ≡ task.now }
    ensures word { result ≡ data_word_at task.now (alone_at task.now alone.now.count).value at }
{
    if is_data_address(task, at) {
        Some(alone.value(Latch::Mem(at / 4 * 4)))
    } else {
        None
    }
}

/// The word that a load reaches, in the code or in the data.
fn loaded_word(task: &Task, alone: &Alone, at: u32) -> Option<u32>
    requires task { alone.now.task ≡ task.now }
    ensures word { result ≡ word_or_else (code_word_at task.now at) (data_word_at task.now (alone_at task.now alone.now.count).value at) }
{
    match code_word(task, at) {
        Some(word) => Some(word),
        None => data_word(task, alone, at),
    }
}

/// The memory word that an instruction reaches, by the value of rs1.
fn word_reached(task: &Task, alone: &Alone, instr: &Instr, first: u32) -> Option<u32>
    requires task { alone.now.task ≡ task.now }
    ensures word { result ≡ word_reached_by task.now (alone_at task.now alone.now.count).value instr.now first }
{
    match instr {
        Instr::Load { imm, .. } => loaded_word(task, alone, address_of(first, *imm)),
        Instr::Store { imm, .. } => data_word(task, alone, address_of(first, *imm)),
        _ => None,
    }
}

/// The values of the operands of an instruction.
fn operand_values(task: &Task, alone: &Alone, instr: &Instr) -> Operands
    requires task { alone.now.task ≡ task.now }
    ensures operands { operands_of result ≡ operands_by task.now (alone_at task.now alone.now.count).value instr.now }
{
    let rs1 = alone.value(Latch::Reg(first_register(instr)));
    let rs2 = alone.value(Latch::Reg(second_register(instr)));
    let word = word_reached(task, alone, instr, rs1);
    Operands {
        rs1,
        rs2,
        word,
        old_csr: 0,
    }
}

/// What an instruction writes. None where it is illegal in user mode.
fn instr_writes(task: &Task, alone: &Alone, instr: &Instr) -> Option<Writes>
    requires task { alone.now.task ≡ task.now }
    requires valid { IsInstr instr.now }
    ensures writes { writes_made result ≡ (alone_effect_of_instr task.now (alone_at task.now alone.now.count) (Some instr.now)).writes }
{
    if is_privileged(instr) {
        return None;
    }
    let operands = operand_values(task, alone, instr);
    let effect = effect_anywhere(instr, alone.pc(), &operands);
    Some(effect.writes)
}

/// What the instruction of a word writes.
fn word_writes(task: &Task, alone: &Alone, word: Option<u32>) -> Option<Writes>
    requires task { alone.now.task ≡ task.now }
    ensures writes { writes_made result ≡ (alone_effect_of_word task.now (alone_at task.now alone.now.count) word).writes }
{
    match word {
        None => None,
        Some(word) => match decode(word) {
            None => None,
            Some(instr) => instr_writes(task, alone, &instr),
        },
    }
}

/// What the next instruction of a run writes. None where it faults before it writes anything.
pub(crate) fn next_writes(task: &Task, alone: &Alone) -> Option<Writes>
    requires task { alone.now.task ≡ task.now }
    ensures writes { writes_made result ≡ (alone_effect task.now (alone_at task.now alone.now.count)).writes }
{
    word_writes(task, alone, code_word(task, alone.pc()))
}
