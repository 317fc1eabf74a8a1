//! The operands of an instruction in user mode.

ghost use Rattle.std.specs.Prelude.{◌≡◌, None, if◌then◌else◌};
ghost use Rattle.isa_model.specs.Alone.{code_word_at, data_word_at, word_reached, word_or_else};
ghost use Rattle.hart_model.specs.UserStep.{latch_value, is_access_allowed, user_operands, user_code_word};
ghost use Rattle.rv_effect.specs.View.{operands_of};

use crate::hart::Hart;
use context_slot::Body;
use hart_model::{Access, Mode};
use isa_model::{Instr, Latch, Task};
use rv_effect::{
    Operands, address_of, code_word, first_register, is_data_address, load_size, second_register,
    store_size,
};

impl Hart {
    /// The value of a latch, and 0 for one that the hart hasn't.
    fn value(&self, latch: Latch) -> u32
        ensures value { result ≡ latch_value self.now latch }
    {
        match self.cell(latch) {
            Some(cell) => cell.value,
            None => 0,
        }
    }

    /// The data word that an address lies in.
    fn data_word(&self, task: &Task, at: u32) -> Option<u32>
        ensures word { result ≡ data_word_at task.now (latch_value self.now) at }
    {
        if is_data_address(task, at) {
            Some(self.value(Latch::Mem(at / 4 * 4)))
        } else {
            None
        }
    }

    /// The word that a load reaches, in the code or in the data.
    fn loaded_word(&self, task: &Task, at: u32) -> Option<u32>
        ensures word { result ≡ word_or_else (code_word_at task.now at) (data_word_at task.now (latch_value self.now) at) }
    {
        match code_word(task, at) {
            Some(word) => Some(word),
            None => self.data_word(task, at),
        }
    }

    /// The memory word that an instruction reaches, by the value of rs1.
    fn word_reached(&self, task: &Task, instr: &Instr, first: u32) -> Option<u32>
        ensures word { result ≡ word_reached task.now (latch_value self.now) instr.now first }
    {
        match instr {
            Instr::Load { imm, .. } => self.loaded_word(task, address_of(first, *imm)),
            Instr::Store { imm, .. } => self.data_word(task, address_of(first, *imm)),
            _ => None,
        }
    }

    /// Whether the protection lets user mode do the load or the store of an instruction, by the value of rs1.
    fn is_access_allowed(&self, instr: &Instr, first: u32) -> bool
        ensures test { result ≡ is_access_allowed self.now.csrs.pmp instr.now first }
    {
        let pmp = self.csrs.pmp();
        match instr {
            Instr::Load { kind, imm, .. } => pmp.allows(
                Mode::User,
                address_of(first, *imm),
                load_size(*kind),
                Access::Read,
            ),
            Instr::Store { kind, imm, .. } => pmp.allows(
                Mode::User,
                address_of(first, *imm),
                store_size(*kind),
                Access::Write,
            ),
            _ => true,
        }
    }

    /// The memory word of an instruction, where the protection allows its access.
    fn user_word(&self, task: &Task, instr: &Instr, first: u32) -> Option<u32>
        ensures word { result ≡ (if is_access_allowed self.now.csrs.pmp instr.now first then word_reached task.now (latch_value self.now) instr.now first else None) }
    {
        if self.is_access_allowed(instr, first) {
            self.word_reached(task, instr, first)
        } else {
            None
        }
    }

    /// The values of the operands of an instruction.
    pub(crate) fn user_values(&self, body: &Body, instr: &Instr) -> Operands
        ensures operands { operands_of result ≡ user_operands self.now body.now instr.now }
    {
        let rs1 = self.register(first_register(instr)).value;
        let rs2 = self.register(second_register(instr)).value;
        Operands {
            rs1,
            rs2,
            word: self.user_word(body.task(), instr, rs1),
            old_csr: 0,
        }
    }

    /// The code word at the pc, where the protection allows its fetch.
    pub(crate) fn user_code_word(&self, body: &Body) -> Option<u32>
        ensures word { result ≡ user_code_word self.now body.now }
    {
        if self
            .csrs
            .pmp()
            .allows(Mode::User, self.pc, 4, Access::Fetch)
        {
            code_word(body.task(), self.pc)
        } else {
            None
        }
    }
}
