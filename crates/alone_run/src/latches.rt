//! The latches of a machine that runs one task.

ghost use Rattle.std.specs.Prelude.{◌≡◌, ℕ, true, IfOk};
ghost use Rattle.isa_model.specs.declared.task.Task.{Task};
ghost use Rattle.isa_model.specs.declared.latch.Latch.{Latch};
ghost use Rattle.isa_model.specs.Bits.{word_address};
ghost use Rattle.isa_model.specs.Effect.{Flow, Moved, Rs1, Rs2, to_reg};
ghost use Rattle.isa_model.specs.Alone.{with_value, values_after, data_word_at, is_data_address};
ghost use Rattle.rv_effect.specs.View.{port_write, before_res, res_write, after_res, register_write, writes_of};
ghost use Rattle.alone_run.specs.DataWords.{data_word};

use crate::data::Data;
use isa_model::{Latch, RegNo};
use rv_effect::{RegisterWrite, Traced, UnitWrite, Writes};
use std::alloc::{AllocError, Global};

/// The values of the latches that a task can write: registers, operand ports, result, last loaded and last stored word, the
/// multiplier's result, data.
#[derive(Drop)]
pub(crate) struct Latches {
    pub regs: [u32; 32],
    pub port_a: u32,
    pub port_b: u32,
    pub res: u32,
    pub load: u32,
    pub store: u32,
    pub mul: u32,
    pub memory: Data,
}

impl Latches {
    ghost use Rattle.alone_run.specs.LatchValues.{Holds, IsOwnUnit, latch_value};

    /// The same values in memory of their own.
    pub(crate) fn copy(&self, alloc: Global) -> Result<Latches, AllocError>
        ensures same { IfOk result (λ latches. latches ≡ self.now) }
    {
        Ok(Latches {
            regs: self.regs,
            port_a: self.port_a,
            port_b: self.port_b,
            res: self.res,
            load: self.load,
            store: self.store,
            mul: self.mul,
            memory: self.memory.copy(alloc)?,
        })
    }

    /// The value of a latch, and 0 for one that isn't here.
    pub(crate) fn value(&self, latch: Latch) -> u32
        ensures value { result ≡ latch_value self.now latch }
    {
        match latch {
            Latch::Reg(number) => self.regs[number.num() as usize],
            Latch::PortA => self.port_a,
            Latch::PortB => self.port_b,
            Latch::Res => self.res,
            Latch::Load => self.load,
            Latch::Store => self.store,
            Latch::Scr => 0,
            Latch::Mul => self.mul,
            Latch::Mem(at) => {
                if at % 4 == 0 {
                    self.memory.get(at).unwrap_or(0)
                } else {
                    0
                }
            }
        }
    }

    /// The value of a register.
    pub(crate) fn reg(&self, number: RegNo) -> u32
        ensures value { (T : Task) (v : Latch → ℕ) → Holds T self.now v → result ≡ v (Latch.Reg number) }
    {
        self.regs[number.num() as usize]
    }

    /// Writes the first operand port, if an instruction does.
    #[inline(always)]
    fn write_port_a(&mut self, value: &Option<u32>)
        ensures held { (T : Task) (v : Latch → ℕ) → Holds T self.old v →
            Holds T self.new (values_after (port_write Latch.PortA (Moved Rs1) value.now) v) }
    {
        if let Some(value) = value {
            self.port_a = *value;
        }
    }

    /// Writes the second operand port, if an instruction does.
    #[inline(always)]
    fn write_port_b(&mut self, value: &Option<u32>)
        ensures held { (T : Task) (v : Latch → ℕ) → Holds T self.old v →
            Holds T self.new (values_after (port_write Latch.PortB (Moved Rs2) value.now) v) }
    {
        if let Some(value) = value {
            self.port_b = *value;
        }
    }

    /// Writes the latch of the multiplier, if an instruction does.
    #[inline(always)]
    fn write_before(&mut self, unit: &UnitWrite)
        ensures held { (T : Task) (v : Latch → ℕ) → Holds T self.old v → Holds T self.new (values_after (before_res unit.now) v) }
    {
        match unit {
            UnitWrite::Multiplies(value) => {
                self.mul = *value;
            }
            _ => {}
        }
    }

    /// Writes the result of the arithmetic unit, if an instruction does.
    #[inline(always)]
    fn write_res(&mut self, res: &Option<Traced>)
        ensures held { (T : Task) (v : Latch → ℕ) → Holds T self.old v → Holds T self.new (values_after (res_write res.now) v) }
    {
        if let Some(res) = res {
            self.res = res.value;
        }
    }

    /// Writes the last stored word.
    fn write_store(&mut self, value: u32)
        ensures held { (T : Task) (v : Latch → ℕ) → Holds T self.old v → Holds T self.new (with_value Latch.Store value v) }
    {
        self.store = value;
    }

    /// Writes what a load or a store writes after the result.
    #[inline(always)]
    fn write_after(&mut self, unit: &UnitWrite)
        ensures held { (T : Task) (v : Latch → ℕ) → Holds T self.old v → IsOwnUnit T unit.now →
            Holds T self.new (values_after (after_res unit.now) v) }
    {
        match unit {
            UnitWrite::Nothing => {}
            UnitWrite::Multiplies(_) => {}
            UnitWrite::Loads(word) => {
                self.load = *word;
            }
            UnitWrite::Stores { value, at, word } => {
                self.write_store(*value);
                self.write_data(*at, word.value);
            }
            UnitWrite::Scratches(_) => {}
        }
    }

    /// Writes a register, but for x0, which stays 0.
    fn write_reg(&mut self, rd: RegNo, value: u32)
        ensures held { (T : Task) (v : Latch → ℕ) (flow : Flow) → Holds T self.old v →
            Holds T self.new (values_after (to_reg rd value flow) v) }
    {
        let number = rd.num();
        if number != 0 {
            self.regs[number as usize] = value;
        }
    }

    /// Writes the register that an instruction writes, if it does.
    #[inline(always)]
    fn write_register(&mut self, register: &Option<RegisterWrite>)
        ensures held { (T : Task) (v : Latch → ℕ) → Holds T self.old v → Holds T self.new (values_after (register_write register.now) v) }
    {
        if let Some(register) = register {
            self.write_reg(register.rd, register.value.value);
        }
    }

    /// Writes what an instruction of a task writes.
    #[inline(always)]
    pub(crate) fn write(&mut self, writes: &Writes)
        ensures held { (T : Task) (v : Latch → ℕ) → Holds T self.old v → IsOwnUnit T writes.now.unit →
            Holds T self.new (values_after (writes_of writes.now) v) }
    {
        self.write_port_a(&writes.port_a);
        self.write_port_b(&writes.port_b);
        self.write_before(&writes.unit);
        self.write_res(&writes.res);
        self.write_after(&writes.unit);
        self.write_register(&writes.register);
    }

    /// Writes a0.
    pub(crate) fn write_a0(&mut self, value: u32)
        ensures held { (T : Task) (v : Latch → ℕ) → Holds T self.old v → Holds T self.new (with_value (Latch.Reg 10) value v) }
    {
        self.regs[10] = value;
    }

    /// The data word that an address lies in.
    pub(crate) fn data_word(&self, at: u32) -> Option<u32>
        ensures word { result ≡ data_word self.now.memory at }
        ensures held { (T : Task) (v : Latch → ℕ) → Holds T self.now v → result ≡ data_word_at T v at }
    {
        self.memory.get(at)
    }

    /// Writes the data word that an address lies in, if one does.
    fn write_data(&mut self, at: u32, word: u32)
        ensures held { (T : Task) (v : Latch → ℕ) → Holds T self.old v → is_data_address T at ≡ true →
            Holds T self.new (with_value (Latch.Mem (word_address at)) word v) }
    {
        match self.data_word(at) {
            Some(_) => self.memory.set(at, word),
            None => {}
        }
    }
}
