//! What a run alone has at some count, so that it can go on from there.

ghost use Rattle.std.specs.Prelude.{◌≡◌, IfOk};
ghost use Rattle.alone_run.specs.Marks.{machine_of};

use crate::latches::Latches;
use crate::machine::Machine;
use crate::output::Output;
use isa_model::{End, Words};
use std::alloc::{AllocError, Global};

/// All that a run alone has after some number of instructions, but for its task and the room of later output.
///
/// It holds four bytes for each latch, for each data word and for each word of the output so far.
#[derive(Drop)]
pub struct Mark {
    pub(crate) latches: Latches,
    pub(crate) pc: u32,
    pub(crate) output: Words,
    pub(crate) tape_at: usize,
    pub(crate) end: Option<End>,
    pub(crate) count: u32,
}

impl Mark {
    /// What a machine has after so many instructions.
    pub(crate) fn of(alloc: Global, machine: &Machine, count: u32) -> Result<Mark, AllocError>
        ensures count { IfOk result (λ m. m.count ≡ count) }
        ensures same { IfOk result (λ m. machine_of machine.now.output.max m ≡ machine.now) }
    {
        Ok(Mark {
            latches: machine.latches.copy(alloc)?,
            pc: machine.pc,
            output: machine.output.words(alloc)?,
            tape_at: machine.tape_at,
            end: machine.end,
            count,
        })
    }

    /// A machine that has the same, with the room for an output of so many words.
    pub(crate) fn machine(&self, alloc: Global, out_max: u32) -> Result<Machine, AllocError>
        ensures same { IfOk result (λ machine. machine ≡ machine_of out_max self.now) }
    {
        Ok(Machine {
            latches: self.latches.copy(alloc)?,
            pc: self.pc,
            output: Output::with_words(alloc, out_max, self.output.as_slice())?,
            tape_at: self.tape_at,
            end: self.end,
        })
    }
}
