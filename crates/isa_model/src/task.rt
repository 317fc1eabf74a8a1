//! A task.

ghost use Rattle.std.specs.Prelude.{◌≡◌, IfOk};

use crate::words::Words;
use std::alloc::{AllocError, Global};

/// A task. It starts at its first code word with all registers and data words 0.
#[derive(Debug, Drop)]
pub struct Task {
    /// The address of the first code word in bytes, a multiple of 4.
    pub code_at: u32,
    /// The address of the first data word in bytes, a multiple of 4.
    pub data_at: u32,
    /// The code words, at most 4,096.
    pub code: Words,
    /// How many data words it has, at most 1,024.
    pub data_len: u32,
    /// How many instructions it executes at most, 1 to 100,000.
    pub fuel: u32,
    /// How many words its output has at most, 0 to 4,096.
    pub out_max: u32,
    /// The words that the service in gives, at most 4,096.
    pub tape: Words,
}

impl Task {
    /// The same task in memory of its own.
    pub fn copy(&self, alloc: Global) -> Result<Task, AllocError>
        ensures same { IfOk result (λ t. t ≡ self.now) }
    {
        Ok(Task {
            code_at: self.code_at,
            data_at: self.data_at,
            code: self.code.copy(alloc)?,
            data_len: self.data_len,
            fuel: self.fuel,
            out_max: self.out_max,
            tape: self.tape.copy(alloc)?,
        })
    }
}
