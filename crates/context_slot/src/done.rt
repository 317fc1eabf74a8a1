//! An ended task.

ghost use Rattle.std.specs.Prelude.{◌≡◌};

use isa_model::{End, Words};
use std::marker::Model;

/// A task that has ended: its number, how many instructions it executed, its output and its end.
#[derive(Debug, Drop)]
pub struct Done {
    task: u32,
    count: u32,
    output: Words,
    end: End,
}

impl Model for Done {
    ghost use Rattle.hart_model.specs.Context.{DoneState};

    ghost Value = { DoneState };

    ghost view = { λ d. record { task_no = d.task; count = d.count; output = d.output; end = d.end } };
}

impl Done {
    /// The ended task of this number, which executed so many instructions, with its whole output, and how it ended.
    pub fn new(task: u32, count: u32, output: Words, end: End) -> Done
        ensures done { result ≡ record { task_no = task; count = count; output = output; end = end } }
    {
        Done {
            task,
            count,
            output,
            end,
        }
    }

    /// The task's number.
    pub fn task(&self) -> u32
        ensures task { result ≡ self.now.task_no }
    {
        self.task
    }

    /// How many instructions it executed.
    pub fn count(&self) -> u32
        ensures count { result ≡ self.now.count }
    {
        self.count
    }

    /// Its whole output.
    pub fn output(&self) -> &[u32]
        ensures output { result.now ≡ self.now.output }
    {
        self.output.as_slice()
    }

    /// How it ended.
    pub fn end(&self) -> End
        ensures end { result ≡ self.now.end }
    {
        self.end
    }
}
