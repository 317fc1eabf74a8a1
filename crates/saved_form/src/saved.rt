//! What is saved of a board with its harts.

use core_model::{Items, OrderRun};
use isa_model::{End, Words};
use resting_hart::Rest;

/// A hart that rests.
#[derive(Debug, Drop)]
pub struct SavedHart {
    /// The quanta of its plan that no take has drawn, in their order: at most 1,024 of them, each a number of instructions, 0 to 4,096.
    pub quanta: Words,
    /// The tail of its plan, 1 to 4,096 instructions.
    pub tail: u32,
    /// Its values.
    pub rest: Rest,
}

/// A cell of a task.
#[derive(Clone, Copy, Debug, PartialEq, Eq)]
pub struct SavedCell {
    /// The step of its tag, which is 0 for a public cell.
    pub step: u32,
    /// Its value.
    pub value: u32,
}

/// A ready task.
#[derive(Debug, Drop)]
pub struct SavedContext {
    /// Its slot.
    pub slot: u32,
    /// How many instructions it has executed.
    pub count: u32,
    /// x1 to x31.
    pub regs: Items<SavedCell>,
    /// Its data words.
    pub data_words: Items<SavedCell>,
    /// How many words of its tape it has taken.
    pub tape_at: u32,
    /// The words that it has put out.
    pub output: Words,
    /// Its pc, an address in bytes.
    pub pc: u32,
}

/// A task that has ended.
#[derive(Debug, Drop)]
pub struct SavedEnd {
    /// How many instructions it has executed.
    pub count: u32,
    /// How it ended.
    pub end: End,
    /// The words that it has put out.
    pub output: Words,
}

/// How far a task is.
#[derive(Debug, Drop)]
pub enum Progress {
    /// It has never been taken.
    Waits,
    /// It has a slot, and goes on.
    IsReady(SavedContext),
    /// It has ended.
    HasEnded(SavedEnd),
}

/// A task.
#[derive(Debug, Drop)]
pub struct SavedTask {
    /// Its band, 0 or 1.
    pub band: u32,
    /// How many instructions it executes at most, 1 to 100,000.
    pub fuel: u32,
    /// How many words its output has at most, 0 to 4,096.
    pub out_max: u32,
    /// How many data words it has, 0 to 1,024.
    pub data_len: u32,
    /// Its code, at most 4,096 words.
    pub code: Words,
    /// Its tape, at most 4,096 words.
    pub tape: Words,
    /// How far it is.
    pub progress: Progress,
}

/// A board with its harts.
#[derive(Debug, Drop)]
pub struct SavedBoard {
    /// The harts in the order of their numbers, 1 to 8 of them.
    pub harts: Items<SavedHart>,
    /// How many slots there are for contexts, 1 to 8.
    pub slots: u32,
    /// The tasks in the order of their numbers, 1 to 32 of them.
    pub tasks: Items<SavedTask>,
    /// The numbers of the tasks that wait, in the order of their list.
    pub waiting: Words,
    /// Those of the ready tasks of band 0.
    pub ready_first: Words,
    /// Those of the ready tasks of band 1.
    pub ready_second: Words,
    /// Those of the ended tasks.
    pub ended: Words,
    /// The maximal runs of the order of queue actions, at most 1,048,576 actions.
    pub order: Items<OrderRun>,
}
