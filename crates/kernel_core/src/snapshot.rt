//! A core as it is reported.

use core_model::{Home, Items};
use isa_model::{End, Words};
use probe_log::Tally;

/// A task of a core.
#[derive(Debug, Drop)]
pub struct TaskState {
    /// Where it is.
    pub home: Home,
    /// How many instructions it has executed.
    pub count: u32,
    /// Its output so far, word by word.
    pub output: Words,
    /// How it ended, exactly where its home is `Ended`.
    pub end: Option<End>,
}

/// A core at one moment.
#[derive(Debug, Drop)]
pub struct Snapshot {
    /// The number of harts, 1 to 8.
    pub harts: u32,
    /// The number of the hart of every queue action so far.
    pub order: Items<u8>,
    /// The tasks in the order of their numbers.
    pub tasks: Items<TaskState>,
    /// The counts of the log since the core was made.
    pub tally: Tally,
}
