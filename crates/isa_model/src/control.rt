//! The control of a task: what others may see of its instructions (this project's own).

use crate::ends::EndKind;

/// What an instruction did.
#[derive(Clone, Copy, Debug, PartialEq, Eq)]
pub enum Deed {
    /// Nothing of the rest.
    Ran,
    /// It stored into the word at this address in bytes, a multiple of 4.
    Stored { word_at: u32 },
    /// It called this service, which didn't end the task.
    Called(u32),
    /// It ended the task.
    Ended(EndKind),
}

/// The place of an instruction and what it did.
#[derive(Clone, Copy, Debug, PartialEq, Eq)]
pub struct Control {
    pub pc: u32,
    pub deed: Deed,
}
