//! Cells: values with tags (this project's own), and the two modes.

use isa_model::Latch;

/// The privilege mode of a hart (privileged manual, "Privilege Levels"). There is no supervisor mode.
#[derive(Clone, Copy, Debug, PartialEq, Eq)]
pub enum Mode {
    User,
    Machine,
}

/// What a value depends on.
#[derive(Clone, Copy, Debug, PartialEq, Eq)]
pub enum Tag {
    /// Public values alone.
    Public,
    /// The value of a latch of a task's undisturbed run after so many instructions.
    Of { task: u32, step: u32, latch: Latch },
    /// Several such values, mixed.
    Many,
}

/// A value with its tag: what a latch holds.
#[derive(Clone, Copy, Debug, PartialEq, Eq)]
pub struct Cell {
    pub value: u32,
    pub tag: Tag,
}
