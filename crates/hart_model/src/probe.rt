//! Probes: what a write of a latch shows (this project's own).

use isa_model::Latch;

/// The value before or after a write.
#[derive(Clone, Copy, Debug, PartialEq, Eq)]
pub enum Side {
    Was,
    Now,
}

/// What explains the two values that a write shows.
#[derive(Clone, Copy, Debug, PartialEq, Eq)]
pub enum Why {
    /// Both are public.
    Public,
    /// One is public; the other is the value of a latch of a task's undisturbed run after `step` instructions.
    Value {
        task: u32,
        step: u32,
        latch: Latch,
        side: Side,
    },
    /// They are the values of one latch of a task's undisturbed run before and after instruction `step`.
    Step {
        task: u32,
        step: u32,
        latch: Latch,
    },
    /// Nothing of these: the entry may mix secrets.
    Unexplained,
}

/// An entry of the log: one write of one latch, also where the value stays.
#[derive(Clone, Copy, Debug, PartialEq, Eq)]
pub struct Probe {
    /// The hart's number.
    pub hart: u32,
    /// The address of the instruction that wrote.
    pub pc: u32,
    pub latch: Latch,
    /// The value before.
    pub was: u32,
    /// The value after.
    pub now: u32,
    pub why: Why,
}
