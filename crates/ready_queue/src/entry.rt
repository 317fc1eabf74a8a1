//! What is out.

ghost use Rattle.std.specs.Prelude.{◌≡◌};

use std::marker::Model;

/// A task that is out on a hart, in a slot.
#[derive(Debug, Drop)]
pub(crate) struct Entry {
    task: u32,
    hart: u32,
    slot: u32,
}

impl Model for Entry {
    ghost use Rattle.core_model.specs.Board.{OutEntry};

    ghost Value = { OutEntry };

    ghost view = { λ e. record { task_no = e.task; hart = e.hart; slot = e.slot } };
}

impl Entry {
    /// A task that is out on a hart, in a slot.
    pub(crate) fn new(task: u32, hart: u32, slot: u32) -> Entry
        ensures entry { result ≡ record { task_no = task; hart = hart; slot = slot } }
    {
        Entry { task, hart, slot }
    }

    /// The task's number.
    pub(crate) fn task(&self) -> u32
        ensures task { result ≡ self.now.task_no }
    {
        self.task
    }

    /// The hart's number.
    pub(crate) fn hart(&self) -> u32
        ensures hart { result ≡ self.now.hart }
    {
        self.hart
    }

    /// The slot's number.
    pub(crate) fn slot(&self) -> u32
        ensures slot { result ≡ self.now.slot }
    {
        self.slot
    }
}
