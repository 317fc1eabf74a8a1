//! Where a task is (this project's own).

/// The home of a task: each task of a board has exactly one.
#[derive(Clone, Copy, Debug, PartialEq, Eq)]
pub enum Home {
    /// It waits for a slot.
    Waiting,
    /// It is ready, in the slot of this number.
    Slot(u32),
    /// It is out on the hart of this number, in the slot of this number.
    Hart { hart: u32, slot: u32 },
    /// It has ended.
    Ended,
}
