//! The events of a core, and runs of them (this project's own).

/// An event of a core.
#[derive(Clone, Copy, Debug, PartialEq, Eq)]
pub enum Event {
    /// The hart of this number executes one instruction or takes one interrupt.
    Go(u32),
    /// The timer interrupt of the hart of this number becomes pending.
    Tick(u32),
}

/// An event that comes several times in a row.
#[derive(Clone, Copy, Debug, PartialEq, Eq)]
pub struct EventRun {
    /// The event.
    pub event: Event,
    /// How often it comes.
    pub times: u32,
}

/// A hart that stands several times in a row in an order of queue actions.
#[derive(Clone, Copy, Debug, PartialEq, Eq)]
pub struct OrderRun {
    /// The hart's number.
    pub hart: u32,
    /// How often it stands there.
    pub times: u32,
}
