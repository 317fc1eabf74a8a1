//! The words that begin a line, where they may stand, and what the lines so far say.

use crate::bundle::{Bundle, TaskText};

/// A word that begins a line.
#[derive(Clone, Copy, Debug, PartialEq, Eq)]
pub(crate) enum Word {
    Bundle,
    Slots,
    Plan,
    Task,
    Tape,
    Words,
    Code,
    EndCode,
    EndTask,
    World,
    Events,
    Order,
}

/// What the line before was, so far as it says which word may stand next.
#[derive(Clone, Copy, Debug, PartialEq, Eq)]
pub(crate) enum Place {
    /// No line: the text begins.
    Start,
    /// `bundle`.
    Header,
    /// `slots`, or a plan.
    Plans,
    /// The end of a task.
    Tasks,
    /// A world.
    Worlds,
    /// A line of events.
    Events,
    /// A line of the order.
    Order,
    /// The head of a task, or a line of its tape.
    Tape,
    /// A line of a task's words.
    Words,
    /// `code`, or a line of code.
    Code,
    /// The end of a task's code.
    CodeEnd,
}

/// What the lines so far say.
#[derive(Debug, Drop)]
pub(crate) struct Draft {
    /// Where the next line stands.
    pub(crate) place: Place,
    /// Whether each task's line says its band.
    pub(crate) has_bands: bool,
    /// What is said by all lines but those of a task that isn't ended.
    pub(crate) bundle: Bundle,
    /// The task that isn't ended; where there is none it says nothing.
    pub(crate) task: TaskText,
}
