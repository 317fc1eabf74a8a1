//! What a hart does on the queue (this project's own).

/// A queue action of a hart, with the number of the task that it is about.
#[derive(Clone, Copy, Debug, PartialEq, Eq)]
pub enum Action {
    /// It took the context of this task.
    Took(u32),
    /// It took, and nothing was ready.
    Empty,
    /// It gave this task's context back, ready to go on.
    GaveReady(u32),
    /// It gave this task's context back, ended.
    GaveDone(u32),
}
