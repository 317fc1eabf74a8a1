//! What a step of a hart comes to (this project's own).

/// A queue action that a hart asks for.
#[derive(Clone, Copy, Debug, PartialEq, Eq)]
pub enum QueueCall {
    /// The next ready context.
    Take,
    /// The held context goes back to the queue.
    GiveReady,
    /// The held context has ended.
    GiveDone,
}

/// What a step of a hart did.
#[derive(Clone, Copy, Debug, PartialEq, Eq)]
pub enum Did {
    /// It executed an instruction.
    Ran,
    /// It trapped or took an interrupt, by this cause (privileged manual, "Machine Cause Register").
    Trapped(u32),
    /// It came to a queue action, and changed nothing until that is answered.
    Wants(QueueCall),
    /// It is wedged: it changed nothing, and never will.
    Wedged,
}
