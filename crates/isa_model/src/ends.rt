//! How a task ends (this project's own).

/// How a task ended.
#[derive(Clone, Copy, Debug, PartialEq, Eq)]
pub enum End {
    /// By the service exit, with its code.
    Exited(u32),
    /// By an exception, with its cause (privileged manual, "Machine Cause Register") and the pc of the instruction.
    Faulted { cause: u32, pc: u32 },
    /// By a call of a service that there isn't, with its number.
    BadCall(u32),
    /// By the service in, where the tape was used up.
    TapeEnd,
    /// By the service out, where the output had its maximum.
    OutFull,
    /// By the last instruction that the fuel allows, which didn't end the task otherwise.
    OutOfSteps,
}

/// How a task ended, without its exit code and the place of a fault.
#[derive(Clone, Copy, Debug, PartialEq, Eq)]
pub enum EndKind {
    Exited,
    Faulted { cause: u32 },
    BadCall(u32),
    TapeEnd,
    OutFull,
    OutOfSteps,
}
