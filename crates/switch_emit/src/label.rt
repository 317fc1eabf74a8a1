//! The labels of the kernel's text.

/// A place of the kernel's text that a jump or a branch may name.
#[derive(Clone, Copy, Debug, PartialEq, Eq)]
pub enum Label {
    /// Where a trap enters.
    Entry,
    /// An interrupt was taken.
    Interrupt,
    /// It was the timer's.
    Timer,
    /// An ECALL.
    Service,
    /// The service yield.
    DoYield,
    /// The service exit.
    DoExit,
    /// The service out.
    DoOut,
    /// The output has its maximum.
    OutFull,
    /// The service in.
    DoIn,
    /// The tape is used up.
    TapeEnd,
    /// The task has ended: its slot is scrubbed, and it is given back.
    Finish,
    /// The task goes on later: it is given back.
    Ready,
    /// The next task is taken. A hart boots here.
    Take,
    /// The loop of a hart whose take was empty.
    Idle,
}
