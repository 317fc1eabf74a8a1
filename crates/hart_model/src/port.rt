//! The device ports through which the kernel speaks with its queue and with the task that its hart holds (this project's own).

/// A device port, in the order of their addresses: a word each, from 0x700 to 0x720.
#[derive(Clone, Copy, Debug, PartialEq, Eq)]
pub enum Port {
    /// A load takes the next context from the queue and gives the address of its slot, or 0 where the queue is empty.
    Take,
    /// A store gives the held context back: 0 where it is ready, 1 where its task has ended.
    Give,
    /// A store appends a word to the task's output.
    Out,
    /// A load gives the next word of the task's tape.
    Tape,
    /// A load gives how many words of the tape are left.
    TapeLeft,
    /// A store ends the task by the service exit, with the stored value as its code.
    Exit,
    /// A store ends the task by a code for another kind of end.
    Fault,
    /// A store clears the pending timer.
    Ack,
    /// A load gives for how many words the output has room.
    OutLeft,
}
