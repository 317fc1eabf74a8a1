//! What is known of a word that a routine moves.

/// What is known of a word that a routine moves: that it is public, or which word it is, or nothing.
#[derive(Clone, Copy, Debug, PartialEq, Eq)]
pub enum Content {
    /// The number 0.
    Zero,
    /// The address of the slot.
    SlotAddress,
    /// Another public number.
    Public,
    /// The task's register of this number, from 1 to 31.
    TaskReg(u32),
    /// What stood at the start in the slot's word of this index, from 1 to 31.
    OldSlotWord(u32),
    /// Any word.
    Unknown,
}
