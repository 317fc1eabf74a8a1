//! The rules of a routine.

/// A rule of one word: it is of a form that a routine may have; a load or a store reaches the word that is always 0 from x0 or, from
/// the slot's address, a word of the slot that keeps a register; the word that is always 0 takes 0 alone; and no tagged word is
/// written over another.
#[derive(Clone, Copy, Debug, PartialEq, Eq)]
pub(crate) enum WordRule {
    Form,
    Base,
    NotZero,
    Meets,
}

/// A word that breaks a rule, by its place, counted from 0.
#[derive(Clone, Copy)]
pub(crate) struct WordFault {
    pub at: u32,
    pub rule: WordRule,
}

/// A rule of a routine, or want of memory, in the order in which they are tried.
#[derive(Clone, Copy, Debug, PartialEq, Eq)]
pub enum Rule {
    /// EBREAK stands there exactly once.
    Divide,
    /// A part has at most 300 words.
    Length,
    /// Each word is `addi rd,x0,imm`, `lui`, `add x0,x0,x0`, `mul x0,x0,x0`, `lw`, `sw`, `csrrw rd,mscratch,rs` or
    /// `csrrs rd,mscratch,x0`.
    Form,
    /// A load or a store goes to 0x100 from x0, or to 4 to 124, in steps of 4, from a register with the slot's address.
    Base,
    /// The word that is always 0 takes 0 alone.
    NotZero,
    /// No tagged word is written over another.
    Meets,
    /// At the end of either part the words 1 to 31 of the slot are the task's registers.
    Slot,
    /// At the end of a save part no latch is tagged, and x5 and `mscratch` have the slot's address; at the end of a restore part no
    /// latch but a register is tagged, and `mscratch` has it.
    Left,
    /// At the end of a restore part the registers are the task's.
    Restored,
    /// Memory ran out.
    Memory,
}

/// The first rule that is broken, and where, counted in words from 0: the word that breaks it; for `Divide` the second EBREAK, or the
/// number of words where there is none; for `Length` the part's 301st word; for a rule at the end of a part the EBREAK, or the number of
/// words. With `Memory` it is 0.
#[derive(Clone, Copy, Debug, PartialEq, Eq)]
pub struct RuleFault {
    /// The place.
    pub at: u32,
    /// The rule.
    pub rule: Rule,
}
