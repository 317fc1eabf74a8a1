//! Terms.

use isa_model::Alu;

/// A term. Its operands are terms at these places of the list that it stands in.
#[derive(Clone, Copy, Debug, PartialEq, Eq)]
pub enum Term {
    /// This very word.
    Constant(u32),
    /// The word at this place of the tape.
    Word(usize),
    /// What an operation of the arithmetic unit gives of two terms.
    Of(Alu, usize, usize),
}
