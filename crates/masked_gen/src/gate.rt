//! The gates of a chain.

/// A gate, which takes the word so far and the other word of its task.
#[derive(Clone, Copy, Debug, PartialEq, Eq)]
pub enum Gate {
    /// The exclusive or of both.
    Xor,
    /// The bits that both have.
    And,
}
