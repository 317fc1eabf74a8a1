//! Roles (this project's own).

/// What a word of a task's tape is.
#[derive(Clone, Copy, Debug, PartialEq, Eq)]
pub enum Role {
    /// This very word, known to all.
    Public,
    /// Chosen at random.
    Mask,
    /// One of the words whose exclusive or is the secret of this number, chosen at random but for this.
    Share(u32),
}
