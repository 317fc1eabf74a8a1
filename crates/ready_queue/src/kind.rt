//! How a context is given back.

/// What a hart says of the context that it gives back.
#[derive(Clone, Copy, Debug, PartialEq, Eq)]
pub enum Kind {
    /// Its task goes on later.
    Ready,
    /// Its task has ended.
    Done,
}
