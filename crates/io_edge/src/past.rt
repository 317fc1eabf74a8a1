//! What is known of the past: the bytes that went by, which only proofs read, and whether a read met the end.

ghost use Rattle.std.specs.Prelude.{◌≡◌, ℕ, ◌&&◌, eqb, ltb, List, [], ◌++◌};
ghost use Rattle.std.specs.Borrow.{ftrue};

use std::marker::Model;

/// The bytes that went by so far. A value takes no memory, and its methods do nothing when they run.
#[derive(Drop)]
pub(crate) struct Past {
    pub ghost bytes: { List ℕ },
}

impl Model for Past {
    ghost also_owns = { λ _. ftrue };
}

impl Past {
    /// No byte went by.
    pub(crate) fn new() -> Past
        ensures none { result.bytes ≡ [] }
    {
        Past {}
    }

    /// These bytes went by too.
    #[inline(always)]
    pub(crate) fn add(&mut self, _piece: &[u8])
        ensures bytes { self.new.bytes ≡ self.old.bytes ++ _piece.now }
    {}
}

/// Whether a read that gave this many bytes into a buffer of this length met the end.
pub(crate) fn is_end(count: usize, room: usize) -> bool
    ensures end { result ≡ (eqb count 0 && ltb 0 room) }
{
    count == 0 && 0 < room
}
