//! A list of words.

ghost use Rattle.std.specs.Prelude.{◌≡◌, ◌==◌, length, IfOk};

use std::alloc::{AllocError, Global};
use std::marker::Model;

/// Words of 32 bits, which contracts see as a list. It is made of a `Vec` and gives it back.
#[derive(Debug, Drop)]
pub struct Words {
    inner: Vec<u32>,
}

impl Model for Words {
    ghost use Rattle.std.specs.Prelude.{ℕ, List};

    ghost Value = { List ℕ };

    ghost view = { λ w. w.inner.items };
}

impl Words {
    /// The words of a `Vec`.
    pub fn new(inner: Vec<u32>) -> Words
        ensures words { result ≡ inner.items }
    {
        Words { inner }
    }

    /// The `Vec` of the words.
    pub fn into_vec(self) -> Vec<u32>
        ensures words { result.items ≡ self }
    {
        let Words { inner } = self;
        inner
    }

    /// The words as a slice.
    pub fn as_slice(&self) -> &[u32]
        ensures words { result.now ≡ self.now }
    {
        self.inner.as_slice()
    }

    /// How many words there are.
    pub fn len(&self) -> usize
        ensures length { result ≡ length self.now }
    {
        self.inner.len()
    }

    /// Whether there are none.
    pub fn is_empty(&self) -> bool
        ensures test { result ≡ (length self.now == 0) }
    {
        self.inner.is_empty()
    }

    /// The same words in memory of their own.
    pub fn copy(&self, alloc: Global) -> Result<Words, AllocError>
        ensures same { IfOk result (λ w. w ≡ self.now) }
    {
        Ok(Words {
            inner: Vec::from_slice(alloc, self.inner.as_slice())?,
        })
    }
}
