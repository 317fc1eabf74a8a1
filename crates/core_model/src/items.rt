//! A list of values.

ghost use Rattle.std.specs.Prelude.{◌≡◌, ◌==◌, List, [], ◌∷◌, ◌++◌, length, is_ok, if◌then◌else◌, IfOk};

use std::alloc::{AllocError, AllocFailed, Global};
use std::marker::Model;

/// Values in their order, which contracts see as a list. It is made of a `Vec` and gives it back.
#[derive(Debug, Drop)]
pub struct Items<T> {
    inner: Vec<T>,
}

impl<T> Model for Items<T> {
    ghost use Rattle.std.specs.Prelude.{List};

    ghost Value = { List T };

    ghost view = { λ items. items.inner.items };
}

impl<T> Items<T> {
    /// No values.
    pub fn empty(alloc: Global) -> Items<T>
        ensures items { result ≡ [] }
    {
        Items {
            inner: Vec::new(alloc),
        }
    }

    /// The values of a `Vec`.
    pub fn new(inner: Vec<T>) -> Items<T>
        ensures items { result ≡ inner.items }
    {
        Items { inner }
    }

    /// The `Vec` of the values.
    pub fn into_vec(self) -> Vec<T>
        ensures items { result.items ≡ self }
    {
        let Items { inner } = self;
        inner
    }

    /// The values as a slice.
    pub fn as_slice(&self) -> &[T]
        ensures items { result.now ≡ self.now }
    {
        self.inner.as_slice()
    }

    /// How many values there are.
    pub fn len(&self) -> usize
        ensures length { result ≡ length self.now }
    {
        self.inner.len()
    }

    /// Whether there are none.
    pub fn is_empty(&self) -> bool
        ensures test { result ≡ (length self.now == 0) }
    {
        self.inner.is_empty()
    }

    /// Puts a value at the end. Errors: where memory ran out, with nothing changed.
    pub fn push(&mut self, value: T) -> Result<(), AllocFailed<T>>
        ensures items { self.new ≡ (if is_ok result then self.old ++ value ∷ [] else self.old) }
    {
        self.inner.push(value)
    }
}

impl<T: Drop> Items<T> {
    /// Puts the values of a `Vec` at the end. Errors: where memory ran out, with nothing changed.
    pub fn append(&mut self, mut more: Vec<T>) -> Result<(), AllocError>
        ensures items { self.new ≡ (if is_ok result then self.old ++ more.items else self.old) }
    {
        self.inner.append(&mut more)
    }
}

impl<T: Copy> Items<T> {
    /// The same values in memory of their own.
    pub fn copy(&self, alloc: Global) -> Result<Items<T>, AllocError>
        ensures same { IfOk result (λ items. items ≡ self.now) }
    {
        Ok(Items {
            inner: Vec::from_slice(alloc, self.inner.as_slice())?,
        })
    }
}
