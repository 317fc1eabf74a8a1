//! The plan of a hart's timer (this project's own).

ghost use Rattle.std.specs.Prelude.{◌≡◌, IfOk};

use std::alloc::{AllocError, Global};
use std::marker::Model;

/// Quanta in the order in which takes draw them, which contracts see as a list. A quantum is a number of instructions executed in
/// user mode, 0 to 4,096.
#[derive(Debug, Drop)]
pub struct Quanta {
    inner: Vec<u16>,
}

impl Model for Quanta {
    ghost use Rattle.std.specs.Prelude.{ℕ, List};

    ghost Value = { List ℕ };

    ghost view = { λ q. q.inner.items };
}

impl Quanta {
    /// The quanta of a `Vec`.
    pub fn new(inner: Vec<u16>) -> Quanta
        ensures quanta { result ≡ inner.items }
    {
        Quanta { inner }
    }

    /// The quanta as a slice.
    pub fn as_slice(&self) -> &[u16]
        ensures quanta { result.now ≡ self.now }
    {
        self.inner.as_slice()
    }

    /// The same quanta in memory of their own.
    pub fn copy(&self, alloc: Global) -> Result<Quanta, AllocError>
        ensures same { IfOk result (λ q. q ≡ self.now) }
    {
        Ok(Quanta {
            inner: Vec::from_slice(alloc, self.inner.as_slice())?,
        })
    }
}

/// After how many instructions of a task a hart's timer ticks. Each take that gives a context draws the next quantum: the listed ones
/// in their order, and the tail from then on.
#[derive(Debug, Drop)]
pub struct Plan {
    /// The quanta of the first takes, at most 1,024 of them.
    pub quanta: Quanta,
    /// The quantum of every take after those, 1 to 4,096.
    pub tail: u16,
}

impl Plan {
    /// The same plan in memory of its own.
    pub fn copy(&self, alloc: Global) -> Result<Plan, AllocError>
        ensures same { IfOk result (λ p. p ≡ self.now) }
    {
        Ok(Plan {
            quanta: self.quanta.copy(alloc)?,
            tail: self.tail,
        })
    }
}
