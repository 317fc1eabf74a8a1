//! Worlds (this project's own).

ghost use Rattle.std.specs.Prelude.{◌≡◌, IfOk};

use isa_model::Words;
use std::alloc::{AllocError, Global};

/// A choice of the words that a task takes as its input, and the secret that they share.
#[derive(Debug, Drop)]
pub struct World {
    /// The secret.
    pub secret: u32,
    /// The words, at most 4,096.
    pub tape: Words,
}

impl World {
    /// The same world in memory of its own.
    pub fn copy(&self, alloc: Global) -> Result<World, AllocError>
        ensures same { IfOk result (λ world. world ≡ self.now) }
    {
        Ok(World {
            secret: self.secret,
            tape: self.tape.copy(alloc)?,
        })
    }
}
