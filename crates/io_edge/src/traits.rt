//! What a source, a sink and a gate are.

ghost use Rattle.std.specs.Prelude.{◌≡◌, ℕ, ◌<◌, Bool, List, ◌++◌, length, Option, IfOk};
ghost use Rattle.std.specs.Io.{ReadsAtMost, WritesAtMost};
ghost use Rattle.std.specs.Io.KnownBytes.{ReadConsumes, WriteAppends};
ghost use Rattle.io_edge.specs.Causes.{HasCause};
ghost use Rattle.io_edge.specs.Gone.{moved, is_end};

/// A read or a write failed.
#[derive(Clone, Copy, Debug, PartialEq, Eq)]
pub struct Failed;

/// Where bytes come from.
pub trait Source {
    /// The bytes that are left, where the source tells them.
    ghost left: { Self → Option (List ℕ) };

    /// The bytes that it has given so far.
    ghost given: { Self → List ℕ };

    /// Whether its last read met the end.
    ghost ended: { Self → Bool };

    /// How many faults it has counted.
    ghost faults: { Self → ℕ };

    /// Gives the next n bytes, in the first n places of the buffer, and answers `Ok(n)`. For a buffer
    /// that isn't empty, `Ok(0)` is the end. `Failed` gives nothing, and comes only where the
    /// count of faults rose.
    fn read(&mut self, buf: &mut [u8]) -> Result<usize, Failed>
        ensures bound { ReadsAtMost result buf.new }
        ensures bytes { ReadConsumes (left self.old) (left self.new) result buf.new }
        ensures given { given self.new ≡ given self.old ++ moved result buf.new }
        ensures ended { ended self.new ≡ is_end result (length buf.new) }
        ensures cause { HasCause (faults self.old) (faults self.new) result };
}

/// Where bytes go.
pub trait Sink {
    /// The bytes that it holds, where the sink tells them.
    ghost held: { Self → Option (List ℕ) };

    /// The bytes that it has taken so far.
    ghost taken: { Self → List ℕ };

    /// How many faults it has counted.
    ghost faults: { Self → ℕ };

    /// Takes the first n bytes of the piece and answers `Ok(n)`, with at least one byte of a piece
    /// that isn't empty. `Failed` takes nothing, and comes only where the count of faults rose.
    fn write(&mut self, piece: &[u8]) -> Result<usize, Failed>
        ensures bound { WritesAtMost result piece.now }
        ensures some { IfOk result (λ n. 0 < length piece.now → 0 < n) }
        ensures bytes { WriteAppends (held self.old) (held self.new) result piece.now }
        ensures taken { taken self.new ≡ taken self.old ++ moved result piece.now }
        ensures cause { HasCause (faults self.old) (faults self.new) result };
}

/// What each hart calls before it draws the ticket of a queue action, so that a test can hold harts
/// back and let them go in an order of its own. A call may wait; it changes nothing that harts see.
pub trait Gate: Sync {
    /// Called by the hart before its queue action number `k`, counted from 0 for each hart alone.
    fn before_action(&self, hart: u32, k: u32);
}

/// A gate that does nothing.
#[derive(Clone, Copy, Debug, PartialEq, Eq)]
pub struct FreeGate;

impl Gate for FreeGate {
    fn before_action(&self, _hart: u32, _k: u32) {}
}
