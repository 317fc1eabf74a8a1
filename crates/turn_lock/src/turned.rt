// What the lock can hold.
ghost use Rattle.std.specs.Prelude.{ℕ, List};

/// A value that a lock can hold: it stands for a frame and an order of seat numbers.
///
/// `stands` is that relation, and each implementor chooses its own. The lock never looks into it.
/// Whoever has a turn may change the value, and owes at its end that the value stands for the order
/// as the turn leaves it.
pub trait Turned: Send + Drop {
    /// What the relation speaks of and no turn changes, such as the input of a whole run.
    type Frame: Drop;

    ghost stands: { Self → Self.Frame → List ℕ → Type 0 };
}
