//! The keeper.

ghost use Rattle.std.specs.Prelude.{◌≡◌, ℕ, ◌+◌, ◌^◌, ◌<◌, ◌≤◌, List, [], ◌∷◌, ◌++◌};
ghost use Rattle.hart_model.specs.declared.probe.Probe.{Probe as LogEntry};

use hart_model::Probe;

/// Where entries of a log go (this project's own). It stands for a list of entries, or for several where it forgets something of
/// them, and it has room for so many more.
pub trait Keeper: Drop {
    /// It stands for this list of entries.
    ghost stands: { Self → List LogEntry → Type 0 };

    /// How many more entries it has room for.
    ghost room_of: { Self → ℕ };

    /// How many more entries it has room for.
    fn room(&self) -> u64
        ensures value { result ≡ room_of self.now }
        ensures fits { room_of self.now < 2 ^ 64 };

    /// Puts an entry at the end of its list, for every list that it stands for. Takes no memory.
    fn put(&mut self, probe: Probe)
        requires room { 1 ≤ room_of self.old }
        ensures entry { (log : List LogEntry) → stands self.old log → stands self.new (log ++ probe ∷ []) }
        ensures room { room_of self.new + 1 ≡ room_of self.old };
}
