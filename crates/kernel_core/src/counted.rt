//! A keeper that counts as well.

ghost use Rattle.std.specs.Prelude.{◌≡◌, []};
ghost use Rattle.probe_log.specs.Counts.{counts_of};
ghost use Rattle.kernel_core.specs.Counted.{StandsBoth};

use probe_log::{Keeper, Probe, Tally};
use std::marker::Model;

/// A keeper, with the counts of all that it was given since it was made.
#[derive(Drop)]
pub(crate) struct Counted<K: Keeper> {
    keeper: K,
    tally: Tally,
}

impl<K: Keeper> Model for Counted<K> {
    ghost use Rattle.std.specs.Prelude.{◌≡◌, ◌+◌, ◌<◌, ◌^◌};
    ghost use Rattle.probe_log.specs.Counts.{total_of};
    ghost use Rattle.kernel_core.specs.Counted.{CountedValue};

    ghost Value = { CountedValue K };

    ghost view = { λ c. record { keeper = c.keeper; tally = c.tally } };

    ghost invariant = { λ c. K.room_of c.keeper + total_of c.tally < 2 ^ 64 };
}

impl<K: Keeper> Counted<K> {
    /// Counts what a keeper is given from now on.
    pub(crate) fn new(keeper: K) -> Counted<K>
        ensures keeper { result.keeper ≡ keeper }
        ensures tally { result.tally ≡ counts_of [] }
    {
        let _room = keeper.room(); // a number of 64 bits
        Counted {
            keeper,
            tally: Tally::new(),
        }
    }

    /// The keeper.
    pub(crate) fn keeper(&self) -> &K
        ensures keeper { result.now ≡ self.now.keeper }
    {
        &self.keeper
    }

    /// The counts.
    pub(crate) fn tally(&self) -> Tally
        ensures tally { result ≡ self.now.tally }
    {
        self.tally
    }
}

impl<K: Keeper> Keeper for Counted<K> {
    ghost stands = { λ c log. StandsBoth K.stands c log };

    ghost room_of = { λ c. K.room_of c.keeper };

    fn room(&self) -> u64 {
        self.keeper.room()
    }

    /// It is inlined, so that an entry that is only counted is never put together in memory.
    #[inline(always)]
    fn put(&mut self, probe: Probe) {
        let entry = &probe;
        self.keeper.put(*entry);
        self.tally.put(*entry);
        let _total = self.tally.total(); // a number of 64 bits
    }
}
