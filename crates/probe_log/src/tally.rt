//! A keeper that counts.

ghost use Rattle.std.specs.Prelude.{◌≡◌, ◌+◌, ◌^◌, ◌<◌, List, [], ◌++◌, map, sum, get_or};
ghost use Rattle.hart_model.specs.declared.probe.Probe.{Probe as LogEntry};
ghost use Rattle.probe_log.specs.Counts.{StandFor, kinds, total_of, counts_left, counts_of, counts_sum};

use crate::keeper::Keeper;
use hart_model::{Probe, Why};
use leak_latch::latch_kind;
use std::marker::Model;

/// The counts of a log: how many entries have each why, and how many are of each kind of latch. It stands for each log that has
/// these counts. Takes no memory.
#[derive(Clone, Copy, Debug)]
pub struct Tally {
    public: u64,
    value: u64,
    step: u64,
    unexplained: u64,
    latches: [u64; 8],
}

impl Model for Tally {
    ghost use Rattle.std.specs.Prelude.{◌≡◌, ◌+◌, ◌^◌, ◌<◌, sum};
    ghost use Rattle.probe_log.specs.Counts.{Counts};

    ghost Value = { Counts };

    ghost view = { λ t. record {
      public = t.public;
      value = t.value;
      step = t.step;
      unexplained = t.unexplained;
      latches = t.latches;
    } };

    ghost invariant = { λ t. (t.public + t.value + t.step + t.unexplained < 2 ^ 64)
        × (sum t.latches ≡ t.public + t.value + t.step + t.unexplained) };

    ghost inverse = { λ c. record {
      public = c.public;
      value = c.value;
      step = c.step;
      unexplained = c.unexplained;
      latches = c.latches;
    } };
}

impl Tally {
    /// The counts of the empty log.
    pub fn new() -> Tally
        ensures counts { result ≡ counts_of [] }
    {
        Tally {
            public: 0,
            value: 0,
            step: 0,
            unexplained: 0,
            latches: [0; 8],
        }
    }

    /// How many entries there are.
    pub fn total(&self) -> u64
        ensures whys { result ≡ total_of self.now }
        ensures kinds { result ≡ sum self.now.latches }
    {
        self.public + self.value + self.step + self.unexplained
    }

    /// How many have the why Public.
    pub fn public(&self) -> u64
        ensures count { result ≡ self.now.public }
    {
        self.public
    }

    /// How many have the why Value.
    pub fn value(&self) -> u64
        ensures count { result ≡ self.now.value }
    {
        self.value
    }

    /// How many have the why Step.
    pub fn step(&self) -> u64
        ensures count { result ≡ self.now.step }
    {
        self.step
    }

    /// How many are unexplained.
    pub fn unexplained(&self) -> u64
        ensures count { result ≡ self.now.unexplained }
    {
        self.unexplained
    }

    /// How many are of each kind of latch: registers, port A, port B, results (of the arithmetic unit and of the multiplier), the
    /// last load, the last store, the scratch CSR, memory.
    pub fn latches(&self) -> [u64; 8]
        ensures counts { result ≡ self.now.latches }
    {
        self.latches
    }

    /// Adds the counts of another log. Afterwards it stands for the two logs, one after the other.
    pub fn add(&mut self, other: &Tally)
        requires fits { total_of self.old + total_of other.now < 2 ^ 64 }
        ensures logs { (mine theirs : List LogEntry) → StandFor self.old mine → StandFor other.now theirs
            → StandFor self.new (mine ++ theirs) }
        ensures counts { self.new ≡ counts_sum self.old other.now }
    {
        self.public += other.public;
        self.value += other.value;
        self.step += other.step;
        self.unexplained += other.unexplained;
        self.latches = sums(&self.latches, &other.latches);
    }
}

/// The sums of the counts of each kind.
fn sums(mine: &[u64; 8], theirs: &[u64; 8]) -> [u64; 8]
    requires fits { sum mine.now + sum theirs.now < 2 ^ 64 }
    ensures counts { result ≡ map (λ kind. get_or mine.now kind 0 + get_or theirs.now kind 0) kinds }
    ensures sum { sum result ≡ sum mine.now + sum theirs.now }
{
    [
        mine[0] + theirs[0],
        mine[1] + theirs[1],
        mine[2] + theirs[2],
        mine[3] + theirs[3],
        mine[4] + theirs[4],
        mine[5] + theirs[5],
        mine[6] + theirs[6],
        mine[7] + theirs[7],
    ]
}

impl Keeper for Tally {
    ghost stands = { StandFor };

    ghost room_of = { counts_left };

    /// The greatest u64 less the total.
    fn room(&self) -> u64 {
        u64::MAX - self.total()
    }

    fn put(&mut self, probe: Probe) {
        match probe.why {
            Why::Public => self.public += 1,
            Why::Value { .. } => self.value += 1,
            Why::Step { .. } => self.step += 1,
            Why::Unexplained => self.unexplained += 1,
        }
        self.latches[latch_kind(probe.latch) as usize] += 1;
    }
}
