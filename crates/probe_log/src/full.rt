//! A keeper of all entries.

ghost use Rattle.std.specs.Prelude.{◌≡◌, ◌≤◌, ◌↔◌, [], length, IsNone, IfOk, slice_get};

use crate::keeper::Keeper;
use hart_model::Probe;
use std::alloc::{AllocError, Global};
use std::marker::Model;

/// A log with all its entries, whose memory is taken when it is made. It stands for exactly its list.
#[derive(Debug, Drop)]
pub struct Full {
    room: u64,
    entries: Vec<Probe>,
}

impl Model for Full {
    ghost use Rattle.std.specs.Prelude.{◌+◌, ◌≤◌, vec_len, vec_capacity};
    ghost use Rattle.probe_log.specs.Kept.{Kept};

    ghost Value = { Kept };

    ghost view = { λ f. record { room = f.room; entries = f.entries.items } };

    ghost invariant = { λ f. f.room + vec_len f.entries ≤ vec_capacity f.entries };
}

impl Full {
    /// An empty log with room for so many entries. `AllocError` is want of memory for them.
    pub fn new(alloc: Global, room: u64) -> Result<Full, AllocError>
        ensures log { IfOk result (λ f. f ≡ record { room = room; entries = [] }) }
    {
        let entries = Vec::with_capacity(alloc, room as usize)?;
        Ok(Full { room, entries })
    }

    /// How many entries there are.
    pub fn len(&self) -> u64
        ensures length { result ≡ length self.now.entries }
    {
        self.entries.len() as u64
    }

    /// The entry at an index, from 0; None exactly where there are no more than `i` entries.
    pub fn get(&self, i: u64) -> Option<Probe>
        ensures none { IsNone result ↔ (length self.now.entries ≤ i) }
        ensures entry { result ≡ slice_get self.now.entries i }
    {
        if i < self.len() {
            Some(self.entries[i as usize])
        } else {
            None
        }
    }
}

impl Keeper for Full {
    ghost stands = { λ f log. f.entries ≡ log };

    ghost room_of = { λ f. f.room };

    fn room(&self) -> u64 {
        self.room
    }

    fn put(&mut self, probe: Probe) {
        self.room -= 1;
        self.entries.extend_from_slice(&[probe]).unwrap();
    }
}
