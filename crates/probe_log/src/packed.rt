//! A keeper of all entries, packed.

ghost use Rattle.std.specs.Prelude.{◌≡◌, ◌≤◌, ◌<◌, ◌*◌, ◌↔◌, [], length, IsNone, IfOk, slice_get};
ghost use Rattle.probe_log.specs.Packing.{packed_of, block_len, in_block};
ghost use Rattle.probe_log.specs.Reading.{IsAt, last_of};

use crate::keeper::Keeper;
use crate::packing::{push_entry, push_start};
use crate::reader::Reader;
use hart_model::Probe;
use std::alloc::{AllocError, Global};
use std::marker::Model;

/// A log with all its entries as words, whose memory is taken when it is made: nine words for each entry that there is room for, of
/// which most entries take about three. It stands for exactly its list.
#[derive(Debug, Drop)]
pub struct Packed {
    room: u64,
    len: u64,
    words: Vec<u32>,
    starts: Vec<usize>,
    last: Option<Probe>,
}

impl Model for Packed {
    ghost use Rattle.std.specs.Prelude.{◌+◌, ◌*◌, ◌/◌, ◌≤◌, None, vec_len, vec_capacity};
    ghost use Rattle.probe_log.specs.Kept.{Kept};
    ghost use Rattle.probe_log.specs.Unpacking.{entries_in};
    ghost use Rattle.probe_log.specs.Reading.{IsPackedLog};

    ghost Value = { Kept };

    ghost view = { λ p. record { room = p.room; entries = entries_in 0 None p.len p.words.items } };

    ghost invariant = { λ p. IsPackedLog p.words.items p.starts.items p.len p.last (entries_in 0 None p.len p.words.items)
        × (vec_len p.words + 9 * p.room ≤ vec_capacity p.words)
        × ((p.len + p.room + 63) / 64 ≤ vec_capacity p.starts)
        × (p.len + p.room ≤ 1000000) };
}

impl Packed {
    /// An empty log with room for so many entries, at most 1,000,000. `AllocError` is want of memory for them.
    pub fn new(alloc: Global, room: u64) -> Result<Packed, AllocError>
        requires room { room ≤ 1000000 }
        ensures log { IfOk result (λ p. p ≡ record { room = room; entries = [] }) }
    {
        let words = Vec::with_capacity(alloc, 9 * room as usize)?;
        let starts = Vec::with_capacity(alloc, room as usize / 64 + 1)?;
        Ok(Packed {
            room,
            len: 0,
            words,
            starts,
            last: None,
        })
    }

    /// How many entries there are.
    pub fn len(&self) -> u64
        ensures length { result ≡ length self.now.entries }
    {
        self.len
    }

    /// The words of the entries, one entry after the other.
    pub fn words(&self) -> &[u32]
        ensures words { result.now ≡ packed_of self.now.entries }
    {
        self.words.as_slice()
    }

    /// A reader at the first entry.
    pub fn from_start(&self) -> Reader<'_>
        ensures start { IsAt result self.now.entries 0 }
    {
        Reader::new(self.words.as_slice(), 0)
    }

    /// A reader at the first entry of a block.
    fn from_block(&self, block: u64) -> Reader<'_>
        requires block { block_len * block < length self.now.entries }
        ensures start { IsAt result self.now.entries (block_len * block) }
    {
        let start = self.starts[block as usize];
        Reader::new(self.words.as_slice(), start)
    }

    /// The entry at an index, from 0; None exactly where there are no more than `i` entries. Reads up to 64 entries: to go through a
    /// log take [`from_start`](Packed::from_start).
    pub fn get(&self, i: u64) -> Option<Probe>
        ensures none { IsNone result ↔ (length self.now.entries ≤ i) }
        ensures entry { result ≡ slice_get self.now.entries i }
    {
        if self.len <= i {
            return None;
        }
        let mut reader = self.from_block(i / 64);
        for _ in 0..i % 64 {
            let _ = reader.next();
        }
        reader.next()
    }

    /// The entry before the next one, if that is of the same block.
    fn before(&self) -> Option<Probe>
        ensures before { result ≡ in_block (length self.now.entries) (last_of None self.now.entries) }
    {
        if self.len % 64 == 0 { None } else { self.last }
    }
}

impl Keeper for Packed {
    ghost stands = { λ p log. p.entries ≡ log };

    ghost room_of = { λ p. p.room };

    fn room(&self) -> u64 {
        self.room
    }

    fn put(&mut self, probe: Probe) {
        let before = self.before();
        push_start(self.len, self.words.as_slice().len(), &mut self.starts);
        push_entry(&before, &probe, &mut self.words);
        self.room -= 1;
        self.len += 1;
        self.last = Some(probe);
    }
}
