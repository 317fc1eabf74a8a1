//! A source and a sink over memory. Each can be told how little it moves in a call and at which
//! calls it fails, so that a test can play any outside.

ghost use Rattle.std.specs.Prelude.{◌≡◌, ◌<◌, ◌≤◌, ◌↔◌, ◌⊎◌, false, [], ◌++◌, length, take, drop, IfOk, OnErr, IsErr, Contains, Some};
ghost use Rattle.std.specs.Io.{ReadsAtMost, WritesAtMost};
ghost use Rattle.std.specs.Io.KnownBytes.{ReadConsumes, WriteAppends};
ghost use Rattle.io_edge.specs.Causes.{HasCause};
ghost use Rattle.io_edge.specs.Gone.{moved, is_end};
ghost use Rattle.io_edge.specs.InMemory.{GivenBytes, TakenBytes, IsFullFor, given_count, taken_count, source_after_read, source_after_fault, sink_after_write, sink_after_fault};

use crate::past::is_end;
use crate::traits::{Failed, Sink, Source};
use std::alloc::{AllocError, Global};
use std::marker::Model;

/// A source over bytes, which gives at most so many a call and fails at the listed calls.
///
/// Calls are numbered from 0. The counters of calls and of faults are u64 and stay at the greatest
/// one, so that all calls from there on have that number.
#[derive(Debug, Drop)]
pub struct MemSource {
    bytes: Vec<u8>,
    at: usize,
    ended: bool,
    per_call: usize,
    failing: Vec<u64>,
    calls: u64,
    faults: u64,
}

impl Model for MemSource {
    ghost use Rattle.std.specs.Prelude.{◌<◌, ◌≤◌, vec_len, take, drop};
    ghost use Rattle.io_edge.specs.InMemory.{GivenBytes};

    ghost Value = { GivenBytes };

    ghost view = { λ s. record {
      left = drop s.at s.bytes.items;
      given = take s.at s.bytes.items;
      ended = s.ended;
      per_call = s.per_call;
      failing = s.failing.items;
      calls = s.calls;
      faults = s.faults;
    } };

    ghost invariant = { λ s. (s.at ≤ vec_len s.bytes) × (0 < s.per_call) };
}

impl MemSource {
    /// A source of these bytes, which gives at most `per_call` bytes a call and fails at the calls
    /// whose numbers are in `failing`.
    pub fn new(bytes: Vec<u8>, per_call: usize, failing: Vec<u64>) -> MemSource
        requires some { 0 < per_call }
        ensures value { result ≡ record {
          left = bytes.items;
          given = [];
          ended = false;
          per_call = per_call;
          failing = failing.items;
          calls = 0;
          faults = 0;
        } }
    {
        MemSource {
            bytes,
            at: 0,
            ended: false,
            per_call,
            failing,
            calls: 0,
            faults: 0,
        }
    }
}

impl Source for MemSource {
    ghost left = { λ s. Some s.left };

    ghost given = { λ s. s.given };

    ghost ended = { λ s. s.ended };

    ghost faults = { λ s. s.faults };

    /// Fails exactly where the number of this call is listed, and leaves the buffer as it was. Else it
    /// gives exactly the least of the bytes left, `per_call` and the buffer's length.
    fn read(&mut self, buf: &mut [u8]) -> Result<usize, Failed>
        ensures bound { ReadsAtMost result buf.new }
        ensures bytes { ReadConsumes (Some self.old.left) (Some self.new.left) result buf.new }
        ensures past { self.new.given ≡ self.old.given ++ moved result buf.new }
        ensures ended { self.new.ended ≡ is_end result (length buf.new) }
        ensures cause { HasCause self.old.faults self.new.faults result }

        ensures fails { IsErr result ↔ Contains self.old.failing self.old.calls }
        ensures fault { OnErr result (self.new ≡ source_after_fault self.old) }
        ensures untouched { OnErr result (buf.new ≡ buf.old) }

        ensures count { IfOk result (λ n. n ≡ given_count self.old (length buf.old)) }
        ensures given { IfOk result (λ n. buf.new ≡ take n self.old.left ++ drop n buf.old) }
        ensures after { IfOk result (λ n. self.new ≡ source_after_read self.old n (length buf.old)) }
    {
        let call = self.calls;
        self.calls = call.saturating_add(1);
        self.ended = false;
        if self.failing.contains(&call) {
            self.faults = self.faults.saturating_add(1);
            return Err(Failed);
        }
        let left = self.bytes.len() - self.at;
        let count = left.min(self.per_call).min(buf.len());
        self.ended = is_end(count, buf.len());
        let end = self.at + count;
        buf[..count].copy_from_slice(&self.bytes[self.at..end]);
        self.at = end;
        Ok(count)
    }
}

/// A sink over memory that was taken before, which takes at most so many bytes a call and fails at
/// the listed calls and where its room is full. A write takes no memory.
///
/// Calls are numbered from 0. The counters of calls and of faults are u64 and stay at the greatest
/// one, so that all calls from there on have that number.
#[derive(Debug, Drop)]
pub struct MemSink {
    bytes: Vec<u8>,
    room: usize,
    per_call: usize,
    failing: Vec<u64>,
    calls: u64,
    faults: u64,
}

impl Model for MemSink {
    ghost use Rattle.std.specs.Prelude.{◌<◌, ◌≤◌, vec_len, vec_capacity};
    ghost use Rattle.io_edge.specs.InMemory.{TakenBytes};

    ghost Value = { TakenBytes };

    ghost view = { λ s. record {
      held = s.bytes.items;
      room = s.room;
      per_call = s.per_call;
      failing = s.failing.items;
      calls = s.calls;
      faults = s.faults;
    } };

    ghost invariant = { λ s. (vec_len s.bytes ≤ s.room) × (s.room ≤ vec_capacity s.bytes)
        × (0 < s.per_call) };
}

impl MemSink {
    /// A sink that holds nothing and has this much room, which takes at most `per_call` bytes a call
    /// and fails at the calls whose numbers are in `failing`. `AllocError` is want of memory for
    /// the room.
    pub fn new(
        alloc: Global,
        room: usize,
        per_call: usize,
        failing: Vec<u64>,
    ) -> Result<MemSink, AllocError>
        requires some { 0 < per_call }
        ensures value { IfOk result (λ s. s ≡ record {
          held = [];
          room = room;
          per_call = per_call;
          failing = failing.items;
          calls = 0;
          faults = 0;
        }) }
    {
        let bytes = Vec::with_capacity(alloc, room)?;
        Ok(MemSink {
            bytes,
            room,
            per_call,
            failing,
            calls: 0,
            faults: 0,
        })
    }

    /// The bytes that it holds.
    pub fn bytes(&self) -> &[u8]
        ensures value { result.now ≡ self.now.held }
        ensures within { length self.now.held ≤ self.now.room }
    {
        self.bytes.as_slice()
    }
}

impl Sink for MemSink {
    ghost held = { λ s. Some s.held };

    ghost taken = { λ s. s.held };

    ghost faults = { λ s. s.faults };

    /// Fails exactly where the number of this call is listed, and where a piece that isn't empty finds
    /// no room left. Else it takes exactly the least of the piece's length, `per_call` and the
    /// room left.
    fn write(&mut self, piece: &[u8]) -> Result<usize, Failed>
        ensures bound { WritesAtMost result piece.now }
        ensures some { IfOk result (λ n. 0 < length piece.now → 0 < n) }
        ensures bytes { WriteAppends (Some self.old.held) (Some self.new.held) result piece.now }
        ensures taken { self.new.held ≡ self.old.held ++ moved result piece.now }
        ensures cause { HasCause self.old.faults self.new.faults result }

        ensures fails { IsErr result ↔
            (Contains self.old.failing self.old.calls ⊎ IsFullFor self.old piece.now) }
        ensures fault { OnErr result (self.new ≡ sink_after_fault self.old) }

        ensures count { IfOk result (λ n. n ≡ taken_count self.old (length piece.now)) }
        ensures after { IfOk result (λ n. self.new ≡ sink_after_write self.old (take n piece.now)) }
    {
        let call = self.calls;
        self.calls = call.saturating_add(1);
        let left = self.room - self.bytes.len();
        if self.failing.contains(&call) || (left == 0 && !piece.is_empty()) {
            self.faults = self.faults.saturating_add(1);
            return Err(Failed);
        }
        let count = piece.len().min(self.per_call).min(left);
        match self.bytes.extend_from_slice(&piece[..count]) {
            Ok(()) => Ok(count),
            Err(_) => unreachable!(),
        }
    }
}
