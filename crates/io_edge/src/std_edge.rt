//! A source and a sink over the readers and writers of std. What a reader gives and a writer takes is
//! the outside's; these two count its errors, and tell contracts what went by.

ghost use Rattle.std.specs.Prelude.{◌≡◌, ◌<◌, false, [], ◌++◌, length, IfOk, is_ok, if◌then◌else◌};
ghost use Rattle.std.specs.Io.{ReadsAtMost, WritesAtMost};
ghost use Rattle.std.specs.Io.KnownBytes.{ReadConsumes, WriteAppends};
ghost use Rattle.io_edge.specs.Causes.{HasCause};
ghost use Rattle.io_edge.specs.Gone.{moved, is_end};
ghost use Rattle.io_edge.specs.InMemory.{next_count};
ghost use Rattle.io_edge.specs.OverStd.{CountedReader, CountedWriter};

use crate::past::{Past, is_end};
use crate::traits::{Failed, Sink, Source};
use std::io::{Read, Write};
use std::marker::Model;

/// A source over a reader, which counts the reader's errors in a u64 that stays at the greatest one.
/// Every error of the reader is a fault, an interrupted read too.
#[derive(Drop)]
pub struct StdSource<R: Read> {
    reader: R,
    faults: u64,
    given: Past,
    ended: bool,
}

impl<R: Read> Model for StdSource<R> {
    ghost use Rattle.io_edge.specs.OverStd.{CountedReader};

    ghost Value = { CountedReader };

    ghost view = { λ s. record {
      left = R.remaining s.reader;
      given = s.given.bytes;
      ended = s.ended;
      faults = s.faults;
    } };
}

impl<R: Read> StdSource<R> {
    /// A source of what the reader has left, which has given nothing and counted no fault.
    pub fn new(reader: R) -> StdSource<R>
        ensures value { result ≡ record { left = R.remaining reader; given = []; ended = false; faults = 0 } }
    {
        StdSource {
            reader,
            faults: 0,
            given: Past::new(),
            ended: false,
        }
    }
}

impl<R: Read> Source for StdSource<R> {
    ghost left = { λ s. s.left };

    ghost given = { λ s. s.given };

    ghost ended = { λ s. s.ended };

    ghost faults = { λ s. s.faults };

    /// Reads once from the reader. The count of faults rises by one exactly where this fails.
    fn read(&mut self, buf: &mut [u8]) -> Result<usize, Failed>
        ensures bound { ReadsAtMost result buf.new }
        ensures bytes { ReadConsumes self.old.left self.new.left result buf.new }
        ensures given { self.new.given ≡ self.old.given ++ moved result buf.new }
        ensures ended { self.new.ended ≡ is_end result (length buf.new) }
        ensures cause { HasCause self.old.faults self.new.faults result }

        ensures counted { self.new.faults ≡
            (if is_ok result then self.old.faults else next_count self.old.faults) }
    {
        match self.reader.read(buf) {
            Ok(count) => {
                self.given.add(&buf[..count]);
                self.ended = is_end(count, buf.len());
                Ok(count)
            }
            Err(_) => {
                self.ended = false;
                self.faults = self.faults.saturating_add(1);
                Err(Failed)
            }
        }
    }
}

/// A sink over a writer, which counts the writer's errors, and the writes that took no byte of a piece
/// that isn't empty, in a u64 that stays at the greatest one. It never flushes the writer.
#[derive(Drop)]
pub struct StdSink<W: Write> {
    writer: W,
    faults: u64,
    taken: Past,
}

impl<W: Write> Model for StdSink<W> {
    ghost use Rattle.io_edge.specs.OverStd.{CountedWriter};

    ghost Value = { CountedWriter };

    ghost view = { λ s. record {
      held = W.contents s.writer;
      taken = s.taken.bytes;
      faults = s.faults;
    } };
}

impl<W: Write> StdSink<W> {
    /// A sink that holds what the writer holds, which has taken nothing and counted no fault.
    pub fn new(writer: W) -> StdSink<W>
        ensures value { result ≡ record { held = W.contents writer; taken = []; faults = 0 } }
    {
        StdSink {
            writer,
            faults: 0,
            taken: Past::new(),
        }
    }
}

impl<W: Write> Sink for StdSink<W> {
    ghost held = { λ s. s.held };

    ghost taken = { λ s. s.taken };

    ghost faults = { λ s. s.faults };

    /// Writes once to the writer. The count of faults rises by one exactly where this fails.
    fn write(&mut self, piece: &[u8]) -> Result<usize, Failed>
        ensures bound { WritesAtMost result piece.now }
        ensures some { IfOk result (λ n. 0 < length piece.now → 0 < n) }
        ensures bytes { WriteAppends self.old.held self.new.held result piece.now }
        ensures taken { self.new.taken ≡ self.old.taken ++ moved result piece.now }
        ensures cause { HasCause self.old.faults self.new.faults result }

        ensures counted { self.new.faults ≡
            (if is_ok result then self.old.faults else next_count self.old.faults) }
    {
        match self.writer.write(piece) {
            Ok(count) if 0 < count || piece.is_empty() => {
                self.taken.add(&piece[..count]);
                Ok(count)
            }
            _ => {
                self.faults = self.faults.saturating_add(1);
                Err(Failed)
            }
        }
    }
}
