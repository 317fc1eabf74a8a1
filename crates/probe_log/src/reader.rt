//! Going through a packed log.

ghost use Rattle.std.specs.Prelude.{◌≡◌, ℕ, ◌+◌, ◌≤◌, List, length, drop, slice_get};
ghost use Rattle.hart_model.specs.declared.probe.Probe.{Probe as LogEntry};
ghost use Rattle.probe_log.specs.Packing.{in_block};
ghost use Rattle.probe_log.specs.Reading.{IsAt};

use crate::unpacking::WordsLeft;
use hart_model::Probe;
use std::marker::Model;

/// How many entries a block of a packed log has.
pub(crate) const BLOCK_LEN: u32 = 64;

/// A place in a packed log, from which entry after entry is read. Takes no memory.
#[derive(Debug, Drop)]
pub struct Reader<'a> {
    place: u32,
    before: Option<Probe>,
    words: WordsLeft<'a>,
}

impl<'a> Model for Reader<'a> {
    ghost use Rattle.std.specs.Prelude.{◌<◌};
    ghost use Rattle.probe_log.specs.Reading.{Reading};

    ghost Value = { Reading };

    ghost view = { λ r. record { place = r.place; before = r.before; words = r.words } };

    ghost invariant = { λ r. r.place < 64 };
}

impl<'a> Reader<'a> {
    /// At the start of a block, which is at this place of the words.
    pub(crate) fn new(words: &'a [u32], start: usize) -> Reader<'a>
        requires start { start ≤ length words.now }
        ensures reader { result ≡ record { place = 0; before = None; words = drop start words.now } }
    {
        Reader {
            place: 0,
            before: None,
            words: WordsLeft::new(&words[start..]),
        }
    }

    /// The entry before, if it is of the same block.
    fn before_in_block(&self) -> Option<Probe>
        ensures before { result ≡ in_block self.now.place self.now.before }
    {
        if self.place == 0 { None } else { self.before }
    }

    /// The entry where it is, and it goes on to the next; None exactly where the log has no more.
    pub fn next(&mut self) -> Option<Probe>
        ensures entry { (log : List LogEntry) (n : ℕ) → IsAt self.old log n
            → (result ≡ slice_get log n) × IsAt self.new log (n + 1) }
    {
        if self.words.is_empty() {
            return None;
        }
        let before = self.before_in_block();
        let probe = self.words.entry(&before)?;
        self.place = (self.place + 1) % BLOCK_LEN;
        self.before = Some(probe);
        self.before
    }
}
