//! Reading entries back.

ghost use Rattle.std.specs.Prelude.{◌≡◌, ◌↔◌, [], IsTrue, option_map};
ghost use Rattle.probe_log.specs.Unpacking.{word_in, plain_latch, latch_in, side_of, why_in, hart_of, pc_of, entry_after, entry_in};

use crate::header::Header;
use hart_model::{Probe, Side, Why};
use isa_model::{Latch, RegNo};
use std::marker::Model;

/// The words of a packed log that are left to read, which contracts see as a list.
#[derive(Debug, Drop)]
pub(crate) struct WordsLeft<'a> {
    words: &'a [u32],
}

impl<'a> Model for WordsLeft<'a> {
    ghost use Rattle.std.specs.Prelude.{ℕ, List};

    ghost Value = { List ℕ };

    ghost view = { λ w. w.words.now };
}

/// The latch of a code that isn't that of the words of memory; None where no latch has it.
fn plain_latch(code: u8) -> Option<Latch>
    ensures latch { result ≡ plain_latch code }
{
    if code < 32 {
        return RegNo::new(code).map(Latch::Reg);
    }
    match code {
        32 => Some(Latch::PortA),
        33 => Some(Latch::PortB),
        34 => Some(Latch::Res),
        35 => Some(Latch::Load),
        36 => Some(Latch::Store),
        37 => Some(Latch::Scr),
        39 => Some(Latch::Mul),
        _ => None,
    }
}

/// The side that a why names.
fn side_of(names_now: bool) -> Side
    ensures side { result ≡ side_of names_now }
{
    if names_now { Side::Now } else { Side::Was }
}

/// The hart of the entry before.
fn hart_of(before: &Option<Probe>) -> u32
    ensures hart { result ≡ hart_of before.now }
{
    match before {
        None => 0,
        Some(before) => before.hart,
    }
}

/// The pc of the entry before.
fn pc_of(before: &Option<Probe>) -> u32
    ensures pc { result ≡ pc_of before.now }
{
    match before {
        None => 0,
        Some(before) => before.pc,
    }
}

impl<'a> WordsLeft<'a> {
    /// All of these words.
    pub(crate) fn new(words: &'a [u32]) -> WordsLeft<'a>
        ensures words { result ≡ words.now }
    {
        WordsLeft { words }
    }

    /// Whether none is left.
    pub(crate) fn is_empty(&self) -> bool
        ensures test { IsTrue result ↔ (self.now ≡ []) }
    {
        self.words.is_empty()
    }

    /// The next word where it follows, and else this one; None where it follows and none is left.
    fn word(&mut self, follows: bool, kept: u32) -> Option<u32>
        ensures read { option_map (λ word. (word, self.new)) result ≡ word_in follows kept self.old }
    {
        if !follows {
            return Some(kept);
        }
        let word = *self.words.first()?;
        self.words = &self.words[1..];
        Some(word)
    }

    /// The latch of a code; None where no latch has it, or its address is missing.
    fn latch(&mut self, code: u8) -> Option<Latch>
        ensures read { option_map (λ latch. (latch, self.new)) result ≡ latch_in code self.old }
    {
        if code == 38 {
            Some(Latch::Mem(self.word(true, 0)?))
        } else {
            plain_latch(code)
        }
    }

    /// The why of a header.
    fn why(&mut self, header: &Header) -> Option<Why>
        ensures read { option_map (λ why. (why, self.new)) result ≡ why_in header.now self.old }
    {
        if header.why == 0 {
            return Some(Why::Public);
        }
        if header.why == 3 {
            return Some(Why::Unexplained);
        }
        let task = self.word(true, 0)?;
        let step = self.word(true, 0)?;
        let latch = self.latch(header.named)?;
        if header.why == 1 {
            let side = side_of(header.names_now);
            Some(Why::Value {
                task,
                step,
                latch,
                side,
            })
        } else {
            Some(Why::Step { task, step, latch })
        }
    }

    /// The entry of a header.
    fn entry_after(&mut self, before: &Option<Probe>, header: &Header) -> Option<Probe>
        ensures read { option_map (λ probe. (probe, self.new)) result
            ≡ entry_after before.now header.now self.old }
    {
        let hart = self.word(header.hart_follows, hart_of(before))?;
        let pc = self.word(header.pc_follows, pc_of(before))?;
        let was = self.word(header.was_follows, 0)?;
        let now = self.word(header.now_follows, 0)?;
        let latch = self.latch(header.latch)?;
        let why = self.why(header)?;
        Some(Probe {
            hart,
            pc,
            latch,
            was,
            now,
            why,
        })
    }

    /// The next entry, after this one of its block; None where the words end too early, or a code is no latch's.
    pub(crate) fn entry(&mut self, before: &Option<Probe>) -> Option<Probe>
        ensures read { option_map (λ probe. (probe, self.new)) result ≡ entry_in before.now self.old }
    {
        let word = self.word(true, 0)?;
        self.entry_after(before, &Header::from_word(word))
    }
}
