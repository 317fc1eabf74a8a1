//! The headers of packed entries.

ghost use Rattle.std.specs.Prelude.{◌≡◌, ◌<◌};
ghost use Rattle.probe_log.specs.Packing.{latch_code, why_code, names_now, named_code, hart_follows, pc_follows, flag, header_of, header_word};
ghost use Rattle.probe_log.specs.Unpacking.{is_set, header_in, IsLatch, NamesLatch, IsEntry};

use hart_model::{Probe, Side, Why};
use isa_model::Latch;

/// What the header of a packed entry says.
#[derive(Clone, Copy, Debug)]
pub(crate) struct Header {
    /// The code of the latch.
    pub latch: u8,
    /// The code of the why.
    pub why: u8,
    /// Whether the why names the value after the write.
    pub names_now: bool,
    /// The code of the latch that the why names, and 0 where it names none.
    pub named: u8,
    pub hart_follows: bool,
    pub pc_follows: bool,
    pub was_follows: bool,
    pub now_follows: bool,
}

/// The code of a latch.
fn latch_code(latch: Latch) -> u8
    ensures code { result ≡ latch_code latch }
    ensures latch { IsLatch latch }
{
    match latch {
        Latch::Reg(r) => r.num(),
        Latch::PortA => 32,
        Latch::PortB => 33,
        Latch::Res => 34,
        Latch::Load => 35,
        Latch::Store => 36,
        Latch::Scr => 37,
        Latch::Mem(_) => 38,
        Latch::Mul => 39,
    }
}

/// The code of a why.
fn why_code(why: &Why) -> u8
    ensures code { result ≡ why_code why.now }
    ensures bound { result < 4 }
{
    match why {
        Why::Public => 0,
        Why::Value { .. } => 1,
        Why::Step { .. } => 2,
        Why::Unexplained => 3,
    }
}

/// Whether a why names the value after the write.
fn names_now(why: &Why) -> bool
    ensures test { result ≡ names_now why.now }
{
    match why {
        Why::Value { side, .. } => *side == Side::Now,
        _ => false,
    }
}

/// The code of the latch that a why names, and 0 where it names none.
fn named_code(why: &Why) -> u8
    ensures code { result ≡ named_code why.now }
    ensures latch { NamesLatch why.now }
{
    match why {
        Why::Value { latch, .. } => latch_code(*latch),
        Why::Step { latch, .. } => latch_code(*latch),
        _ => 0,
    }
}

/// Whether the hart of an entry follows its header.
fn hart_follows(before: &Option<Probe>, probe: &Probe) -> bool
    ensures test { result ≡ hart_follows before.now probe.entry.now }
{
    match before {
        None => true,
        Some(before) => before.hart != probe.hart,
    }
}

/// Whether the pc of an entry follows its header.
fn pc_follows(before: &Option<Probe>, probe: &Probe) -> bool
    ensures test { result ≡ pc_follows before.now probe.entry.now }
{
    match before {
        None => true,
        Some(before) => before.pc != probe.pc,
    }
}

/// 1 for true, and 0 for false.
fn flag(is: bool) -> u32
    ensures number { result ≡ flag is }
    ensures bound { result < 2 }
{
    if is { 1 } else { 0 }
}

/// Whether a bit of a word is set.
fn is_set(word: u32, at: u32) -> bool
    requires at { at < 32 }
    ensures test { result ≡ is_set at word }
{
    (word >> at) % 2 == 1
}

impl Header {
    /// The header of an entry, after this one of its block.
    pub(crate) fn new(before: &Option<Probe>, probe: &Probe) -> Header
        ensures header { result ≡ header_of before.now probe.entry.now }
        ensures why { result.why < 4 }
        ensures entry { IsEntry probe.entry.now }
    {
        Header {
            latch: latch_code(probe.latch),
            why: why_code(&probe.why),
            names_now: names_now(&probe.why),
            named: named_code(&probe.why),
            hart_follows: hart_follows(before, probe),
            pc_follows: pc_follows(before, probe),
            was_follows: probe.was != 0,
            now_follows: probe.now != 0,
        }
    }

    /// Its word.
    pub(crate) fn word(&self) -> u32
        requires why { self.now.why < 4 }
        ensures word { result ≡ header_word self.now }
    {
        let codes = u32::from(self.latch)
            + 0x100 * u32::from(self.why)
            + 0x800 * u32::from(self.named);
        let named = 0x400 * flag(self.names_now);
        let places = 0x8_0000 * flag(self.hart_follows) + 0x10_0000 * flag(self.pc_follows);
        let values = 0x20_0000 * flag(self.was_follows) + 0x40_0000 * flag(self.now_follows);
        codes + named + places + values
    }

    /// The header of a word.
    pub(crate) fn from_word(word: u32) -> Header
        ensures header { result ≡ header_in word }
    {
        Header {
            latch: (word % 0x100) as u8,
            why: (word / 0x100 % 4) as u8,
            names_now: is_set(word, 10),
            named: (word / 0x800 % 0x100) as u8,
            hart_follows: is_set(word, 19),
            pc_follows: is_set(word, 20),
            was_follows: is_set(word, 21),
            now_follows: is_set(word, 22),
        }
    }
}
