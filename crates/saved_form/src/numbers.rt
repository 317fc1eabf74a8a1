//! Numbers, read from left to right.

ghost use Rattle.std.specs.Prelude.{◌≡◌, ◌≤◌, Ok, Err, IfOk, if◌then◌else◌};
ghost use Rattle.saved_form.specs.Fields.{byte_at, field};
ghost use Rattle.saved_form.specs.Ranges.{any, up_to, between};
ghost use Rattle.saved_form.specs.Reading.{numbers_in, numbers as so_many, counted_numbers};
ghost use Rattle.saved_form.specs.Answer.{Gives};

use byteorder::{ByteOrder, LittleEndian};
use isa_model::Words;
use std::alloc::{AllocError, AllocFailed, Global};
use std::convert::From;
use std::marker::Model;

/// Why bytes aren't a saved board.
#[derive(Clone, Copy, Debug, PartialEq, Eq)]
pub enum ReadError {
    /// They end before the field that begins at this byte is whole.
    Short { at: u64 },
    /// The field at this byte is the first that is out of range or disagrees with those before it, or this is the first byte after the
    /// last field, and there is one.
    Bad { at: u64 },
    /// Memory ran out.
    Memory,
}

impl From<AllocError> for ReadError {
    ghost use Rattle.saved_form.specs.declared.numbers.ReadError.TheVariants.{Memory};

    ghost from_gives = { λ _ error. error ≡ Memory };

    fn from(_: AllocError) -> ReadError {
        ReadError::Memory
    }
}

impl<T: Drop> From<AllocFailed<T>> for ReadError {
    ghost use Rattle.saved_form.specs.declared.numbers.ReadError.TheVariants.{Memory};

    ghost from_gives = { λ _ error. error ≡ Memory };

    fn from(_: AllocFailed<T>) -> ReadError {
        ReadError::Memory
    }
}

/// The numbers of bytes, four bytes each. Contracts see how many were read, and those that are left. Each call takes constant time and no
/// memory.
#[derive(Drop)]
pub(crate) struct Numbers<'a> {
    bytes: &'a [u8],
    seen: u64,
}

impl<'a> Model for Numbers<'a> {
    ghost use Rattle.std.specs.Prelude.{◌+◌, ◌*◌, ◌^◌, ◌<◌, length};
    ghost use Rattle.saved_form.specs.Fields.{Place};
    ghost use Rattle.saved_form.specs.Reading.{numbers_in};

    ghost Value = { Place };

    ghost view = { λ numbers. record { seen = numbers.seen; left = numbers_in numbers.bytes.now } };

    ghost invariant = { λ numbers. 4 * numbers.seen + length numbers.bytes.now < 2 ^ 64 };
}

/// A number that was read at a byte, if it passes its test.
pub(crate) fn passed(number: u32, at: u64, passes: bool) -> Result<u32, ReadError>
    ensures value { result ≡ (if passes then Ok number else Err (ReadError.Bad at)) }
{
    if passes {
        Ok(number)
    } else {
        Err(ReadError::Bad { at })
    }
}

impl<'a> Numbers<'a> {
    /// All numbers of bytes.
    pub(crate) fn new(bytes: &'a [u8]) -> Numbers<'a>
        ensures value { result ≡ record { seen = 0; left = numbers_in bytes.now } }
    {
        Numbers { bytes, seen: 0 }
    }

    /// The byte at which the next number begins.
    pub(crate) fn at(&self) -> u64
        ensures value { result ≡ byte_at self.now.seen }
    {
        4 * self.seen
    }

    /// Any number.
    pub(crate) fn any(&mut self) -> Result<u32, ReadError>
        ensures value { Gives result self.new (field any self.old) }
    {
        let bytes = self.bytes;
        if bytes.len() < 4 {
            return Err(ReadError::Short { at: 4 * self.seen });
        }
        let number = LittleEndian::read_u32(bytes);
        self.bytes = &bytes[4..];
        self.seen += 1;
        Ok(number)
    }

    /// A number up to this one.
    pub(crate) fn up_to(&mut self, high: usize) -> Result<u32, ReadError>
        ensures value { Gives result self.new (field (up_to high) self.old) }
    {
        let at = self.at();
        let number = self.any()?;
        passed(number, at, number as usize <= high)
    }

    /// A number between these two.
    pub(crate) fn between(&mut self, low: u32, high: u32) -> Result<u32, ReadError>
        ensures value { Gives result self.new (field (between low high) self.old) }
        ensures bound { IfOk result (λ number. number ≤ high) }
    {
        let at = self.at();
        let number = self.any()?;
        passed(number, at, low <= number && number <= high)
    }

    /// So many numbers, of any value.
    pub(crate) fn words(&mut self, alloc: Global, count: u32) -> Result<Words, ReadError>
        ensures value { Gives result self.new (so_many count any self.old) }
    {
        let mut found = Vec::new(alloc);
        for _index in 0..count {
            let number = self.any()?;
            found.push(number)?;
        }
        Ok(Words::new(found))
    }

    /// How many numbers there are, at most this many, and these.
    pub(crate) fn counted_words(&mut self, alloc: Global, most: usize) -> Result<Words, ReadError>
        ensures value { Gives result self.new (counted_numbers most any self.old) }
    {
        let count = self.up_to(most)?;
        self.words(alloc, count)
    }

    /// As many numbers as an array has, of any value.
    pub(crate) fn array<const N: usize>(&mut self) -> Result<[u32; N], ReadError>
        ensures value { Gives result self.new (so_many N any self.old) }
    {
        let mut found = [0u32; N];
        for index in 0..N {
            let number = self.any()?;
            found[index] = number;
        }
        Ok(found)
    }
}
