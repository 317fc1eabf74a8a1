//! The fields of the words that are read and written.

ghost use Rattle.std.specs.Prelude.{◌≡◌, ◌<◌, ◌≤◌, ◌%◌};
ghost use Rattle.isa_model.specs.Arithmetic.{bit_of};
ghost use Rattle.isa_model.specs.Bits.{word_address};
ghost use Rattle.hart_model.specs.Csrs.{mode_bits, legal_mode, is_bit_set, public};

use hart_model::{Cell, Mode, Tag};

/// A field of one bit: 1 where it is set.
pub(crate) fn bit(is_set: bool) -> u32
    ensures value { result ≡ bit_of is_set }
    ensures bound { result ≤ 1 }
{
    if is_set { 1 } else { 0 }
}

/// Whether a bit of a word is set.
pub(crate) fn is_bit_set(number: u32, word: u32) -> bool
    requires number { number < 32 }
    ensures value { result ≡ is_bit_set number word }
{
    word >> number & 1 == 1
}

/// A mode as the two bits of MPP: 00 for user mode, 11 for machine mode.
pub(crate) fn mode_bits(mode: Mode) -> u32
    ensures value { result ≡ mode_bits mode }
    ensures bound { result ≤ 3 }
{
    match mode {
        Mode::User => 0,
        Mode::Machine => 3,
    }
}

/// The mode that is kept where two bits are written to MPP: 01 and 10 are no mode of this profile and become user mode.
pub(crate) fn legal_mode(two_bits: u32) -> Mode
    ensures value { result ≡ legal_mode two_bits }
{
    if two_bits == 3 {
        Mode::Machine
    } else {
        Mode::User
    }
}

/// An address whose low two bits are cleared.
pub(crate) fn word_address(address: u32) -> u32
    ensures value { result ≡ word_address address }
    ensures aligned { result % 4 ≡ 0 }
{
    address / 4 * 4
}

/// A public cell.
pub(crate) fn public(value: u32) -> Cell
    ensures cell { result ≡ public value }
{
    Cell {
        value,
        tag: Tag::Public,
    }
}
