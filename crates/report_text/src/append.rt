//! Bytes, decimal numbers and words at the end of a text. After want of memory the text may have a part of what was to come.

ghost use Rattle.std.specs.Prelude.{◌≡◌, ◌<◌, ◌++◌, codes, decimal, OnOk, slice_index};
ghost use Rattle.hex.specs.Hex.{lower_digits};
ghost use Rattle.report_text.specs.Texts.{hex_word};

use itoa::Buffer;
use std::alloc::AllocError;

/// The lower case hexadecimal digits.
const DIGITS: [u8; 16] = *b"0123456789abcdef";

/// Appends bytes.
pub(crate) fn add(bytes: &[u8], out: &mut Vec<u8>) -> Result<(), AllocError>
    ensures ok { OnOk result (out.new.items ≡ out.old.items ++ bytes.now) }
{
    out.extend_from_slice(bytes)
}

/// Appends a number in decimal.
pub(crate) fn add_decimal(number: u64, out: &mut Vec<u8>) -> Result<(), AllocError>
    ensures ok { OnOk result (out.new.items ≡ out.old.items ++ decimal number) }
{
    add(Buffer::new().format(number).as_bytes(), out)
}

/// Appends a name and a number in decimal.
pub(crate) fn add_count(name: &[u8], number: u64, out: &mut Vec<u8>) -> Result<(), AllocError>
    ensures ok { OnOk result (out.new.items ≡ out.old.items ++ (name.now ++ decimal number)) }
{
    add(name, out)?;
    add_decimal(number, out)
}

/// The hexadecimal digit of a number below 16.
fn digit(number: u8) -> u8
    requires small { number < 16 }
    ensures char { result ≡ slice_index lower_digits number }
{
    DIGITS[number as usize]
}

/// A word as eight lower case hexadecimal digits.
#[tactic(auto, unfolding(hex::specs::Hex::encode_with))]
fn word_digits(word: u32) -> [u8; 8]
    ensures text { result ≡ hex_word word }
{
    let [a, b, c, d] = word.to_be_bytes();
    [
        digit(a / 16),
        digit(a % 16),
        digit(b / 16),
        digit(b % 16),
        digit(c / 16),
        digit(c % 16),
        digit(d / 16),
        digit(d % 16),
    ]
}

/// Appends a blank and a word as eight lower case hexadecimal digits.
pub(crate) fn add_word(word: u32, out: &mut Vec<u8>) -> Result<(), AllocError>
    ensures ok { OnOk result (out.new.items ≡ out.old.items ++ (codes " " ++ hex_word word)) }
{
    let [a, b, c, d, e, f, g, h] = word_digits(word);
    add(&[b' ', a, b, c, d, e, f, g, h], out)
}
