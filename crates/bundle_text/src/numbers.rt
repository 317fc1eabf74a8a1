//! Numbers as text.

ghost use Rattle.std.specs.Prelude.{◌≡◌, ◌<◌, ◌≤◌, length, is_some, IfSome};
ghost use Rattle.bundle_text.specs.Numbers.{number_in, hex_digit_of, hex_of, without_0x, word_of};

use crate::bundle::BundleKind;

/// Above every number that a bundle may have. A decimal with more digits stays at this.
const CAP: u64 = 10_000_000_000;

/// How many digits a word has at most.
const WORD_DIGITS: usize = 8;

/// The decimal number of a token, in a range.
pub(crate) fn number_in(low: u32, high: u32, token: &[u8]) -> Result<u32, BundleKind>
    ensures value { result ≡ number_in low high token.now }
{
    if token.is_empty() {
        return Err(BundleKind::BadNumber);
    }
    let mut value: u64 = 0;
    for digit in token {
        if !digit.is_ascii_digit() {
            return Err(BundleKind::BadNumber);
        }
        value = (value * 10 + u64::from(*digit - b'0')).min(CAP);
    }
    if u64::from(low) <= value && value <= u64::from(high) {
        Ok(value as u32)
    } else {
        Err(BundleKind::OutOfRange)
    }
}

/// The number of a hexadecimal digit of either case.
fn hex_digit(b: u8) -> Option<u32>
    ensures value { result ≡ hex_digit_of b }
    ensures bound { IfSome result (λ d. d < 16) }
{
    match b {
        b'0'..=b'9' => Some(u32::from(b - b'0')),
        b'a'..=b'f' => Some(u32::from(b - b'a' + 10)),
        b'A'..=b'F' => Some(u32::from(b - b'A' + 10)),
        _ => None,
    }
}

/// Whether a text has hexadecimal digits alone, and at least one.
fn is_hex(text: &[u8]) -> bool
    ensures value { result ≡ is_some (hex_of text.now) }
{
    if text.is_empty() {
        return false;
    }
    for b in text {
        match hex_digit(*b) {
            Some(_) => {}
            None => return false,
        }
    }
    true
}

/// The number of hexadecimal digits, few enough to fit a word.
fn hex_number(text: &[u8]) -> Option<u32>
    requires few { length text.now ≤ 8 }
    ensures value { result ≡ hex_of text.now }
{
    if text.is_empty() {
        return None;
    }
    let mut value: u64 = 0;
    for b in text {
        match hex_digit(*b) {
            Some(digit) => value = value * 16 + u64::from(digit),
            None => return None,
        }
    }
    Some(value as u32)
}

/// A token without the `0x` at its front.
fn without_0x(token: &[u8]) -> &[u8]
    ensures value { result.now ≡ without_0x token.now }
{
    match token {
        [b'0', b'x', digits @ ..] => digits,
        _ => token,
    }
}

/// The word of a token.
pub(crate) fn word(token: &[u8]) -> Result<u32, BundleKind>
    ensures value { result ≡ word_of token.now }
{
    let digits = without_0x(token);
    if digits.len() <= WORD_DIGITS {
        hex_number(digits).ok_or(BundleKind::BadNumber)
    } else if is_hex(digits) {
        Err(BundleKind::OutOfRange)
    } else {
        Err(BundleKind::BadNumber)
    }
}
