//! Numbers as text.

ghost use Rattle.std.specs.Prelude.{◌≡◌, ◌<◌, ◌≤◌, ◌^◌, ◌-◌, ◌+ℤ◌, ◌≤ℤ◌, pos, Some, option_map, IfSome, FitsSigned, IfOk, IsTrue};
ghost use Rattle.std.specs.Option.{ForSome};
ghost use Rattle.std.specs.Int.{w64};
ghost use Rattle.asm_line.specs.Numbers.{negative, digit_of, digits_after, digits_value, natural_of, number_of, distance_of, is_within, is_even};
ghost use Rattle.asm_line.specs.Capped.{capped, capped_number};
ghost use Rattle.asm_line.specs.Operands.{in_range, number_in, unsigned_in, word_value};

use crate::line::AsmKind;

/// Above the size of every number that an operand may be. A number of more digits stays at this.
const CAP: u64 = 0x2_0000_0000;

/// The value of a digit; letters of either case go on after 9.
fn digit(b: u8) -> Option<u64>
    ensures value { result ≡ digit_of b }
    ensures bound { IfSome result (λ d. d < 36) }
{
    match b {
        b'0'..=b'9' => Some(u64::from(b - b'0')),
        b'a'..=b'z' => Some(u64::from(b - b'a' + 10)),
        b'A'..=b'Z' => Some(u64::from(b - b'A' + 10)),
        _ => None,
    }
}

/// The value of digits, up to the cap.
fn digits_after(base: u64, text: &[u8]) -> Option<u64>
    requires base { (2 ≤ base) × (base ≤ 16) }
    ensures value { result ≡ option_map capped (digits_after base (Some 0) text.now) }
    ensures bound { IfSome result (λ n. n ≤ 2 ^ 33) }
{
    let mut value: u64 = 0;
    for b in text {
        let digit = digit(*b)?;
        if digit >= base {
            return None;
        }
        value = (value * base + digit).min(CAP);
    }
    Some(value)
}

/// The value of one or more digits, up to the cap.
fn digits_value(base: u64, text: &[u8]) -> Option<u64>
    requires base { (2 ≤ base) × (base ≤ 16) }
    ensures value { result ≡ option_map capped (digits_value base text.now) }
    ensures bound { IfSome result (λ n. n ≤ 2 ^ 33) }
{
    if text.is_empty() {
        None
    } else {
        digits_after(base, text)
    }
}

/// The value of `0x` and hexadecimal digits, or of decimal digits, up to the cap.
fn natural(text: &[u8]) -> Option<u64>
    ensures value { result ≡ option_map capped (natural_of text.now) }
    ensures bound { IfSome result (λ n. n ≤ 2 ^ 33) }
{
    if text.starts_with(b"0x") {
        digits_value(16, &text[2..])
    } else {
        digits_value(10, text)
    }
}

/// A natural number as an integer.
fn positive(value: Option<u64>) -> Option<i64>
    requires bound { ForSome value (λ n. n ≤ 2 ^ 33) }
    ensures value { result ≡ option_map pos value }
    ensures fits { IfSome result (λ n. FitsSigned w64 n) }
{
    match value {
        Some(n) => Some(n as i64),
        None => None,
    }
}

/// The negative of a natural number.
fn negative(value: Option<u64>) -> Option<i64>
    requires bound { ForSome value (λ n. n ≤ 2 ^ 33) }
    ensures value { result ≡ option_map negative value }
    ensures fits { IfSome result (λ n. FitsSigned w64 n) }
{
    match value {
        Some(n) => Some(-(n as i64)),
        None => None,
    }
}

/// A number with its sign, up to the cap.
#[tactic(auto, using(crate::proofs::Digits::caps))]
fn number(text: &[u8]) -> Option<i64>
    ensures value { result ≡ option_map capped_number (number_of text.now) }
    ensures fits { IfSome result (λ n. FitsSigned w64 n) }
{
    if text.starts_with(b"-") {
        negative(digits_value(10, &text[1..]))
    } else {
        positive(natural(text))
    }
}

/// The distance of `.+N` or `.-N`, up to the cap.
#[tactic(auto, using(crate::proofs::Digits::caps))]
pub(crate) fn distance(text: &[u8]) -> Option<i64>
    ensures value { result ≡ option_map capped_number (distance_of text.now) }
    ensures fits { IfSome result (λ n. FitsSigned w64 n) }
{
    if text.starts_with(b".+") {
        positive(digits_value(10, &text[2..]))
    } else if text.starts_with(b".-") {
        negative(digits_value(10, &text[2..]))
    } else {
        None
    }
}

/// Whether a number is from -below to above.
pub(crate) fn is_within(below: u32, above: u32, number: i64) -> bool
    ensures value { result ≡ is_within below above number }
    ensures range { IsTrue result → (pos 0 ≤ℤ (number +ℤ pos below)) × (number ≤ℤ pos above) }
{
    -i64::from(below) <= number && number <= i64::from(above)
}

/// Whether a number is even.
pub(crate) fn is_even(number: i64) -> bool
    ensures value { result ≡ is_even number }
{
    number % 2 == 0
}

/// The number, if it is from -below to above.
fn in_range(below: u32, above: u32, number: i64) -> Result<i64, AsmKind>
    ensures value { result ≡ in_range below above number }
    ensures range { IfOk result (λ n. (pos 0 ≤ℤ (n +ℤ pos below)) × (n ≤ℤ pos above)) }
{
    if is_within(below, above, number) {
        Ok(number)
    } else {
        Err(AsmKind::OutOfRange)
    }
}

/// A number from -below to above.
pub(crate) fn number_in(below: u32, above: u32, text: &[u8]) -> Result<i64, AsmKind>
    ensures value { result ≡ number_in below above text.now }
    ensures range { IfOk result (λ n. (pos 0 ≤ℤ (n +ℤ pos below)) × (n ≤ℤ pos above)) }
{
    match number(text) {
        Some(number) => in_range(below, above, number),
        None => Err(AsmKind::BadNumber),
    }
}

/// A number as a word, in two's complement.
pub(crate) fn word_value(number: i64) -> u32
    requires low { pos 0 ≤ℤ (number +ℤ pos (2 ^ 31)) }
    requires high { number ≤ℤ pos (2 ^ 32 - 1) }
    ensures value { result ≡ word_value number }
    ensures natural { pos 0 ≤ℤ number → pos result ≡ number }
{
    if number < 0 {
        (number + 0x1_0000_0000) as u32
    } else {
        number as u32
    }
}

/// A number from 0 to above.
pub(crate) fn unsigned_in(above: u32, text: &[u8]) -> Result<u32, AsmKind>
    ensures value { result ≡ unsigned_in above text.now }
    ensures bound { IfOk result (λ n. n ≤ above) }
{
    let number = number_in(0, above, text)?;
    Ok(word_value(number))
}
