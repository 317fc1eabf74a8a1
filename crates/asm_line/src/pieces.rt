//! The pieces of a text, one at a time.

ghost use Rattle.std.specs.Prelude.{◌≡◌, ◌<◌, ◌∷◌, [], length, is_some, unwrap_or, IfSome, IfNone, option_copied};
ghost use Rattle.std.specs.List.{list_any};
ghost use Rattle.asm_line.specs.Pieces.{is_separator, pieces, pieces_after, before, after, trim_start, trim_end, trim, is_address, offset_part, register_part};

/// What parts a text.
#[derive(Clone, Copy, Debug)]
pub(crate) enum Separator {
    /// A comment begins: `#`.
    Hash,
    /// A label ends: `:`.
    Colon,
    /// An operand ends: `,`.
    Comma,
    /// The offset of an address ends: `(`.
    Opening,
    /// A space or a tab.
    Blank,
}

/// Whether a byte is this separator.
fn is_separator(separator: Separator, b: u8) -> bool
    ensures value { result ≡ is_separator separator b }
{
    match separator {
        Separator::Hash => b == b'#',
        Separator::Colon => b == b':',
        Separator::Comma => b == b',',
        Separator::Opening => b == b'(',
        Separator::Blank => b == b' ' || b == b'\t',
    }
}

/// The piece before the first separator, and what follows it if there is one.
pub(crate) fn cut(text: &[u8], separator: Separator) -> (&[u8], Option<&[u8]>)
    ensures pieces { pieces separator text.now ≡ result.0.now ∷ pieces_after separator (option_copied result.1) }
    ensures front { result.0.now ≡ before separator text.now }
    ensures back { unwrap_or (option_copied result.1) [] ≡ after separator text.now }
    ensures whole { IfNone result.1 (result.0.now ≡ text.now) }
    ensures found { is_some result.1 ≡ list_any (is_separator separator) text.now }
    ensures shorter { IfSome result.1 (λ rest. length rest.now < length text.now) }
{
    for (at, b) in text.iter().enumerate() {
        if is_separator(separator, *b) {
            return (&text[..at], Some(&text[at + 1..]));
        }
    }
    (text, None)
}

/// The text without the blanks in front.
pub(crate) fn trim_start(text: &[u8]) -> &[u8]
    ensures value { result.now ≡ trim_start text.now }
{
    for (at, b) in text.iter().enumerate() {
        if !is_separator(Separator::Blank, *b) {
            return &text[at..];
        }
    }
    &text[text.len()..]
}

/// The text without the blanks at its end.
fn trim_end(text: &[u8]) -> &[u8]
    ensures value { result.now ≡ trim_end text.now }
{
    let mut end = text.len();
    while end > 0 {
        if !is_separator(Separator::Blank, text[end - 1]) {
            return &text[..end];
        }
        end -= 1;
    }
    &text[..0]
}

/// The text without the blanks at both ends.
pub(crate) fn trim(text: &[u8]) -> &[u8]
    ensures value { result.now ≡ trim text.now }
{
    trim_end(trim_start(text))
}

/// Whether a text is an offset, `(`, a register and `)`; what the two are is judged apart.
pub(crate) fn is_address(text: &[u8]) -> bool
    ensures value { result ≡ is_address text.now }
{
    let (_, rest) = cut(text, Separator::Opening);
    rest.is_some() && text.ends_with(b")")
}

/// The parts of `offset(rs1)`: what stands before the first `(`, and what stands between it and the last byte.
pub(crate) fn address_parts(text: &[u8]) -> (&[u8], &[u8])
    ensures offset { result.0.now ≡ offset_part text.now }
    ensures register { result.1.now ≡ register_part text.now }
{
    let (offset, rest) = cut(text, Separator::Opening);
    match rest {
        Some(rest) => (offset, &rest[..rest.len().saturating_sub(1)]),
        None => (offset, b""),
    }
}
