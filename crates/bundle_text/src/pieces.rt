//! The lines of a text and the tokens of a line.

ghost use Rattle.std.specs.Prelude.{◌≡◌, ◌<◌, ◌∷◌, length, option_map, option_copied, IfSome, IfOk};
ghost use Rattle.std.specs.List.{slice_split};
ghost use Rattle.bundle_text.specs.Pieces.{is_line_end, is_blank, is_text_byte, is_text, without_cr, pieces_after, lines, lines_cut, tokens, texts};

use std::alloc::{AllocError, Global};

/// The byte that ends a line, LF.
pub(crate) const LINE_END: u8 = b'\n';

/// The byte that is dropped before a line end, CR.
pub(crate) const CARRIAGE_RETURN: u8 = b'\r';

/// A blank.
pub(crate) const SPACE: u8 = b' ';

/// The other blank.
pub(crate) const TAB: u8 = b'\t';

/// Whether a byte may stand in a line.
fn is_text_byte(b: u8) -> bool
    ensures value { result ≡ is_text_byte b }
{
    (0x20 <= b && b <= 0x7e) || b == TAB || b == CARRIAGE_RETURN
}

/// Whether all bytes of a line may stand in it.
pub(crate) fn is_text(line: &[u8]) -> bool
    ensures value { result ≡ is_text line.now }
{
    for b in line {
        if !is_text_byte(*b) {
            return false;
        }
    }
    true
}

/// A line without one CR at its end.
fn without_cr(line: &[u8]) -> &[u8]
    ensures value { result.now ≡ without_cr line.now }
{
    let count = line.len();
    if count > 0 && line[count - 1] == CARRIAGE_RETURN {
        &line[..count - 1]
    } else {
        line
    }
}

/// What stands before the first line end, and what follows it if there is one.
fn cut_at_line_end(bytes: &[u8]) -> (&[u8], Option<&[u8]>)
    ensures pieces { slice_split is_line_end bytes.now ≡ result.0.now ∷ pieces_after is_line_end (option_copied result.1) }
    ensures shorter { IfSome result.1 (λ rest. length rest.now < length bytes.now) }
{
    for (at, b) in bytes.iter().enumerate() {
        if *b == LINE_END {
            return (&bytes[..at], Some(&bytes[at + 1..]));
        }
    }
    (bytes, None)
}

/// The first line of a text and the bytes after it, or none where there are no bytes.
pub(crate) fn cut_line(bytes: &[u8]) -> Option<(&[u8], &[u8])>
    ensures lines { lines bytes.now ≡ lines_cut (option_map (λ cut. (cut.0.now, cut.1.now)) result) }
    ensures shorter { IfSome result (λ cut. length cut.1.now < length bytes.now) }
{
    let (piece, rest) = cut_at_line_end(bytes);
    match rest {
        Some(rest) => Some((without_cr(piece), rest)),
        None => {
            if piece.is_empty() {
                None
            } else {
                Some((piece, &bytes[bytes.len()..]))
            }
        }
    }
}

/// What stands before the first blank, and what follows it if there is one.
fn cut_at_blank(line: &[u8]) -> (&[u8], Option<&[u8]>)
    ensures pieces { slice_split is_blank line.now ≡ result.0.now ∷ pieces_after is_blank (option_copied result.1) }
    ensures shorter { IfSome result.1 (λ rest. length rest.now < length line.now) }
{
    for (at, b) in line.iter().enumerate() {
        if *b == SPACE || *b == TAB {
            return (&line[..at], Some(&line[at + 1..]));
        }
    }
    (line, None)
}

/// The tokens of a line.
pub(crate) fn tokens(alloc: Global, line: &[u8]) -> Result<Vec<&[u8]>, AllocError>
    ensures tokens { IfOk result (λ v. texts v.items ≡ tokens line.now) }
{
    let mut found = Vec::new(alloc);
    let mut rest = Some(line);
    while let Some(text) = rest {
        let (piece, next) = cut_at_blank(text);
        if !piece.is_empty() {
            found.push(piece)?;
        }
        rest = next;
    }
    Ok(found)
}
