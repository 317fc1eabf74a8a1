//! Reading a line.

ghost use Rattle.std.specs.Prelude.{◌≡◌, ◌<◌, [], length, Some, IfOk, IfSome, IfNone, unwrap_or, option_copied};
ghost use Rattle.asm_line.specs.declared.pieces.Separator.TheVariants.{Colon};
ghost use Rattle.asm_line.specs.Pieces.{pieces, trim, operands_of, texts_after};
ghost use Rattle.asm_line.specs.LineForm.{with_label, no_labels, parts_of, item_of_word, item_of, line_of};

use crate::fields::{fields_of, have_shapes};
use crate::items::item;
use crate::line::{AsmKind, Item, Label, Labels, Line};
use crate::mnemonic::{Mnemonic, mnemonic_of, operands};
use crate::names::is_name;
use crate::pieces::{Separator, cut, trim, trim_start};
use std::alloc::{AllocError, Global};

/// The label in front of a text, and what follows its colon.
fn label_at_front(text: &[u8]) -> Option<(&[u8], &[u8])>
    ensures some { IfSome result (λ cut. parts_of (pieces Colon text.now) ≡ with_label cut.0.now (parts_of (pieces Colon cut.1.now))) }
    ensures none { IfNone result (parts_of (pieces Colon text.now) ≡ no_labels text.now) }
    ensures shorter { IfSome result (λ cut. length cut.1.now < length text.now) }
{
    let (piece, rest) = cut(text, Separator::Colon);
    let rest = rest?;
    let label = trim_start(piece);
    if is_name(label) {
        Some((label, rest))
    } else {
        None
    }
}

/// The labels in front of a text, and what follows them.
fn labels_and_rest(alloc: Global, text: &[u8]) -> Result<(Labels, &[u8]), AllocError>
    ensures parts { IfOk result (λ read. parts_of (pieces Colon text.now) ≡ record { labels = read.0; rest = read.1.now }) }
{
    let mut labels = Labels::new(alloc);
    let mut rest = text;
    while let Some((label, next)) = label_at_front(rest) {
        labels.push(Label::new(alloc, label)?)?;
        rest = next;
    }
    Ok((labels, rest))
}

/// The item of a word and of the texts between commas.
fn item_of_word(
    alloc: Global,
    word: Mnemonic,
    texts: Option<&[u8]>,
) -> Result<Result<Item, AsmKind>, AllocError>
    ensures value { IfOk result (λ item. item ≡ item_of_word (Some word) (texts_after (option_copied texts.entry))) }
{
    if !have_shapes(operands(word), texts) {
        return Ok(Err(AsmKind::Operands));
    }
    match fields_of(operands(word), texts) {
        Ok(fields) => Ok(Ok(item(alloc, word, fields)?)),
        Err(kind) => Ok(Err(kind)),
    }
}

/// The text of operands, if there is any, in what follows the first word.
fn operands_text(rest: Option<&[u8]>) -> Option<&[u8]>
    ensures texts { texts_after (option_copied result) ≡ operands_of (trim (unwrap_or (option_copied rest.entry) [])) }
{
    let text = match rest {
        Some(rest) => trim(rest),
        None => return None,
    };
    if text.is_empty() { None } else { Some(text) }
}

/// The item of a text without labels, comment and blanks at its ends.
fn item_of(alloc: Global, text: &[u8]) -> Result<Result<Item, AsmKind>, AllocError>
    ensures value { IfOk result (λ item. item ≡ item_of text.now) }
{
    if text.is_empty() {
        return Ok(Ok(Item::Empty));
    }
    let (name, rest) = cut(text, Separator::Blank);
    let Some(word) = mnemonic_of(name) else {
        return Ok(Err(AsmKind::UnknownWord));
    };
    item_of_word(alloc, word, operands_text(rest))
}

/// Reads one line: its labels in their order, and its item. A target `.+N` or `.-N` is already in the word. Where the line is
/// refused, its item is the first fault: `UnknownWord`, then `Operands`, then operand by operand from the left `BadRegister`,
/// `BadNumber` or `OutOfRange`. The time is linear in the length of the line.
pub fn read_line(alloc: Global, line: &[u8]) -> Result<Line, AllocError>
    ensures read { IfOk result (λ read. read ≡ line_of line.now) }
{
    let (text, _) = cut(line, Separator::Hash);
    let (labels, rest) = labels_and_rest(alloc, text)?;
    let item = item_of(alloc, trim(rest))?;
    Ok(Line { labels, item })
}
