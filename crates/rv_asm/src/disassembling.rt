//! Disassembling words.

ghost use Rattle.std.specs.Prelude.{◌≡◌, ℕ, ◌≤◌, ◌++◌, length, IfOk, OnOk, OnErr};
ghost use Rattle.std.specs.Str.Lines.{lines};
ghost use Rattle.isa_model.specs.Limits.{max_code_words};
ghost use Rattle.rv_asm.specs.Assembly.{Assembles};
ghost use Rattle.rv_asm.specs.Disassembly.{line_of_word, lines_of_words, ended, listing_of, one_per_line};

use rv_decode::{decode, instr_text, word_text};
use std::alloc::{AllocError, Global};

/// Appends the line of a word, without an end: the text of its instruction, or `.word 0x` with eight digits where it has none. After
/// want of memory `out` holds what it held.
pub fn word_line(word: u32, out: &mut Vec<u8>) -> Result<(), AllocError>
    ensures ok { OnOk result (out.new.items ≡ out.old.items ++ line_of_word word) }
    ensures err { OnErr result (out.new.items ≡ out.old.items) }
{
    match decode(word) {
        Some(instr) => instr_text(instr, out),
        None => word_text(word, out),
    }
}

/// Appends the line of a word and LF.
fn add_line(word: u32, text: &mut Vec<u8>) -> Result<(), AllocError>
    ensures ok { OnOk result (text.new.items ≡ text.old.items ++ ended (line_of_word word)) }
{
    word_line(word, text)?;
    text.push(b'\n')?;
    Ok(())
}

/// Writes words as a listing, one line for each, ended by LF: the text of the word's instruction, or `.word 0x` with eight digits
/// where it has none. Such a line says all of its word: of at most 4,096 words, the lines assemble to the words again, whatever
/// number the first line has. The time is linear in the number of words.
pub fn disassemble(alloc: Global, words: &[u32]) -> Result<Vec<u8>, AllocError>
    ensures listing { IfOk result (λ text. text.items ≡ listing_of words.now) }
    ensures one_line_each { IfOk result (λ text. lines text.items ≡ lines_of_words words.now) }
    ensures assembles { IfOk result (λ text. length words.now ≤ max_code_words → (first_line : ℕ) → Assembles (lines text.items) first_line (one_per_line words.now first_line)) }
{
    let mut text = Vec::new(alloc);
    for word in words {
        add_line(*word, &mut text)?;
    }
    Ok(text)
}
