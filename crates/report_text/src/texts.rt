//! The texts of numbers and of ends.

ghost use Rattle.std.specs.Prelude.{◌≡◌, IfOk, string_bytes};
ghost use Rattle.report_text.specs.Texts.{hex_word, end_text};
ghost use Rattle.report_text.specs.AloneReport.{output_words};

use alone_run::End;
use std::alloc::{AllocError, Global};

/// A word as eight lower case hexadecimal digits.
fn hex_string(alloc: Global, word: u32) -> Result<String, AllocError>
    ensures text { IfOk result (λ text. string_bytes text ≡ hex_word word) }
{
    hex::encode(alloc, word.to_be_bytes().as_slice())
}

/// How a task ended.
pub(crate) fn end_string(alloc: Global, end: End) -> Result<String, AllocError>
    ensures text { IfOk result (λ text. string_bytes text ≡ end_text end) }
{
    match end {
        End::Exited(code) => {
            let code = hex_string(alloc, code)?;
            format!(in alloc; "exited {code}")
        }
        End::Faulted { cause, pc } => {
            let pc = hex_string(alloc, pc)?;
            format!(in alloc; "faulted {cause} at {pc}")
        }
        End::BadCall(number) => {
            let number = hex_string(alloc, number)?;
            format!(in alloc; "bad-call {number}")
        }
        End::TapeEnd => String::from_str(alloc, "tape-end"),
        End::OutFull => String::from_str(alloc, "out-full"),
        End::OutOfSteps => String::from_str(alloc, "out-of-steps"),
    }
}

/// Words of 32 bits, each after a blank.
pub(crate) fn words_string(alloc: Global, words: &[u32]) -> Result<String, AllocError>
    ensures text { IfOk result (λ text. string_bytes text ≡ output_words words.now) }
{
    let mut text = String::new(alloc);
    for word in words {
        text.push(' ')?;
        text.push_str(hex_string(alloc, *word)?.as_str())?;
    }
    Ok(text)
}
