//! The listing of the code of tasks.

ghost use Rattle.std.specs.Prelude.{◌≡◌, ◌+◌, ◌*◌, ◌≤◌, ◌<◌, ◌^◌, ◌++◌, length, OnOk, IfOk};
ghost use Rattle.std.specs.List.{AllByRecursion};
ghost use Rattle.isa_model.specs.TaskPlaces.{IsValidTask};
ghost use Rattle.report_text.specs.AsmListing.{word_line, word_lines, code_lines, asm_text_of};

use alone_run::Task;
use rv_asm::word_line;
use std::alloc::{AllocError, Global};

/// Appends the line of the word at an address.
#[tactic(auto, unfolding(crate::specs::AsmListing::word_line))]
fn add_line(at: u32, word: u32, out: &mut Vec<u8>) -> Result<(), AllocError>
    ensures ok { OnOk result (out.new.items ≡ out.old.items ++ word_line at word) }
{
    let alloc = *out.allocator();
    let address = hex::encode(alloc, at.to_be_bytes().as_slice())?;
    let bytes = hex::encode(alloc, word.to_le_bytes().as_slice())?;
    out.extend_from_slice(address.as_bytes())?;
    out.extend_from_slice(b" ")?;
    out.extend_from_slice(bytes.as_bytes())?;
    out.extend_from_slice(b" ")?;
    word_line(word, out)?;
    out.extend_from_slice(b"\n")
}

/// Appends the lines of words that stand from an address on.
fn add_words(at: u32, words: &[u32], out: &mut Vec<u8>) -> Result<(), AllocError>
    requires places { at + 4 * length words.now ≤ 2 ^ 32 }
    ensures ok { OnOk result (out.new.items ≡ out.old.items ++ word_lines at words.now) }
{
    for (index, word) in words.iter().enumerate() {
        add_line(at + 4 * index as u32, *word, out)?;
    }
    Ok(())
}

/// Appends the lines of a task.
fn add_task(number: usize, task: &Task, out: &mut Vec<u8>) -> Result<(), AllocError>
    requires valid { IsValidTask task.now }
    ensures ok { OnOk result (out.new.items ≡ out.old.items ++ code_lines number task.now) }
{
    let head = format!(in *out.allocator(); "task {number}\n")?;
    out.extend_from_slice(head.as_bytes())?;
    add_words(task.code_at, task.code.as_slice(), out)
}

/// The listing of the code of tasks, in the order of their numbers, which begin with 0.
///
/// For each task there is a line `task T`, and then a line for each word of its code: its address as eight lower case
/// hexadecimal digits, a blank, its four bytes as they lie in memory, two such digits each, a blank, and its text as an
/// instruction, or `.word 0x` with eight digits where it is none. `AllocError` is want of memory.
pub fn asm_text(alloc: Global, tasks: &[Task]) -> Result<Vec<u8>, AllocError>
    requires valid { AllByRecursion IsValidTask tasks.now }
    ensures bytes { IfOk result (λ bytes. bytes.items ≡ asm_text_of tasks.now) }
{
    let mut text = Vec::new(alloc);
    for (number, task) in tasks.iter().enumerate() {
        add_task(number, task, &mut text)?;
    }
    Ok(text)
}
