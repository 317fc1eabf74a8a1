//! The words of a bundle's tasks.

ghost use Rattle.std.specs.Prelude.{◌≡◌, ◌+◌, ◌<◌, ◌≤◌, ◌^◌, length, Ok, IfOk, IfErr};
ghost use Rattle.std.specs.List.{AllByRecursion};
ghost use Rattle.bundle_text.specs.Range.{IsCodeInRange, IsTaskInRange};
ghost use Rattle.isa_model.specs.Limits.{max_code_words};
ghost use Rattle.rv_asm.specs.Listing.{texts};
ghost use Rattle.rv_loader.specs.Coding.{words_of, coded_task, coded_tasks};
ghost use Rattle.rv_loader.specs.Memory.{IsRefusalOf};

use crate::fault::LoadFault;
use bundle_text::{Code, Line, TaskText};
use isa_model::Words;
use rv_asm::{Assembled, assemble};
use std::alloc::{AllocError, Global};

/// A task whose code is words, and which has no place yet. Its numbers are those of `TaskText`.
#[derive(Drop)]
pub(crate) struct CodedTask {
    /// The words of its code.
    pub(crate) code: Words,
    /// How many data words it has.
    pub(crate) data_len: u32,
    /// How many instructions it executes at most.
    pub(crate) fuel: u32,
    /// How many words its output has at most.
    pub(crate) out_max: u32,
    /// The words that it may take as its input.
    pub(crate) tape: Words,
}

/// Lines in memory of their own, as the assembler takes them.
fn copied(alloc: Global, lines: &[Line]) -> Result<Vec<Vec<u8>>, AllocError>
    ensures same { IfOk result (λ copies. texts copies.items ≡ lines.now) }
{
    let mut copies = Vec::new(alloc);
    for line in lines {
        copies.push(Vec::from_slice(alloc, line.as_slice())?)?;
    }
    Ok(copies)
}

/// The words that lines of code assemble to, at most 4,096; the first line has this number. Errors: `Asm` with the first line that is refused, and
/// `Memory`.
pub fn code_words(alloc: Global, lines: &[Line], first_line: u32) -> Result<Words, LoadFault>
    requires numbers { first_line + length lines.now < 2 ^ 32 }
    ensures words { IfOk result (λ words. words_of (Code.Text first_line lines.now) ≡ Ok words) }
    ensures few { IfOk result (λ words. length words ≤ max_code_words) }
    ensures refused { IfErr result (IsRefusalOf (words_of (Code.Text first_line lines.now))) }
{
    let copies = copied(alloc, lines)?;
    let Assembled { words, lines: _ } = assemble(alloc, copies.as_slice(), first_line)?;
    Ok(words)
}

/// The words of code.
fn words_of(alloc: Global, code: &Code) -> Result<Words, LoadFault>
    requires range { IsCodeInRange code.now }
    ensures words { IfOk result (λ words. words_of code.now ≡ Ok words) }
    ensures refused { IfErr result (IsRefusalOf (words_of code.now)) }
{
    match code {
        Code::Words(words) => Ok(words.copy(alloc)?),
        Code::Text { first_line, lines } => code_words(alloc, lines.as_slice(), *first_line),
    }
}

/// A task with these words.
fn coded_task(alloc: Global, text: &TaskText, code: Words) -> Result<CodedTask, AllocError>
    ensures task { IfOk result (λ task. task ≡ coded_task text.now code) }
{
    Ok(CodedTask {
        code,
        data_len: text.data_len,
        fuel: text.fuel,
        out_max: text.out_max,
        tape: text.tape.copy(alloc)?,
    })
}

/// The tasks with the words of their code, in their order.
pub(crate) fn coded_tasks(alloc: Global, texts: &[TaskText]) -> Result<Vec<CodedTask>, LoadFault>
    requires range { AllByRecursion IsTaskInRange texts.now }
    ensures tasks { IfOk result (λ tasks. coded_tasks texts.now ≡ Ok tasks.items) }
    ensures refused { IfErr result (IsRefusalOf (coded_tasks texts.now)) }
{
    let mut tasks = Vec::new(alloc);
    for text in texts {
        let code = words_of(alloc, &text.code)?;
        tasks.push(coded_task(alloc, text, code)?)?;
    }
    Ok(tasks)
}
