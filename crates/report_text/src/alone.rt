//! The report of tasks that ran alone.

ghost use Rattle.std.specs.Prelude.{◌≡◌, IfOk, string_bytes};
ghost use Rattle.report_text.specs.AloneReport.{task_lines, alone_report_of};

use crate::texts::{end_string, words_string};
use alone_run::Ended;
use std::alloc::{AllocError, Global};

/// The two lines of a task: how it ended after how many instructions, and its output.
#[tactic(auto, unfolding(crate::specs::AloneReport::task_lines))]
fn task_string(alloc: Global, number: usize, ended: &Ended) -> Result<String, AllocError>
    ensures text { IfOk result (λ text. string_bytes text ≡ task_lines number ended.now) }
{
    let end = end_string(alloc, ended.end)?;
    let count = ended.count;
    let output = words_string(alloc, ended.output.as_slice())?;
    format!(in alloc; "task {number}: {end} count {count}\nout {number}:{output}\n")
}

/// The report of tasks that ran alone, in the order of their numbers, which begin with 0.
///
/// For each task there is a line `task T: END count C` and a line `out T:` followed by a blank and
/// eight lower case hexadecimal digits for each word of its output. END is `exited %x`, `faulted
/// CAUSE at %x`, `bad-call %x`, `tape-end`, `out-full` or `out-of-steps`, where `%x` is eight
/// such digits. T, C and CAUSE are decimal. `AllocError` is want of memory.
pub fn alone_report(alloc: Global, ends: &[Ended]) -> Result<Vec<u8>, AllocError>
    ensures bytes { IfOk result (λ bytes. bytes.items ≡ alone_report_of ends.now) }
{
    let mut text = String::new(alloc);
    for (number, ended) in ends.iter().enumerate() {
        text.push_str(task_string(alloc, number, ended)?.as_str())?;
    }
    Ok(text.into_bytes())
}
