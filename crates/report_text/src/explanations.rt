//! The entries of a log that show what a task computes, beside the values of its undisturbed run.

ghost use Rattle.std.specs.Prelude.{◌≡◌, ◌++◌, OnOk, IfOk};
ghost use Rattle.std.specs.List.{AllByRecursion};
ghost use Rattle.isa_model.specs.TaskPlaces.{IsValidTask};
ghost use Rattle.report_text.specs.Explanations.{shown_text, explanation_of, explain_text_of};

use crate::append::{add, add_word};
use crate::log_listing::add_entry;
use alone_run::Task;
use probe_inspect::{Shown, Walk};
use probe_log::{Packed, Probe, Why};
use std::alloc::{AllocError, Global};

/// Appends what the undisturbed run shows.
fn add_shown(shown: Shown, out: &mut Vec<u8>) -> Result<(), AllocError>
    ensures ok { OnOk result (out.new.items ≡ out.old.items ++ shown_text shown) }
{
    match shown {
        Shown::Nothing => Ok(()),
        Shown::Value(value) => {
            add(b" alone", out)?;
            add_word(value, out)
        }
        Shown::Pair(was, now) => {
            add(b" alone", out)?;
            add_word(was, out)?;
            add_word(now, out)
        }
    }
}

/// Appends the line of an entry that isn't public.
#[tactic(auto, unfolding(crate::specs::Explanations::explanation_of))]
fn add_explanation(
    tasks: &[Task],
    walk: &mut Walk,
    probe: &Probe,
    out: &mut Vec<u8>,
) -> Result<(), AllocError>
    requires tasks { walk.old ≡ tasks.now }
    ensures tasks { walk.new ≡ tasks.now }
    ensures ok { OnOk result (out.new.items ≡ out.old.items ++ explanation_of tasks.now probe.entry.now) }
{
    if probe.why == Why::Public {
        return Ok(());
    }
    let shown = walk.explain(*out.allocator(), tasks, probe)?;
    add_entry(probe, out)?;
    add_shown(shown, out)?;
    add(b"\n", out)
}

/// The entries of a log that aren't public, a line for each, with what their whys name in the undisturbed runs of the tasks.
///
/// A line is that of the [`listing`](crate::listing), with ` alone %x` at its end for a value and ` alone %x %x` for a step, where
/// `%x` is eight lower case hexadecimal digits: the value of the latch that the why names after so many instructions, or its values
/// before and after that instruction. Nothing more follows where the entry is unexplained, or there is no task of its number.
/// Each task is run once, and again in parts of fewer than 256 instructions. `AllocError` is want of memory.
pub fn explain_text(alloc: Global, tasks: &[Task], log: &Packed) -> Result<Vec<u8>, AllocError>
    requires valid { AllByRecursion IsValidTask tasks.now }
    ensures bytes { IfOk result (λ bytes. bytes.items ≡ explain_text_of tasks.now log.now.entries) }
{
    let mut walk = Walk::new(alloc, tasks)?;
    let mut text = Vec::new(alloc);
    let mut reader = log.from_start();
    for _ in 0..log.len() {
        if let Some(probe) = reader.next() {
            add_explanation(tasks, &mut walk, &probe, &mut text)?;
        }
    }
    Ok(text)
}
