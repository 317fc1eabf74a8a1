//! The report of a run on many harts.

ghost use Rattle.std.specs.Prelude.{◌≡◌, ◌≢◌, ◌++◌, OnOk, IfOk};
ghost use Rattle.std.specs.List.{AllByRecursion};
ghost use Rattle.core_model.specs.declared.home.Home.TheVariants.{Ended};
ghost use Rattle.report_text.specs.Texts.{end_text};
ghost use Rattle.report_text.specs.AloneReport.{output_words, out_line};
ghost use Rattle.report_text.specs.Report.{EndsAtHome, place_text, state_text, state_lines, states_from, probes_line, latches_line, order_line_of, report_of};

use crate::append::{add, add_count, add_word};
use crate::texts::end_string;
use alone_run::End;
use core_model::Home;
use kernel_core::{Snapshot, TaskState};
use probe_log::Tally;
use std::alloc::{AllocError, Global};
use timer_plan::order_text;

/// Appends how a task ended.
fn add_end(end: End, out: &mut Vec<u8>) -> Result<(), AllocError>
    ensures ok { OnOk result (out.new.items ≡ out.old.items ++ end_text end) }
{
    let text = end_string(*out.allocator(), end)?;
    add(text.as_bytes(), out)
}

/// Appends where a task is that hasn't ended.
fn add_place(home: Home, out: &mut Vec<u8>) -> Result<(), AllocError>
    requires live { home ≢ Ended }
    ensures ok { OnOk result (out.new.items ≡ out.old.items ++ place_text home) }
{
    match home {
        Home::Waiting => add(b"waiting", out),
        Home::Slot(slot) => add_count(b"slot ", u64::from(slot), out),
        Home::Hart { hart, slot } => {
            add_count(b"hart ", u64::from(hart), out)?;
            add_count(b" slot ", u64::from(slot), out)
        }
        Home::Ended => unreachable!(),
    }
}

/// Appends how a task ended, or where it is.
fn add_state(state: &TaskState, out: &mut Vec<u8>) -> Result<(), AllocError>
    requires ends { EndsAtHome state.now }
    ensures ok { OnOk result (out.new.items ≡ out.old.items ++ state_text state.now.end state.now.home) }
{
    match state.end {
        Some(end) => add_end(end, out),
        None => add_place(state.home, out),
    }
}

/// Appends words, each after a blank.
fn add_words(words: &[u32], out: &mut Vec<u8>) -> Result<(), AllocError>
    ensures ok { OnOk result (out.new.items ≡ out.old.items ++ output_words words.now) }
{
    for word in words {
        add_word(*word, out)?;
    }
    Ok(())
}

/// Appends the line of a task's output.
fn add_output(number: usize, output: &[u32], out: &mut Vec<u8>) -> Result<(), AllocError>
    ensures ok { OnOk result (out.new.items ≡ out.old.items ++ out_line number output.now) }
{
    add_count(b"out ", number as u64, out)?;
    add(b":", out)?;
    add_words(output, out)?;
    add(b"\n", out)
}

/// Appends the two lines of a task.
#[tactic(auto, unfolding(crate::specs::Report::state_lines))]
fn add_task(number: usize, state: &TaskState, out: &mut Vec<u8>) -> Result<(), AllocError>
    requires ends { EndsAtHome state.now }
    ensures ok { OnOk result (out.new.items ≡ out.old.items ++ state_lines number state.now) }
{
    add_count(b"task ", number as u64, out)?;
    add(b": ", out)?;
    add_state(state, out)?;
    add_count(b" count ", u64::from(state.count), out)?;
    add(b"\n", out)?;
    add_output(number, state.output.as_slice(), out)
}

/// Appends the lines of tasks, numbered from 0.
fn add_tasks(states: &[TaskState], out: &mut Vec<u8>) -> Result<(), AllocError>
    requires ends { AllByRecursion EndsAtHome states.now }
    ensures ok { OnOk result (out.new.items ≡ out.old.items ++ states_from 0 states.now) }
{
    for (number, state) in states.iter().enumerate() {
        add_task(number, state, out)?;
    }
    Ok(())
}

/// Appends the line of the counts by whys.
#[tactic(auto, unfolding(crate::specs::Report::probes_line))]
fn add_probes(tally: &Tally, out: &mut Vec<u8>) -> Result<(), AllocError>
    ensures ok { OnOk result (out.new.items ≡ out.old.items ++ probes_line tally.now) }
{
    add_count(b"probes ", tally.total(), out)?;
    add_count(b" public ", tally.public(), out)?;
    add_count(b" value ", tally.value(), out)?;
    add_count(b" step ", tally.step(), out)?;
    add_count(b" unexplained ", tally.unexplained(), out)?;
    add(b"\n", out)
}

/// Appends the line of the counts by kinds of latches.
#[tactic(auto, unfolding(crate::specs::Report::latches_line))]
fn add_latches(latches: &[u64; 8], out: &mut Vec<u8>) -> Result<(), AllocError>
    ensures ok { OnOk result (out.new.items ≡ out.old.items ++ latches_line latches.now) }
{
    add_count(b"latches reg ", latches[0], out)?;
    add_count(b" portA ", latches[1], out)?;
    add_count(b" portB ", latches[2], out)?;
    add_count(b" res ", latches[3], out)?;
    add_count(b" load ", latches[4], out)?;
    add_count(b" store ", latches[5], out)?;
    add_count(b" scr ", latches[6], out)?;
    add_count(b" mem ", latches[7], out)?;
    add(b"\n", out)
}

/// Appends the line of an order.
fn add_order(order: &[u8], out: &mut Vec<u8>) -> Result<(), AllocError>
    ensures ok { OnOk result (out.new.items ≡ out.old.items ++ order_line_of order.now) }
{
    add(b"order", out)?;
    order_text(order, out)?;
    add(b"\n", out)
}

/// The line of an order: `order`, and each maximal run of a hart after a blank, `h` where it is of one action and `h*n` where it is of
/// n. Numbers are decimal. `AllocError` is want of memory.
pub fn order_line(alloc: Global, order: &[u8]) -> Result<Vec<u8>, AllocError>
    ensures bytes { IfOk result (λ bytes. bytes.items ≡ order_line_of order.now) }
{
    let mut line = Vec::new(alloc);
    add_order(order, &mut line)?;
    Ok(line)
}

/// The report of a core.
///
/// Its lines are `harts H`; the [`order_line`]; for each task, in the order of their numbers, which begin with 0, `task T: STATE
/// count C` and `out T:` followed by a blank and eight lower case hexadecimal digits for each word of its output so far; `probes N
/// public N value N step N unexplained N`; and `latches reg N portA N portB N res N load N store N scr N mem N`. STATE is how the task
/// ended, as [`alone_report`](crate::alone_report) writes it, else where it is: `waiting`, `slot S` or `hart H slot S`. Numbers are
/// decimal. `AllocError` is want of memory.
pub fn report(alloc: Global, s: &Snapshot) -> Result<Vec<u8>, AllocError>
    requires ends { AllByRecursion EndsAtHome s.now.tasks }
    ensures bytes { IfOk result (λ bytes. bytes.items ≡ report_of s.now) }
{
    let mut text = Vec::new(alloc);
    add_count(b"harts ", u64::from(s.harts), &mut text)?;
    add(b"\n", &mut text)?;
    add_order(s.order.as_slice(), &mut text)?;
    add_tasks(s.tasks.as_slice(), &mut text)?;
    add_probes(&s.tally, &mut text)?;
    add_latches(&s.tally.latches(), &mut text)?;
    Ok(text)
}
