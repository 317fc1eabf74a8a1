//! Writing a bundle.

ghost use Rattle.std.specs.Prelude.{◌≡◌, ◌<◌, ◌++◌, map, codes, decimal, OnOk, IfOk};
ghost use Rattle.std.specs.List.{flat_map};
ghost use Rattle.bundle_text.specs.Form.{digit_char};
ghost use Rattle.bundle_text.specs.Range.{IsWritable};
ghost use Rattle.bundle_text.specs.Text.{word_text, after_blanks, list_text, quanta_text, plan_text, code_text, band_text, task_head_text, task_text, has_bands, world_text, times_text, event_text, event_run_text, order_run_text, head_text, text_of, ReadsBack};

use crate::bundle::{Bundle, Code, Line, PlanText, TaskText, World};
use core_model::{Event, EventRun, OrderRun};
use itoa::Buffer;
use std::alloc::{AllocError, Global};

/// The hexadecimal digits.
const DIGITS: [u8; 16] = *b"0123456789abcdef";

/// Appends bytes.
fn add(bytes: &[u8], out: &mut Vec<u8>) -> Result<(), AllocError>
    ensures ok { OnOk result (out.new.items ≡ out.old.items ++ bytes.now) }
{
    out.extend_from_slice(bytes)
}

/// Appends a decimal number.
fn add_decimal(number: u32, out: &mut Vec<u8>) -> Result<(), AllocError>
    ensures ok { OnOk result (out.new.items ≡ out.old.items ++ decimal number) }
{
    add(Buffer::new().format(number).as_bytes(), out)
}

/// The character of a hexadecimal digit.
fn digit_char(digit: u32) -> u8
    requires digit { digit < 16 }
    ensures value { result ≡ digit_char digit }
{
    DIGITS[digit as usize]
}

/// The eight hexadecimal digits of a word.
fn word_digits(word: u32) -> [u8; 8]
    ensures text { result ≡ word_text word }
{
    [
        digit_char(word / 0x1000_0000 % 16),
        digit_char(word / 0x100_0000 % 16),
        digit_char(word / 0x10_0000 % 16),
        digit_char(word / 0x1_0000 % 16),
        digit_char(word / 0x1000 % 16),
        digit_char(word / 0x100 % 16),
        digit_char(word / 0x10 % 16),
        digit_char(word % 16),
    ]
}

/// Appends words, each after a blank.
fn add_words(words: &[u32], out: &mut Vec<u8>) -> Result<(), AllocError>
    ensures ok { OnOk result (out.new.items ≡ out.old.items ++ after_blanks (map word_text words.now)) }
{
    for word in words {
        add(b" ", out)?;
        add(&word_digits(*word), out)?;
    }
    Ok(())
}

/// Appends a line of words, or nothing where there are none.
fn add_list(name: &[u8], words: &[u32], out: &mut Vec<u8>) -> Result<(), AllocError>
    ensures ok { OnOk result (out.new.items ≡ out.old.items ++ list_text name.now (map word_text words.now)) }
{
    if words.is_empty() {
        return Ok(());
    }
    add(name, out)?;
    add_words(words, out)?;
    add(b"\n", out)
}

/// Whether a task is of another band than 0.
fn has_bands(tasks: &[TaskText]) -> bool
    ensures value { result ≡ has_bands tasks.now }
{
    tasks.iter().any(|task| task.band != 0)
}

/// Appends the first two lines.
fn add_head(has_bands: bool, slots: u32, out: &mut Vec<u8>) -> Result<(), AllocError>
    ensures ok { OnOk result (out.new.items ≡ out.old.items ++ head_text has_bands slots) }
{
    if has_bands {
        add(b"bundle 2\nslots ", out)?;
    } else {
        add(b"bundle 1\nslots ", out)?;
    }
    add_decimal(slots, out)?;
    add(b"\n", out)
}

/// Appends numbers, each after a blank.
fn add_numbers(numbers: &[u16], out: &mut Vec<u8>) -> Result<(), AllocError>
    ensures ok { OnOk result (out.new.items ≡ out.old.items ++ after_blanks (map decimal numbers.now)) }
{
    for number in numbers {
        add(b" ", out)?;
        add_decimal(u32::from(*number), out)?;
    }
    Ok(())
}

/// Appends the quanta of a plan after a blank and their word, or nothing where there are none.
fn add_quanta(quanta: &[u16], out: &mut Vec<u8>) -> Result<(), AllocError>
    ensures ok { OnOk result (out.new.items ≡ out.old.items ++ after_blanks (quanta_text quanta.now)) }
{
    if quanta.is_empty() {
        return Ok(());
    }
    add(b" quanta", out)?;
    add_numbers(quanta, out)
}

/// Appends the line of a plan.
fn add_plan(plan: &PlanText, out: &mut Vec<u8>) -> Result<(), AllocError>
    ensures ok { OnOk result (out.new.items ≡ out.old.items ++ plan_text plan.now) }
{
    add(b"plan ", out)?;
    add_decimal(plan.hart, out)?;
    add(b" tail ", out)?;
    add_decimal(u32::from(plan.plan.tail), out)?;
    add_quanta(plan.plan.quanta.as_slice(), out)?;
    add(b"\n", out)
}

/// Appends the lines of plans.
fn add_plans(plans: &[PlanText], out: &mut Vec<u8>) -> Result<(), AllocError>
    ensures ok { OnOk result (out.new.items ≡ out.old.items ++ flat_map plan_text plans.now) }
{
    for plan in plans {
        add_plan(plan, out)?;
    }
    Ok(())
}

/// Appends lines of code.
fn add_code_lines(lines: &[Line], out: &mut Vec<u8>) -> Result<(), AllocError>
    ensures ok { OnOk result (out.new.items ≡ out.old.items ++ flat_map (λ line. line ++ codes "\n") lines.now) }
{
    for line in lines {
        add(line.as_slice(), out)?;
        add(b"\n", out)?;
    }
    Ok(())
}

/// Appends the code of a task.
fn add_code(code: &Code, out: &mut Vec<u8>) -> Result<(), AllocError>
    ensures ok { OnOk result (out.new.items ≡ out.old.items ++ code_text code.now) }
{
    match code {
        Code::Words(words) => add_list(b"words", words.as_slice(), out),
        Code::Text { lines, .. } => {
            add(b"code\n", out)?;
            add_code_lines(lines.as_slice(), out)?;
            add(b"endcode\n", out)
        }
    }
}

/// Appends the band of a task, in a text with bands.
fn add_band(has_bands: bool, band: u32, out: &mut Vec<u8>) -> Result<(), AllocError>
    ensures ok { OnOk result (out.new.items ≡ out.old.items ++ after_blanks (band_text has_bands band)) }
{
    if has_bands {
        add(b" band ", out)?;
        add_decimal(band, out)
    } else {
        Ok(())
    }
}

/// Appends the first line of a task.
fn add_task_head(has_bands: bool, task: &TaskText, out: &mut Vec<u8>) -> Result<(), AllocError>
    ensures ok { OnOk result (out.new.items ≡ out.old.items ++ task_head_text has_bands task.now) }
{
    add(b"task fuel ", out)?;
    add_decimal(task.fuel, out)?;
    add(b" out ", out)?;
    add_decimal(task.out_max, out)?;
    add(b" data ", out)?;
    add_decimal(task.data_len, out)?;
    add_band(has_bands, task.band, out)?;
    add(b"\n", out)
}

/// Appends the lines of a task.
fn add_task(has_bands: bool, task: &TaskText, out: &mut Vec<u8>) -> Result<(), AllocError>
    ensures ok { OnOk result (out.new.items ≡ out.old.items ++ task_text has_bands task.now) }
{
    add_task_head(has_bands, task, out)?;
    add_list(b"tape", task.tape.as_slice(), out)?;
    add_code(&task.code, out)?;
    add(b"endtask\n", out)
}

/// Appends the lines of tasks.
fn add_tasks(has_bands: bool, tasks: &[TaskText], out: &mut Vec<u8>) -> Result<(), AllocError>
    ensures ok { OnOk result (out.new.items ≡ out.old.items ++ flat_map (task_text has_bands) tasks.now) }
{
    for task in tasks {
        add_task(has_bands, task, out)?;
    }
    Ok(())
}

/// Appends the line of a world.
fn add_world(world: &World, out: &mut Vec<u8>) -> Result<(), AllocError>
    ensures ok { OnOk result (out.new.items ≡ out.old.items ++ world_text world.now) }
{
    add(b"world ", out)?;
    add_decimal(world.secret, out)?;
    add_words(world.tape.as_slice(), out)?;
    add(b"\n", out)
}

/// Appends the lines of worlds.
fn add_worlds(worlds: &[World], out: &mut Vec<u8>) -> Result<(), AllocError>
    ensures ok { OnOk result (out.new.items ≡ out.old.items ++ flat_map world_text worlds.now) }
{
    for world in worlds {
        add_world(world, out)?;
    }
    Ok(())
}

/// Appends how often a run comes, or nothing for once.
fn add_times(times: u32, out: &mut Vec<u8>) -> Result<(), AllocError>
    ensures ok { OnOk result (out.new.items ≡ out.old.items ++ times_text times) }
{
    if times == 1 {
        return Ok(());
    }
    add(b"*", out)?;
    add_decimal(times, out)
}

/// Appends an event.
fn add_event(event: Event, out: &mut Vec<u8>) -> Result<(), AllocError>
    ensures ok { OnOk result (out.new.items ≡ out.old.items ++ event_text event) }
{
    match event {
        Event::Go(hart) => {
            add(b"g", out)?;
            add_decimal(hart, out)
        }
        Event::Tick(hart) => {
            add(b"t", out)?;
            add_decimal(hart, out)
        }
    }
}

/// Appends runs of events, each after a blank.
fn add_event_runs(runs: &[EventRun], out: &mut Vec<u8>) -> Result<(), AllocError>
    ensures ok { OnOk result (out.new.items ≡ out.old.items ++ after_blanks (map event_run_text runs.now)) }
{
    for run in runs {
        add(b" ", out)?;
        add_event(run.event, out)?;
        add_times(run.times, out)?;
    }
    Ok(())
}

/// Appends the line of the events, or nothing where there are none.
fn add_events(runs: &[EventRun], out: &mut Vec<u8>) -> Result<(), AllocError>
    ensures ok { OnOk result (out.new.items ≡ out.old.items ++ list_text (codes "events") (map event_run_text runs.now)) }
{
    if runs.is_empty() {
        return Ok(());
    }
    add(b"events", out)?;
    add_event_runs(runs, out)?;
    add(b"\n", out)
}

/// Appends runs of an order, each after a blank.
fn add_order_runs(runs: &[OrderRun], out: &mut Vec<u8>) -> Result<(), AllocError>
    ensures ok { OnOk result (out.new.items ≡ out.old.items ++ after_blanks (map order_run_text runs.now)) }
{
    for run in runs {
        add(b" ", out)?;
        add_decimal(run.hart, out)?;
        add_times(run.times, out)?;
    }
    Ok(())
}

/// Appends the line of the order, or nothing where there is none.
fn add_order(runs: &[OrderRun], out: &mut Vec<u8>) -> Result<(), AllocError>
    ensures ok { OnOk result (out.new.items ≡ out.old.items ++ list_text (codes "order") (map order_run_text runs.now)) }
{
    if runs.is_empty() {
        return Ok(());
    }
    add(b"order", out)?;
    add_order_runs(runs, out)?;
    add(b"\n", out)
}

/// Writes a bundle that is in range and whose lines of code are text without CR and LF of which none ends the code. The lines have the
/// order of the form and end in LF, and their tokens have one blank between each two. Words have eight lower case digits. The tape and
/// the words of a task, the events and the order have one line each, and an empty list has none. `AllocError` is want of memory.
///
/// It takes time linear in the length of the text.
pub fn write_bundle(alloc: Global, bundle: &Bundle) -> Result<Vec<u8>, AllocError>
    requires writable { IsWritable bundle.now }
    ensures text { IfOk result (λ text. text.items ≡ text_of bundle.now) }

    // Reading it gives the same bundle, but for the numbers of the lines at which code begins.
    ensures reads_back { IfOk result (λ text. ReadsBack text.items bundle.now) }
{
    let mut out = Vec::new(alloc);
    let has_bands = has_bands(bundle.tasks.as_slice());
    add_head(has_bands, bundle.slots, &mut out)?;
    add_plans(bundle.plans.as_slice(), &mut out)?;
    add_tasks(has_bands, bundle.tasks.as_slice(), &mut out)?;
    add_worlds(bundle.worlds.as_slice(), &mut out)?;
    add_events(bundle.events.as_slice(), &mut out)?;
    add_order(bundle.order.as_slice(), &mut out)?;
    Ok(out)
}
