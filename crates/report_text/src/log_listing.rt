//! The listing of a log.

ghost use Rattle.std.specs.Prelude.{◌≡◌, ◌++◌, OnOk, IfOk};
ghost use Rattle.report_text.specs.Listing.{side_name, tag_text, why_text, entry_text, entry_line, listing_of};

use crate::append::{add, add_count, add_decimal, add_word};
use leak_latch::{Side, latch_text};
use probe_log::{Latch, Packed, Probe, Why};
use std::alloc::{AllocError, Global};

/// The name of a side.
fn side_name(side: Side) -> &'static [u8]
    ensures name { result.now ≡ side_name side }
{
    match side {
        Side::Was => b"was",
        Side::Now => b"now",
    }
}

/// Appends a task's number, a number of instructions and a latch.
fn add_tag(task: u32, step: u32, latch: Latch, out: &mut Vec<u8>) -> Result<(), AllocError>
    ensures ok { OnOk result (out.new.items ≡ out.old.items ++ tag_text task step latch) }
{
    add_decimal(u64::from(task), out)?;
    add_count(b" ", u64::from(step), out)?;
    add(b" ", out)?;
    latch_text(latch, out)
}

/// Appends what explains an entry.
fn add_why(why: &Why, out: &mut Vec<u8>) -> Result<(), AllocError>
    ensures ok { OnOk result (out.new.items ≡ out.old.items ++ why_text why.now) }
{
    match *why {
        Why::Public => add(b"public", out),
        Why::Value {
            task,
            step,
            latch,
            side,
        } => {
            add(b"value ", out)?;
            add_tag(task, step, latch, out)?;
            add(b" ", out)?;
            add(side_name(side), out)
        }
        Why::Step { task, step, latch } => {
            add(b"step ", out)?;
            add_tag(task, step, latch, out)
        }
        Why::Unexplained => add(b"unexplained", out),
    }
}

/// Appends an entry, without the end of its line.
#[tactic(auto, unfolding(crate::specs::Listing::entry_text))]
pub(crate) fn add_entry(probe: &Probe, out: &mut Vec<u8>) -> Result<(), AllocError>
    ensures ok { OnOk result (out.new.items ≡ out.old.items ++ entry_text probe.entry.now) }
{
    add_decimal(u64::from(probe.hart), out)?;
    add_word(probe.pc, out)?;
    add(b" ", out)?;
    latch_text(probe.latch, out)?;
    add_word(probe.was, out)?;
    add_word(probe.now, out)?;
    add(b" ", out)?;
    add_why(&probe.why, out)
}

/// Appends the line of an entry.
fn add_line(probe: &Probe, out: &mut Vec<u8>) -> Result<(), AllocError>
    ensures ok { OnOk result (out.new.items ≡ out.old.items ++ entry_line probe.entry.now) }
{
    add_entry(probe, out)?;
    add(b"\n", out)
}

/// The listing of a log, a line for each entry: `HART PC LATCH WAS NOW WHY`.
///
/// HART is decimal; PC, WAS and NOW are eight lower case hexadecimal digits; LATCH is the latch's name, as
/// [`latch_text`](leak_latch::latch_text) writes it. WHY is `public`, `value TASK STEP LATCH was` or `value TASK STEP LATCH now`,
/// `step TASK STEP LATCH`, or `unexplained`, with decimal numbers. `AllocError` is want of memory.
pub fn listing(alloc: Global, log: &Packed) -> Result<Vec<u8>, AllocError>
    ensures bytes { IfOk result (λ bytes. bytes.items ≡ listing_of log.now.entries) }
{
    let mut text = Vec::new(alloc);
    let mut reader = log.from_start();
    for _ in 0..log.len() {
        if let Some(probe) = reader.next() {
            add_line(&probe, &mut text)?;
        }
    }
    Ok(text)
}
