//! The text of a verdict by two probes at once on a task in the worlds of its secret, and of a fault in its place.

ghost use Rattle.std.specs.Prelude.{◌≡◌, ◌++◌, IfOk, OnOk};
ghost use Rattle.report_text.specs.VerdictTwoText.{steps_text, latches_text, values_text, verdict_two_text_of, two_fault_text_of};

use crate::append::{add, add_count, add_word};
use crate::verdicts::{add_counts, add_fault, add_secrets, add_verdict};
use leak_latch::latch_text;
use probe_inspect::Latch;
use probing_laws::{TwoFault, VerdictTwo};
use std::alloc::{AllocError, Global};

/// Appends the steps of a leak.
fn add_steps(steps: (u32, u32), out: &mut Vec<u8>) -> Result<(), AllocError>
    ensures ok { OnOk result (out.new.items ≡ out.old.items ++ steps_text steps) }
{
    add_count(b"leak2 steps ", u64::from(steps.0), out)?;
    add_count(b" ", u64::from(steps.1), out)
}

/// Appends the latches of a leak.
fn add_latches(latches: (Latch, Latch), out: &mut Vec<u8>) -> Result<(), AllocError>
    ensures ok { OnOk result (out.new.items ≡ out.old.items ++ latches_text latches) }
{
    add(b" latches ", out)?;
    latch_text(latches.0, out)?;
    add(b" ", out)?;
    latch_text(latches.1, out)
}

/// Appends the values of two changes.
fn add_values(values: (u32, u32, u32, u32), out: &mut Vec<u8>) -> Result<(), AllocError>
    ensures ok { OnOk result (out.new.items ≡ out.old.items ++ values_text values) }
{
    add(b" values", out)?;
    add_word(values.0, out)?;
    add_word(values.1, out)?;
    add_word(values.2, out)?;
    add_word(values.3, out)
}

/// Appends a verdict.
fn add_verdict_two(verdict: &VerdictTwo, out: &mut Vec<u8>) -> Result<(), AllocError>
    ensures ok { OnOk result (out.new.items ≡ out.old.items ++ verdict_two_text_of verdict.now) }
{
    match verdict {
        VerdictTwo::One(verdict) => add_verdict(verdict, out),
        VerdictTwo::Secure { places } => {
            add_count(b"secure2 ", *places, out)?;
            add(b"\n", out)
        }
        VerdictTwo::Leak {
            steps,
            latches,
            secret_a,
            secret_b,
            values,
            count_a,
            count_b,
        } => {
            add_steps(*steps, out)?;
            add_latches(*latches, out)?;
            add_secrets(*secret_a, *secret_b, out)?;
            add_values(*values, out)?;
            add_counts(*count_a, *count_b, out)?;
            add(b"\n", out)
        }
    }
}

/// The line of a verdict by two probes: that of the verdict by one where this is a leak; `secure2 PLACES`; or
/// `leak2 steps N M latches L K secrets A B values %x %x %x %x counts CA CB`, with numbers, `%x` and latches as in
/// [`verdict_text`](crate::verdict_text). `AllocError` is want of memory.
pub fn verdict_two_text(alloc: Global, verdict: &VerdictTwo) -> Result<Vec<u8>, AllocError>
    ensures bytes { IfOk result (λ bytes. bytes.items ≡ verdict_two_text_of verdict.now) }
{
    let mut text = Vec::new(alloc);
    add_verdict_two(verdict, &mut text)?;
    Ok(text)
}

/// Appends a fault.
fn add_two_fault(fault: &TwoFault, out: &mut Vec<u8>) -> Result<(), AllocError>
    ensures ok { OnOk result (out.new.items ≡ out.old.items ++ two_fault_text_of fault.now) }
{
    match fault {
        TwoFault::Cert(fault) => add_fault(fault, out),
        TwoFault::TooMany { product } => {
            add_count(b"too many ", *product, out)?;
            add(b"\n", out)
        }
        TwoFault::Memory => Ok(()),
    }
}

/// The line of a fault that stands in place of a verdict by two probes: that of the fault by one, or `too many PRODUCT`, where the number
/// is decimal; nothing for want of memory. `AllocError` is want of memory here.
pub fn two_fault_text(alloc: Global, fault: &TwoFault) -> Result<Vec<u8>, AllocError>
    ensures bytes { IfOk result (λ bytes. bytes.items ≡ two_fault_text_of fault.now) }
{
    let mut text = Vec::new(alloc);
    add_two_fault(fault, &mut text)?;
    Ok(text)
}
