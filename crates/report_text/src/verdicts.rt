//! The text of a verdict on a task in the worlds of its secret, and of a fault in its place.

ghost use Rattle.std.specs.Prelude.{◌≡◌, ◌++◌, IfOk, OnOk};
ghost use Rattle.report_text.specs.VerdictText.{place_text, secrets_text, pair_text, counts_text, worlds_text, verdict_text_of, cert_fault_text_of};

use crate::append::{add, add_count, add_word};
use leak_latch::latch_text;
use probe_inspect::{CertFault, Latch, Verdict};
use std::alloc::{AllocError, Global};

/// Appends the place of a leak.
fn add_place(step: u32, latch: Latch, out: &mut Vec<u8>) -> Result<(), AllocError>
    ensures ok { OnOk result (out.new.items ≡ out.old.items ++ place_text step latch) }
{
    add_count(b"leak step ", u64::from(step), out)?;
    add(b" ", out)?;
    latch_text(latch, out)
}

/// Appends two secrets.
pub(crate) fn add_secrets(a: u32, b: u32, out: &mut Vec<u8>) -> Result<(), AllocError>
    ensures ok { OnOk result (out.new.items ≡ out.old.items ++ secrets_text a b) }
{
    add_count(b" secrets ", u64::from(a), out)?;
    add_count(b" ", u64::from(b), out)
}

/// Appends the values of a change.
fn add_pair(pair: (u32, u32), out: &mut Vec<u8>) -> Result<(), AllocError>
    ensures ok { OnOk result (out.new.items ≡ out.old.items ++ pair_text pair) }
{
    add(b" pair", out)?;
    add_word(pair.0, out)?;
    add_word(pair.1, out)
}

/// Appends how many worlds have a change.
pub(crate) fn add_counts(a: u32, b: u32, out: &mut Vec<u8>) -> Result<(), AllocError>
    ensures ok { OnOk result (out.new.items ≡ out.old.items ++ counts_text a b) }
{
    add_count(b" counts ", u64::from(a), out)?;
    add_count(b" ", u64::from(b), out)
}

/// Appends a verdict.
pub(crate) fn add_verdict(verdict: &Verdict, out: &mut Vec<u8>) -> Result<(), AllocError>
    ensures ok { OnOk result (out.new.items ≡ out.old.items ++ verdict_text_of verdict.now) }
{
    match verdict {
        Verdict::Secure { places } => {
            add_count(b"secure ", *places, out)?;
        }
        Verdict::Leak {
            step,
            latch,
            secret_a,
            secret_b,
            pair,
            count_a,
            count_b,
        } => {
            add_place(*step, *latch, out)?;
            add_secrets(*secret_a, *secret_b, out)?;
            add_pair(*pair, out)?;
            add_counts(*count_a, *count_b, out)?;
        }
    }
    add(b"\n", out)
}

/// The line of a verdict: `secure PLACES`, or `leak step N LATCH secrets A B pair %x %x counts CA CB`, where numbers are decimal, `%x` is
/// eight lower case hexadecimal digits, and a latch is as [`latch_text`](leak_latch::latch_text) writes it. `AllocError` is want of memory.
pub fn verdict_text(alloc: Global, verdict: &Verdict) -> Result<Vec<u8>, AllocError>
    ensures bytes { IfOk result (λ bytes. bytes.items ≡ verdict_text_of verdict.now) }
{
    let mut text = Vec::new(alloc);
    add_verdict(verdict, &mut text)?;
    Ok(text)
}

/// Appends two worlds that take different courses.
fn add_worlds(a: u32, b: u32, out: &mut Vec<u8>) -> Result<(), AllocError>
    ensures ok { OnOk result (out.new.items ≡ out.old.items ++ worlds_text a b) }
{
    add_count(b"control differs worlds ", u64::from(a), out)?;
    add_count(b" ", u64::from(b), out)
}

/// Appends a fault.
pub(crate) fn add_fault(fault: &CertFault, out: &mut Vec<u8>) -> Result<(), AllocError>
    ensures ok { OnOk result (out.new.items ≡ out.old.items ++ cert_fault_text_of fault.now) }
{
    match fault {
        CertFault::NoWorlds => add(b"no worlds\n", out),
        CertFault::TooMuch { product } => {
            add_count(b"too much ", *product, out)?;
            add(b"\n", out)
        }
        CertFault::Uneven { secret_a, secret_b } => {
            add_count(b"uneven ", u64::from(*secret_a), out)?;
            add_count(b" ", u64::from(*secret_b), out)?;
            add(b"\n", out)
        }
        CertFault::ControlDiffers {
            world_a,
            world_b,
            step,
        } => {
            add_worlds(*world_a, *world_b, out)?;
            add_count(b" step ", u64::from(*step), out)?;
            add(b"\n", out)
        }
        CertFault::Memory => Ok(()),
    }
}

/// The line of a fault that stands in place of a verdict: `no worlds`, `too much PRODUCT`, `uneven A B`, or
/// `control differs worlds A B step N`, where numbers are decimal; nothing for want of memory. `AllocError` is want of memory here.
pub fn cert_fault_text(alloc: Global, fault: &CertFault) -> Result<Vec<u8>, AllocError>
    ensures bytes { IfOk result (λ bytes. bytes.items ≡ cert_fault_text_of fault.now) }
{
    let mut text = Vec::new(alloc);
    add_fault(fault, &mut text)?;
    Ok(text)
}
