//! The lines that refuse an input.

ghost use Rattle.std.specs.Prelude.{◌≡◌, IfOk, string_bytes};
ghost use Rattle.kernel_cli.specs.Refusals.{bundle_kind_text, bundle_refusal, asm_kind_text, asm_refusal, what_text, load_refusal, order_refusal};

use asm_line::AsmKind;
use bundle_text::{BundleFault, BundleKind};
use rv_asm::AsmFault;
use rv_loader::{LoadFault, What};
use std::alloc::{AllocError, Global};

/// Why a line isn't of the form of a bundle.
fn bundle_kind_text(kind: BundleKind) -> &'static str
    ensures text { result.now ≡ bundle_kind_text kind }
{
    match kind {
        BundleKind::NotText => "not text",
        BundleKind::UnknownWord => "unknown word",
        BundleKind::Misplaced => "misplaced",
        BundleKind::Operands => "operands",
        BundleKind::BadNumber => "bad number",
        BundleKind::OutOfRange => "out of range",
        BundleKind::Repeated => "repeated",
        BundleKind::Missing => "missing",
        BundleKind::Memory => "",
    }
}

/// The line that refuses a text that isn't of the form of a bundle.
pub(crate) fn bundle_refusal(alloc: Global, fault: &BundleFault) -> Result<String, AllocError>
    ensures text { IfOk result (λ text. string_bytes text ≡ bundle_refusal fault.now) }
{
    let line = fault.line;
    let kind = bundle_kind_text(fault.kind);
    format!(in alloc; "line {line}: {kind}\n")
}

/// Why a line of code doesn't assemble.
fn asm_kind_text(kind: AsmKind) -> &'static str
    ensures text { result.now ≡ asm_kind_text kind }
{
    match kind {
        AsmKind::DuplicateLabel => "duplicate label",
        AsmKind::UnknownWord => "unknown word",
        AsmKind::Operands => "operands",
        AsmKind::BadRegister => "bad register",
        AsmKind::BadNumber => "bad number",
        AsmKind::OutOfRange => "out of range",
        AsmKind::TooManyWords => "too many words",
        AsmKind::UnknownLabel => "unknown label",
        AsmKind::Memory => "",
    }
}

/// The line that refuses code that doesn't assemble.
fn asm_refusal(alloc: Global, fault: &AsmFault) -> Result<String, AllocError>
    ensures text { IfOk result (λ text. string_bytes text ≡ asm_refusal fault.now) }
{
    let line = fault.line;
    let kind = asm_kind_text(fault.kind);
    format!(in alloc; "line {line}: asm {kind}\n")
}

/// What is counted.
fn what_text(what: What) -> &'static str
    ensures text { result.now ≡ what_text what }
{
    match what {
        What::Tasks => "tasks",
        What::Code => "code",
        What::Tape => "tape",
        What::Quanta => "quanta",
        What::Worlds => "worlds",
        What::Events => "events",
        What::Order => "order",
    }
}

/// The line that refuses a bundle that can't be loaded; nothing for want of memory.
pub(crate) fn load_refusal(alloc: Global, fault: &LoadFault) -> Result<String, AllocError>
    ensures text { IfOk result (λ text. string_bytes text ≡ load_refusal fault.now) }
{
    match fault {
        LoadFault::Asm(fault) => asm_refusal(alloc, fault),
        LoadFault::Limit { what, got } => {
            let what = what_text(*what);
            format!(in alloc; "limit {what} {got}\n")
        }
        LoadFault::PlanForMissingHart { hart } => {
            format!(in alloc; "plan for missing hart {hart}\n")
        }
        LoadFault::TooLong { bound } => format!(in alloc; "too long {bound}\n"),
        LoadFault::Memory => Ok(String::new(alloc)),
    }
}

/// The line that refuses an order whose entry at this place, from 0, isn't legal.
pub(crate) fn order_refusal(alloc: Global, at: u64) -> Result<String, AllocError>
    ensures text { IfOk result (λ text. string_bytes text ≡ order_refusal at) }
{
    format!(in alloc; "order {at}: bad\n")
}
