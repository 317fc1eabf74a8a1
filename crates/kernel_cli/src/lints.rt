//! The check of a routine of one's own, and the run of a bundle under a kernel that has it.

ghost use Rattle.std.specs.Prelude.{◌≡◌, ◌≤◌, ◌<◌, ◌^◌, ℕ, List, ◌++◌, length, Ok, IfOk};
ghost use Rattle.core_model.specs.KernelWords.{linked_code};
ghost use Rattle.core_model.specs.Loaded.{IsLoaded};
ghost use Rattle.kernel_cli.specs.Answer.{judged};
ghost use Rattle.kernel_cli.specs.Drills.{IsDrillOrder, drill_report};
ghost use Rattle.kernel_cli.specs.Lints.{rule_text, refused_text, routine_accepted, words_of_lines, words_in};
ghost use Rattle.kernel_cli.specs.Outcome.{IsAnswer, IsAnswerOver};
ghost use Rattle.kernel_cli.specs.Routines.{AreWordsOf, IsChecked, IsRoutineIn};
ghost use Rattle.kernel_cli.specs.Works.{IsTaskNumber, text_limit, HasCounts};
ghost use Rattle.kernel_cli.specs.declared.work.CodeWork.TheVariants as lints;
ghost use Rattle.kernel_cli.specs.declared.work.Work.TheVariants as works;

use crate::answer::{Outcome, Response, done};
use crate::drills::drill;
use crate::generated::load_generated;
use crate::refusals::{bundle_refusal, load_refusal};
use crate::work::CodeWork;
use bundle_text::{BundleKind, Line, text_lines};
use core_model::Loaded;
use isa_model::Words;
use rv_loader::{LoadFault, code_words};
use scrub_rules::{Checked, Rule, RuleFault, check_routine};
use std::alloc::{AllocError, Global};

/// The name of a rule; nothing for want of memory.
fn rule_text(rule: Rule) -> &'static str
    ensures text { result.now ≡ rule_text rule }
{
    match rule {
        Rule::Divide => "divide",
        Rule::Length => "length",
        Rule::Form => "form",
        Rule::Base => "base",
        Rule::NotZero => "notzero",
        Rule::Meets => "meets",
        Rule::Slot => "slot",
        Rule::Left => "left",
        Rule::Restored => "restored",
        Rule::Memory => "",
    }
}

/// The answer to a routine that breaks a rule.
fn refused(alloc: Global, fault: &RuleFault) -> Result<Response, AllocError>
    ensures answer { IfOk result (λ response. IsAnswer response (judged (refused_text fault.now))) }
{
    let at = fault.at;
    let rule = rule_text(fault.rule);
    Ok(Response {
        outcome: Outcome::Verdict,
        text: format!(in alloc; "refused {at} {rule}\n")?.into_bytes(),
    })
}

/// The line of a routine that is accepted.
fn accepted(alloc: Global, routine: &Checked) -> Result<Vec<u8>, AllocError>
    ensures text { IfOk result (λ text. text.items ≡ routine_accepted routine.now) }
{
    let save = routine.save_len();
    let restore = routine.restore_len();
    Ok(format!(in alloc; "accepted {save} {restore}\n")?.into_bytes())
}

/// That line, and the report of a bundle for one hart, after the entries of that hart up to and with the take that finds nothing, under the
/// kernel with this routine.
fn accepted_and_drilled(
    alloc: Global,
    routine: &Checked,
    loaded: &Loaded,
) -> Result<Vec<u8>, AllocError>
    requires loaded { IsLoaded loaded.now }
    requires harts { loaded.now.harts ≡ 1 }
    ensures text { IfOk result (λ text. (order : List ℕ) × IsDrillOrder (linked_code routine.now.save routine.now.restore) loaded.now order
        × (text.items ≡ routine_accepted routine.now ++ drill_report (linked_code routine.now.save routine.now.restore) loaded.now order)) }
{
    let mut text = accepted(alloc, routine)?;
    let kernel = routine.kernel(alloc)?;
    text.append(&mut drill(alloc, loaded, kernel)?)?;
    Ok(text)
}

/// The words that lines of code assemble to, or the refusal.
fn assembled(alloc: Global, lines: &[Line]) -> Result<Result<Words, Response>, AllocError>
    requires few { length lines.now ≤ text_limit }
    ensures words { IfOk result (AreWordsOf (words_of_lines (Ok lines.now))) }
{
    match code_words(alloc, lines, 1) {
        Ok(words) => Ok(Ok(words)),
        Err(LoadFault::Memory) => Err(AllocError),
        Err(fault) => Ok(Err(Response {
            outcome: Outcome::BadInput,
            text: load_refusal(alloc, &fault)?.into_bytes(),
        })),
    }
}

/// The words that an input within the limit assembles to, or the refusal.
fn words_in(alloc: Global, bytes: &[u8]) -> Result<Result<Words, Response>, AllocError>
    requires limit { length bytes.now ≤ text_limit }
    ensures words { IfOk result (AreWordsOf (words_in bytes.now)) }
{
    match text_lines(alloc, bytes) {
        Ok(lines) => assembled(alloc, lines.as_slice()),
        Err(fault) => {
            if fault.kind == BundleKind::Memory {
                return Err(AllocError);
            }
            Ok(Err(Response {
                outcome: Outcome::BadInput,
                text: bundle_refusal(alloc, &fault)?.into_bytes(),
            }))
        }
    }
}

/// The routine of words that are accepted, or the answer to the first rule that they break.
fn checked(alloc: Global, words: &[u32]) -> Result<Result<Checked, Response>, AllocError>
    requires few { length words.now < 2 ^ 32 }
    ensures routine { IfOk result (IsChecked words.now) }
{
    match check_routine(alloc, words) {
        Ok(routine) => Ok(Ok(routine)),
        Err(fault) => {
            if fault.rule == Rule::Memory {
                return Err(AllocError);
            }
            Ok(Err(refused(alloc, &fault)?))
        }
    }
}

/// The routine of an input within the limit, or the answer to `lint` without one.
fn routine_in(alloc: Global, bytes: &[u8]) -> Result<Result<Checked, Response>, AllocError>
    requires limit { length bytes.now ≤ text_limit }
    ensures routine { IfOk result (IsRoutineIn bytes.now) }
{
    match words_in(alloc, bytes)? {
        Ok(words) => checked(alloc, words.as_slice()),
        Err(response) => Ok(Err(response)),
    }
}

/// The answer to `lint` over an input within the limit.
fn answer_lint(alloc: Global, bytes: &[u8]) -> Result<Response, AllocError>
    requires limit { length bytes.now ≤ text_limit }
    ensures answer { IfOk result (IsAnswerOver (works.Code lints.Lint) bytes.now) }
{
    match routine_in(alloc, bytes)? {
        Ok(routine) => Ok(done(accepted(alloc, &routine)?)),
        Err(response) => Ok(response),
    }
}

/// The answer to `lint SEED N` over an input within the limit.
fn answer_lint_drill(
    alloc: Global,
    seed: u64,
    tasks: u32,
    bytes: &[u8],
) -> Result<Response, AllocError>
    requires limit { length bytes.now ≤ text_limit }
    requires tasks { IsTaskNumber tasks }
    ensures answer { IfOk result (IsAnswerOver (works.Code (lints.LintDrill seed tasks)) bytes.now) }
{
    match routine_in(alloc, bytes)? {
        Ok(routine) => {
            let loaded = load_generated(alloc, seed, tasks)?;
            Ok(done(accepted_and_drilled(alloc, &routine, &loaded)?))
        }
        Err(response) => Ok(response),
    }
}

/// The answer to a work over code, over an input within its limit.
pub(crate) fn answer_code(
    alloc: Global,
    work: CodeWork,
    bytes: &[u8],
) -> Result<Response, AllocError>
    requires limit { length bytes.now ≤ text_limit }
    requires counts { HasCounts (works.Code work) }
    ensures answer { IfOk result (IsAnswerOver (works.Code work) bytes.now) }
{
    match work {
        CodeWork::Lint => answer_lint(alloc, bytes),
        CodeWork::LintDrill { seed, tasks } => answer_lint_drill(alloc, seed, tasks, bytes),
    }
}
