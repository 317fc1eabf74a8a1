//! The check of a routine of one's own.

ghost use Rattle.std.specs.Prelude.{◌≡◌, ◌≢◌, ℕ, ◌+◌, ◌<◌, ◌^◌, List, length, take, drop, Err, IfOk, IfErr, IfSome, IfNone};
ghost use Rattle.core_model.specs.Routines.{Saves, Restores};
ghost use Rattle.routine_laws.specs.Accepted.{at_save, at_restore};
ghost use Rattle.routine_laws.specs.Rules.{Ends, outcome_of};
ghost use Rattle.scrub_rules.specs.declared.rule.Rule.{Rule};
ghost use Rattle.scrub_rules.specs.Division.{IsDivision, save_part, restore_part};
ghost use Rattle.scrub_rules.specs.Broken.{IsAccepted, AreAcceptedParts, AreShortParts, IsFormBroken, IsFirstBroken, IsLengthBroken};
ghost use Rattle.scrub_rules.specs.View.{word_rule};

use crate::checked::Checked;
use crate::division::divide;
use crate::laws::answers_are_exact;
use crate::rule::{Rule, RuleFault, WordFault, WordRule};
use crate::storage::Storage;
use routine_laws::accepted_routines_do;
use std::alloc::{AllocError, Global};

/// The most words of a part.
const PART_LIMIT: usize = 300;

/// The rule of a word among the rules.
fn rule_of(rule: WordRule) -> Rule
    ensures first { (words : List ℕ) (at : ℕ) → IsFormBroken words at (word_rule rule) → IsFirstBroken words at result }
    ensures other { result ≢ Rule.Memory }
{
    match rule {
        WordRule::Form => Rule::Form,
        WordRule::Base => Rule::Base,
        WordRule::NotZero => Rule::NotZero,
        WordRule::Meets => Rule::Meets,
    }
}

/// The place of the first word too many of two parts that are divided at this place, if there is one.
fn first_too_many(words: &[u32], at: usize) -> Option<usize>
    requires division { IsDivision words.now at }
    requires within { at < length words.now }
    ensures some { IfSome result (IsLengthBroken words.now) }
    ensures bound { IfSome result (λ place. place < length words.now) }
    ensures none { IfNone result (AreShortParts words.now at) }
{
    if at > PART_LIMIT {
        Some(PART_LIMIT)
    } else if words.len() - (at + 1) > PART_LIMIT {
        Some(at + 1 + PART_LIMIT)
    } else {
        None
    }
}

/// A fault of a word.
fn fault_of(fault: &WordFault) -> RuleFault
    ensures first { (words : List ℕ) → IsFormBroken words fault.now.at (word_rule fault.now.rule) → IsFirstBroken words result.at result.rule }
    ensures other { result.rule ≢ Rule.Memory }
{
    RuleFault {
        at: fault.at,
        rule: rule_of(fault.rule),
    }
}

/// Whether the two parts of words that are divided at this place break no rule at their ends. Errors: the first that they break.
fn check_ends(
    words: &[u32],
    at: usize,
    saved: &Storage,
    restored: &Storage,
) -> Result<(), RuleFault>
    requires few { length words.now < 2 ^ 32 }
    requires within { at < length words.now }
    requires short { AreShortParts words.now at }
    requires saved { outcome_of 0 at_save (take at words.now) ≡ Ends saved.now }
    requires restored { outcome_of (at + 1) at_restore (drop (at + 1) words.now) ≡ Ends restored.now }
    ensures ok { IfOk result (λ done. IsAccepted words.now at) }
    ensures fault { IfErr result (λ f. IsFirstBroken words.now f.at f.rule) }
    ensures other { IfErr result (λ f. f.rule ≢ Rule.Memory) }
{
    if let Some(rule) = saved.broken_at_save_end() {
        let at = at as u32;
        return Err(RuleFault { at, rule });
    }
    if let Some(rule) = restored.broken_at_restore_end() {
        let at = words.len() as u32;
        return Err(RuleFault { at, rule });
    }
    Ok(())
}

/// Whether the two parts of words that are divided at this place, both short enough, break no rule. Errors: the first that they break.
fn check_parts(words: &[u32], at: usize) -> Result<(), RuleFault>
    requires few { length words.now < 2 ^ 32 }
    requires within { at < length words.now }
    requires short { AreShortParts words.now at }
    ensures ok { IfOk result (λ done. IsAccepted words.now at) }
    ensures fault { IfErr result (λ f. IsFirstBroken words.now f.at f.rule) }
    ensures other { IfErr result (λ f. f.rule ≢ Rule.Memory) }
{
    let mut saved = Storage::at_save();
    if let Some(fault) = saved.follow_all(&words[..at], 0) {
        return Err(fault_of(&fault));
    }
    let mut restored = Storage::at_restore();
    if let Some(fault) = restored.follow_all(&words[at + 1..], at as u32 + 1) {
        return Err(fault_of(&fault));
    }
    check_ends(words, at, &saved, &restored)
}

/// The place of the EBREAK of words that break no rule. Errors: the first that they break, and where.
fn check_words(words: &[u32]) -> Result<usize, RuleFault>
    requires few { length words.now < 2 ^ 32 }
    ensures ok { IfOk result (IsAccepted words.now) }
    ensures within { IfOk result (λ at. at < length words.now) }
    ensures fault { IfErr result (λ f. IsFirstBroken words.now f.at f.rule) }
    ensures other { IfErr result (λ f. f.rule ≢ Rule.Memory) }
{
    let at = match divide(words) {
        Ok(at) => at,
        Err(place) => {
            let at = place as u32;
            return Err(RuleFault {
                at,
                rule: Rule::Divide,
            });
        }
    };
    if let Some(place) = first_too_many(words, at) {
        let at = place as u32;
        return Err(RuleFault {
            at,
            rule: Rule::Length,
        });
    }
    check_parts(words, at)?;
    Ok(at)
}

/// The two parts of accepted words, in memory of their own.
fn copy_parts(alloc: Global, words: &[u32], at: usize) -> Result<Checked, AllocError>
    requires within { at < length words.now }
    requires accepted { IsAccepted words.now at }
    ensures save { IfOk result (λ c. c.save ≡ save_part words.now at) }
    ensures restore { IfOk result (λ c. c.restore ≡ restore_part words.now at) }
{
    accepted_routines_do();
    Checked::of(alloc, &words[..at], &words[at + 1..])
}

/// Checks words that are to stand in place of the kernel's save part and restore part: a save part, one EBREAK and a restore part. Where
/// they break no rule these are the two parts, and they save and restore. Errors: exactly where a rule is broken, the first one and its
/// place; want of memory, which comes only where none is, is `Memory` at 0.
pub fn check_routine(alloc: Global, words: &[u32]) -> Result<Checked, RuleFault>
    requires few { length words.now < 2 ^ 32 }
    ensures ok { IfOk result (λ c. AreAcceptedParts words.now c.save c.restore) }
    ensures saves { IfOk result (λ c. Saves c.save) }
    ensures restores { IfOk result (λ c. Restores c.restore) }
    ensures fault { IfErr result (λ f. f.rule ≢ Rule.Memory → IsFirstBroken words.now f.at f.rule) }
    ensures exactly { (at : ℕ) (rule : Rule) → IsFirstBroken words.now at rule → result ≡ Err (record { at = at; rule = rule }) }
    ensures accepted { (at : ℕ) → IsAccepted words.now at → IfErr result (λ f. f.rule ≡ Rule.Memory) }
    ensures memory { IfErr result (λ f. f.rule ≡ Rule.Memory → f.at ≡ 0) }
{
    accepted_routines_do();
    answers_are_exact();
    let at = check_words(words)?;
    match copy_parts(alloc, words, at) {
        Ok(checked) => Ok(checked),
        Err(_) => Err(RuleFault {
            at: 0,
            rule: Rule::Memory,
        }),
    }
}
