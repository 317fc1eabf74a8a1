//! Where the one EBREAK stands that divides the words.

ghost use Rattle.std.specs.Prelude.{ℕ, ◌<◌, ◌≤◌, length, IfSome, IfNone, IfOk, IfErr};
ghost use Rattle.scrub_rules.specs.Division.{IsBreak, IsDivision};
ghost use Rattle.scrub_rules.specs.Broken.{IsDivideBroken};

/// The word of EBREAK (unprivileged manual, RV32I, "Environment Call and Breakpoints").
const BREAK: u32 = 0x0010_0073;

/// The first place from one on where EBREAK stands.
fn next_break(words: &[u32], from: usize) -> Option<usize>
    requires from { from ≤ length words.now }
    ensures found { IfSome result (λ at. IsBreak words.now at) }
    ensures within { IfSome result (λ at. (from ≤ at) × (at < length words.now)) }
    ensures first { IfSome result (λ at. (i : ℕ) → from ≤ i → i < at → IsBreak words.now i → ⊥) }
    ensures none { IfNone result ((i : ℕ) → from ≤ i → IsBreak words.now i → ⊥) }
{
    for i in from..words.len() {
        if words[i] == BREAK {
            return Some(i);
        }
    }
    None
}

/// The place of the one EBREAK. Errors: the place of the second one, and the number of words where there is none.
pub(crate) fn divide(words: &[u32]) -> Result<usize, usize>
    ensures ok { IfOk result (IsDivision words.now) }
    ensures within { IfOk result (λ at. at < length words.now) }
    ensures fault { IfErr result (IsDivideBroken words.now) }
    ensures bound { IfErr result (λ at. at ≤ length words.now) }
{
    match next_break(words, 0) {
        None => Err(words.len()),
        Some(first) => match next_break(words, first + 1) {
            None => Ok(first),
            Some(second) => Err(second),
        },
    }
}
