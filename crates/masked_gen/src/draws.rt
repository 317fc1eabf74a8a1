//! What is drawn from a generator of words.

ghost use Rattle.std.specs.Prelude.{◌≡◌, count_by, IfOk};
ghost use Rattle.masked_gen.specs.Draws.{drawn, word_draw, draws};
ghost use Rattle.masked_gen.specs.Generator.{gate_draw, gates_draw, is_and, shares_draw, masks_draw};

use crate::gate::Gate;
use rand_core::utils::NextWord;
use rand_pcg::Pcg32;
use std::alloc::{AllocError, Global};

/// How many shares two words have.
const SHARES: usize = 4;

/// Draws a word.
fn draw_word(rng: &mut Pcg32) -> u32
    ensures drawn { word_draw rng.old ≡ drawn result rng.new }
{
    rng.next_word()
}

/// Draws so many words.
fn draw_words(alloc: Global, count: usize, rng: &mut Pcg32) -> Result<Vec<u32>, AllocError>
    ensures drawn { IfOk result (λ words. draws count word_draw rng.old ≡ drawn words.items rng.new) }
{
    let mut words = Vec::new(alloc);
    for _ in 0..count {
        words.push(draw_word(rng))?;
    }
    Ok(words)
}

/// Draws a gate.
fn draw_gate(rng: &mut Pcg32) -> Gate
    ensures drawn { gate_draw rng.old ≡ drawn result rng.new }
{
    if draw_word(rng) % 2 == 0 {
        Gate::Xor
    } else {
        Gate::And
    }
}

/// Draws 1 to 8 gates.
pub(crate) fn draw_gates(alloc: Global, rng: &mut Pcg32) -> Result<Vec<Gate>, AllocError>
    ensures drawn { IfOk result (λ gates. gates_draw rng.old ≡ drawn gates.items rng.new) }
{
    let number = 1 + draw_word(rng) % 8;
    let mut gates = Vec::new(alloc);
    for _ in 0..number {
        gates.push(draw_gate(rng))?;
    }
    Ok(gates)
}

/// How many gates are an And.
fn count_ands(gates: &[Gate]) -> usize
    ensures count { result ≡ count_by is_and gates.now }
{
    gates.iter().filter(|gate| **gate == Gate::And).count()
}

/// Draws the shares of two words.
pub(crate) fn draw_shares(alloc: Global, rng: &mut Pcg32) -> Result<Vec<u32>, AllocError>
    ensures drawn { IfOk result (λ shares. shares_draw rng.old ≡ drawn shares.items rng.new) }
{
    draw_words(alloc, SHARES, rng)
}

/// Draws a mask for each And.
pub(crate) fn draw_masks(
    alloc: Global,
    gates: &[Gate],
    rng: &mut Pcg32,
) -> Result<Vec<u32>, AllocError>
    ensures drawn { IfOk result (λ masks. masks_draw gates.now rng.old ≡ drawn masks.items rng.new) }
{
    draw_words(alloc, count_ands(gates), rng)
}
