//! What the tokens after the first word of a line say.

ghost use Rattle.std.specs.Prelude.{◌≡◌, Some, option_map};
ghost use Rattle.isa_model.specs.Limits.{max_quantum};
ghost use Rattle.bundle_text.specs.Pieces.{texts};
ghost use Rattle.bundle_text.specs.Numbers.{number_in, word_of};
ghost use Rattle.bundle_text.specs.Operands.{each, one_number, are_limit_words, band_token, limits_of, task_operands, quanta_tokens, plan_of, plan_operands, has_plan, is_as_long, world_operands};
ghost use Rattle.bundle_text.specs.Runs.{event_operand, order_operand, kind_of};
ghost use Rattle.bundle_text.specs.Answer.{Says, vec_items};

use crate::bundle::{BundleKind, PlanText, World};
use crate::numbers::{number_in, word};
use core_model::{EventRun, OrderRun, Plan, Quanta};
use isa_model::Words;
use std::alloc::Global;
use timer_plan::{TokenFault, event_run, order_run};

/// One number in a range, and nothing else.
pub(crate) fn one_number(low: u32, high: u32, tokens: &[&[u8]]) -> Result<u32, BundleKind>
    ensures value { result ≡ one_number low high (texts tokens.now) }
{
    match tokens {
        [token] => number_in(low, high, token),
        _ => Err(BundleKind::Operands),
    }
}

/// Whether these are the words before the numbers of a task.
fn are_limit_words(fuel_word: &[u8], out_word: &[u8], data_word: &[u8]) -> bool
    ensures value { result ≡ are_limit_words fuel_word.now out_word.now data_word.now }
{
    fuel_word == b"fuel".as_slice()
        && out_word == b"out".as_slice()
        && data_word == b"data".as_slice()
}

/// The numbers of a task.
fn limits(
    fuel: &[u8],
    out: &[u8],
    data_len: &[u8],
    band: &[u8],
) -> Result<(u32, u32, u32, u32), BundleKind>
    ensures value { result ≡ limits_of fuel.now out.now data_len.now (Some band.now) }
{
    let fuel = number_in(1, 100_000, fuel)?;
    let out_max = number_in(0, 4096, out)?;
    let data_len = number_in(0, 1024, data_len)?;
    let band = number_in(0, 1, band)?;
    Ok((fuel, out_max, data_len, band))
}

/// The token of a band: that after `band`, or `0` in a text without bands.
fn band_token<'a>(has_bands: bool, tokens: &'a [&'a [u8]]) -> Option<&'a [u8]>
    ensures value { option_map (λ t. t.now) result ≡ band_token has_bands (texts tokens.now) }
{
    match tokens {
        [] => { if has_bands { None } else { Some(b"0") } }
        [word, token] => {
            if has_bands && *word == b"band".as_slice() {
                Some(token)
            } else {
                None
            }
        }
        _ => None,
    }
}

/// The fuel, the greatest output, the number of data words and the band of a task. Its line says the band where the text has bands.
pub(crate) fn task_operands(
    has_bands: bool,
    tokens: &[&[u8]],
) -> Result<(u32, u32, u32, u32), BundleKind>
    ensures value { result ≡ task_operands has_bands (texts tokens.now) }
{
    let [
        fuel_word,
        fuel,
        out_word,
        out,
        data_word,
        data_len,
        rest @ ..,
    ] = tokens
    else {
        return Err(BundleKind::Operands);
    };
    if !are_limit_words(fuel_word, out_word, data_word) {
        return Err(BundleKind::Operands);
    }
    match band_token(has_bands, rest) {
        Some(band) => limits(fuel, out, data_len, band),
        None => Err(BundleKind::Operands),
    }
}

/// The words of tokens.
pub(crate) fn words(alloc: Global, tokens: &[&[u8]]) -> Result<Vec<u32>, BundleKind>
    ensures value { Says (vec_items result) (each word_of (texts tokens.now)) }
{
    let mut found = Vec::new(alloc);
    for token in tokens {
        let word = word(token)?;
        found.push(word)?;
    }
    Ok(found)
}

/// The quanta of tokens.
fn quanta(alloc: Global, tokens: &[&[u8]]) -> Result<Vec<u16>, BundleKind>
    ensures value { Says (vec_items result) (each (number_in 0 max_quantum) (texts tokens.now)) }
{
    let mut found = Vec::new(alloc);
    for token in tokens {
        let number = number_in(0, 4096, token)?;
        found.push(number as u16)?;
    }
    Ok(found)
}

/// The plan of the tokens of its numbers.
fn plan_of(
    alloc: Global,
    hart: &[u8],
    tail: &[u8],
    quanta_tokens: &[&[u8]],
) -> Result<PlanText, BundleKind>
    ensures value { Says result (plan_of hart.now tail.now (Some (texts quanta_tokens.now))) }
{
    let hart = number_in(0, 7, hart)?;
    let tail = number_in(1, 4096, tail)? as u16;
    let quanta = Quanta::new(quanta(alloc, quanta_tokens)?);
    Ok(PlanText {
        hart,
        plan: Plan { quanta, tail },
    })
}

/// The plan of a hart.
pub(crate) fn plan_operands(alloc: Global, tokens: &[&[u8]]) -> Result<PlanText, BundleKind>
    ensures value { Says result (plan_operands (texts tokens.now)) }
{
    let [hart, tail_word, tail, rest @ ..] = tokens else {
        return Err(BundleKind::Operands);
    };
    if *tail_word != b"tail".as_slice() {
        return Err(BundleKind::Operands);
    }
    match quanta_tokens(rest) {
        Some(quanta_tokens) => plan_of(alloc, hart, tail, quanta_tokens),
        None => Err(BundleKind::Operands),
    }
}

/// The tokens after `quanta`, or none where there is no token.
fn quanta_tokens<'a>(tokens: &'a [&'a [u8]]) -> Option<&'a [&'a [u8]]>
    ensures value { option_map (λ ts. texts ts.now) result ≡ quanta_tokens (texts tokens.now) }
{
    match tokens {
        [] => Some(tokens),
        [word, rest @ ..] => {
            if *word == b"quanta".as_slice() {
                Some(rest)
            } else {
                None
            }
        }
    }
}

/// Whether a hart has a plan.
pub(crate) fn has_plan(hart: u32, plans: &[PlanText]) -> bool
    ensures value { result ≡ has_plan hart plans.now }
{
    for plan in plans {
        if plan.hart == hart {
            return true;
        }
    }
    false
}

/// Whether a world of so many words is as long as the worlds so far.
fn is_as_long(worlds: &[World], count: usize) -> bool
    ensures value { result ≡ is_as_long worlds.now count }
{
    match worlds {
        [] => true,
        [first, ..] => first.tape.len() == count,
    }
}

/// A world beside the worlds so far.
pub(crate) fn world_operands(
    alloc: Global,
    worlds: &[World],
    tokens: &[&[u8]],
) -> Result<World, BundleKind>
    ensures value { Says result (world_operands worlds.now (texts tokens.now)) }
{
    let [secret, rest @ ..] = tokens else {
        return Err(BundleKind::Operands);
    };
    if !is_as_long(worlds, rest.len()) {
        return Err(BundleKind::Operands);
    }
    let secret = number_in(0, u32::MAX, secret)?;
    let tape = Words::new(words(alloc, rest)?);
    Ok(World { secret, tape })
}

/// The kind of a token that is no run.
fn kind(fault: TokenFault) -> BundleKind
    ensures value { result ≡ kind_of fault }
{
    match fault {
        TokenFault::BadNumber => BundleKind::BadNumber,
        TokenFault::OutOfRange => BundleKind::OutOfRange,
    }
}

/// The run of events of a token.
fn event_operand(token: &[u8]) -> Result<EventRun, BundleKind>
    ensures value { result ≡ event_operand token.now }
{
    match event_run(token) {
        Ok(run) => Ok(run),
        Err(fault) => Err(kind(fault)),
    }
}

/// The run of the order of a token.
fn order_operand(token: &[u8]) -> Result<OrderRun, BundleKind>
    ensures value { result ≡ order_operand token.now }
{
    match order_run(token) {
        Ok(run) => Ok(run),
        Err(fault) => Err(kind(fault)),
    }
}

/// The runs of events of tokens.
pub(crate) fn events(alloc: Global, tokens: &[&[u8]]) -> Result<Vec<EventRun>, BundleKind>
    ensures value { Says (vec_items result) (each event_operand (texts tokens.now)) }
{
    let mut found = Vec::new(alloc);
    for token in tokens {
        let run = event_operand(token)?;
        found.push(run)?;
    }
    Ok(found)
}

/// The runs of the order of tokens.
pub(crate) fn order(alloc: Global, tokens: &[&[u8]]) -> Result<Vec<OrderRun>, BundleKind>
    ensures value { Says (vec_items result) (each order_operand (texts tokens.now)) }
{
    let mut found = Vec::new(alloc);
    for token in tokens {
        let run = order_operand(token)?;
        found.push(run)?;
    }
    Ok(found)
}
