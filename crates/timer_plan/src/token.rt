//! The tokens of runs.

ghost use Rattle.std.specs.Prelude.{◌≡◌, ℕ, ◌↔◌, min, IfSome, IfNone};
ghost use Rattle.core_model.specs.Events.{hart_of};
ghost use Rattle.core_model.specs.declared.event.EventRun.{EventRun as Events};
ghost use Rattle.core_model.specs.declared.event.OrderRun.{OrderRun as Orders};
ghost use Rattle.timer_plan.specs.Tokens.{IsDecimal, SpellsTimes, SpellsRun, SpellsOrderRun, SpellsEventRun, IsInRange, IsOutOfRange};

use core_model::{Event, EventRun, OrderRun};

/// How many harts there are at most.
const HARTS: u32 = 8;

/// How often a run comes at most.
const TIMES_MAX: u64 = 1_048_576;

/// Above every number of times in range. A decimal number above it reads as this.
const CAP: u64 = 10_000_000;

/// Why a token is no run.
#[derive(Clone, Copy, Debug, PartialEq, Eq)]
pub enum TokenFault {
    /// The token isn't of its form.
    BadNumber,
    /// The token is of its form, and its hart isn't below 8 or it doesn't come 1 to 1,048,576 times.
    OutOfRange,
}

/// The number of decimal digits, up to the cap.
fn decimal(text: &[u8]) -> Option<u64>
    ensures found { IfSome result (λ value. (number : ℕ) × (value ≡ min number CAP) × IsDecimal text.now number) }
    ensures none { IfNone result ((number : ℕ) → ¬ (IsDecimal text.now number)) }
{
    if text.is_empty() {
        return None;
    }
    let mut value: u64 = 0;
    for digit in text {
        if !digit.is_ascii_digit() {
            return None;
        }
        value = (value * 10 + u64::from(*digit - b'0')).min(CAP);
    }
    Some(value)
}

/// How often, up to the cap: once where nothing stands there, or the number after a `*`.
fn times_of(suffix: &[u8]) -> Option<u64>
    ensures found { IfSome result (λ value. (times : ℕ) × (value ≡ min times CAP) × SpellsTimes suffix.now times) }
    ensures none { IfNone result ((times : ℕ) → ¬ (SpellsTimes suffix.now times)) }
{
    match suffix {
        [] => Some(1),
        [b'*', number @ ..] => decimal(number),
        _ => None,
    }
}

/// The hart, and how often up to the cap.
fn numbers_of(text: &[u8]) -> Option<(u32, u64)>
    ensures found { IfSome result (λ pair. (times : ℕ) × (pair.1 ≡ min times CAP) × SpellsRun text.now pair.0 times) }
    ensures none { IfNone result ((hart times : ℕ) → ¬ (SpellsRun text.now hart times)) }
{
    match text {
        [digit @ b'0'..=b'9', suffix @ ..] => {
            let times = times_of(suffix)?;
            Some((u32::from(*digit - b'0'), times))
        }
        _ => None,
    }
}

/// The run of a token of an order: a hart digit, 0 to 7, then nothing or `*` and a decimal number of times, one or more digits, 1 to
/// 1,048,576. Takes no memory.
pub fn order_run(token: &[u8]) -> Result<OrderRun, TokenFault>
    ensures run { (run : Orders) → (result ≡ Ok run) ↔ (SpellsOrderRun token.now run × IsInRange run.hart run.times) }
    ensures bad_number { (result ≡ Err TokenFault.BadNumber) ↔ ((run : Orders) → ¬ (SpellsOrderRun token.now run)) }
    ensures out_of_range { (result ≡ Err TokenFault.OutOfRange) ↔ ((run : Orders) × SpellsOrderRun token.now run × IsOutOfRange run.hart run.times) }
{
    match numbers_of(token) {
        Some((hart, times)) => {
            if hart < HARTS && 1 <= times && times <= TIMES_MAX {
                Ok(OrderRun {
                    hart,
                    times: times as u32,
                })
            } else {
                Err(TokenFault::OutOfRange)
            }
        }
        None => Err(TokenFault::BadNumber),
    }
}

/// The run of a token of events: `g` for instructions or `t` for ticks, and then as a token of an order. Takes no memory.
pub fn event_run(token: &[u8]) -> Result<EventRun, TokenFault>
    ensures run { (run : Events) → (result ≡ Ok run) ↔ (SpellsEventRun token.now run × IsInRange (hart_of run.event) run.times) }
    ensures bad_number { (result ≡ Err TokenFault.BadNumber) ↔ ((run : Events) → ¬ (SpellsEventRun token.now run)) }
    ensures out_of_range { (result ≡ Err TokenFault.OutOfRange) ↔ ((run : Events) × SpellsEventRun token.now run × IsOutOfRange (hart_of run.event) run.times) }
{
    match token {
        [b'g', rest @ ..] => {
            let run = order_run(rest)?;
            let event = Event::Go(run.hart);
            Ok(EventRun {
                event,
                times: run.times,
            })
        }
        [b't', rest @ ..] => {
            let run = order_run(rest)?;
            let event = Event::Tick(run.hart);
            Ok(EventRun {
                event,
                times: run.times,
            })
        }
        _ => Err(TokenFault::BadNumber),
    }
}
