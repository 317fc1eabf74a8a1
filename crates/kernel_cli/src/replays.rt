//! The core of a bundle, by the bundle's order, under the plans of its harts.

ghost use Rattle.std.specs.Prelude.{◌≡◌, ◌≤◌, ◌+◌, ◌-◌, ℕ, List, [], ◌∷◌, ◌++◌, Some, None, IfOk, IfErr};
ghost use Rattle.core_model.specs.declared.loaded.Loaded.{Loaded as LoadedBundle};
ghost use Rattle.core_model.specs.Events.{entry_count};
ghost use Rattle.isa_model.specs.Limits.{max_order_entries};
ghost use Rattle.core_model.specs.Loaded.{IsLoaded};
ghost use Rattle.report_text.specs.Listing.{listing_of};
ghost use Rattle.kernel_cli.specs.Scripts.{entries_each, most_before};
ghost use Rattle.order_laws.specs.Judging.{OrderEnd};
ghost use Rattle.kernel_cli.specs.Outcome.{IsAnswer};
ghost use Rattle.kernel_cli.specs.Replays.{replay_end, replay_report, replay_log, order_answer, replay_answer};
ghost use Rattle.kernel_cli.specs.Playing.{StandsAlong, IsEndBy, IsReplayed, IsReplay};

use crate::answer::{Outcome, Response, done, logged};
use crate::refusals::order_refusal;
use crate::scripts::{LOG_ROOM, core_report, log_and_report};
use core_invariant::emitted_is_kernel;
use core_model::{Loaded, OrderRun, counts_are_lengths};
use kernel_core::Core;
use probe_log::{Keeper, Packed, Tally};
use std::alloc::{AllocError, AllocFailed, Global};

/// Why the run by an order didn't come to its end.
#[derive(Clone, Copy, Debug, PartialEq, Eq)]
pub(crate) enum OrderFault {
    /// The entry at this place, from 0, isn't legal.
    Bad {
        /// The place of the entry.
        at: u64,
    },
    /// The log that is kept has no room.
    LogFull,
    /// Memory ran out.
    Memory,
}

impl From<AllocError> for OrderFault {
    ghost use Rattle.kernel_cli.specs.declared.replays.OrderFault.TheVariants.{Memory};

    ghost from_gives = { λ _ fault. fault ≡ Memory };

    fn from(_: AllocError) -> OrderFault {
        OrderFault::Memory
    }
}

impl<T: Drop> From<AllocFailed<T>> for OrderFault {
    ghost use Rattle.kernel_cli.specs.declared.replays.OrderFault.TheVariants.{Memory};

    ghost from_gives = { λ _ fault. fault ≡ Memory };

    fn from(_: AllocFailed<T>) -> OrderFault {
        OrderFault::Memory
    }
}

/// How many entries the runs stand for.
fn entry_count(runs: &[OrderRun]) -> u64
    requires limit { entry_count runs.now ≤ max_order_entries }
    ensures count { result ≡ entry_count runs.now }
{
    let mut count = 0;
    let mut rest = runs;
    while let [first, others @ ..] = rest {
        count += u64::from(first.times);
        rest = others;
    }
    count
}

/// The entry of an order at this place: the steps of its hart up to and with its next queue action, unless it isn't legal, or before one of
/// them the keeper may have no room for its entries.
fn play_entry<K: Keeper>(
    core: &mut Core<K>,
    harts: u32,
    hart: u32,
    at: u64,
) -> Result<(), OrderFault>
    requires along { (loaded : LoadedBundle) × (harts ≡ loaded.harts) × (most : ℕ) × (rest : List ℕ)
        × StandsAlong K.stands K.room_of most loaded at (hart ∷ rest) core.old }
    ensures next { IfOk result (λ _. (loaded : LoadedBundle) (most : ℕ) (rest : List ℕ)
        → StandsAlong K.stands K.room_of most loaded at (hart ∷ rest) core.old → StandsAlong K.stands K.room_of most loaded (at + 1) rest core.new) }
    ensures end { IfErr result (λ fault. (loaded : LoadedBundle) (most : ℕ) (rest : List ℕ)
        → StandsAlong K.stands K.room_of most loaded at (hart ∷ rest) core.old → IsEndBy fault (replay_end (Some most) loaded)) }
{
    if hart >= harts || !core.goes_on(hart) {
        return Err(OrderFault::Bad { at });
    }
    match core.to_action_within(hart) {
        Some(_action) => Ok(()),
        None => Err(OrderFault::LogFull),
    }
}

/// The core after all entries of the bundle's order, or why it didn't come to its end.
fn replay_core<K: Keeper>(alloc: Global, loaded: &Loaded, keeper: K) -> Result<Core<K>, OrderFault>
    requires loaded { IsLoaded loaded.now }
    requires empty { K.stands keeper [] }
    requires room { entries_each ≤ K.room_of keeper }
    ensures replayed { IsReplayed K.stands (K.room_of keeper - entries_each) loaded.now result }
{
    counts_are_lengths();
    let mut rest = loaded.order.as_slice();
    let mut core = Core::boot(alloc, loaded, keeper, entry_count(rest))?;
    let mut at = 0;
    while let [first, others @ ..] = rest {
        let mut left = first.times;
        while left > 0 {
            play_entry(&mut core, loaded.harts, first.hart, at)?;
            at += 1;
            left -= 1;
        }
        rest = others;
    }
    Ok(core)
}

/// The report of the core after the order, of whose log counts are kept alone.
fn replay(alloc: Global, loaded: &Loaded) -> Result<Vec<u8>, OrderFault>
    requires loaded { IsLoaded loaded.now }
    ensures text { IsReplay (replay_end None loaded.now) (replay_report loaded.now) result }
{
    counts_are_lengths();
    emitted_is_kernel();
    let core = replay_core(alloc, loaded, Tally::new())?;
    Ok(core_report(alloc, loaded, &core)?)
}

/// The entries of the log and the report, unless the log is full.
fn replay_probes(alloc: Global, loaded: &Loaded) -> Result<Vec<u8>, OrderFault>
    requires loaded { IsLoaded loaded.now }
    ensures text { IsReplay (replay_end (Some most_before) loaded.now) (listing_of (replay_log loaded.now) ++ replay_report loaded.now) result }
{
    let core = replay_core(alloc, loaded, Packed::new(alloc, LOG_ROOM)?)?;
    Ok(log_and_report(alloc, loaded, &core)?)
}

/// The answer of a run by an order: its text, or why it didn't come to its end.
fn replayed(alloc: Global, text: Result<Vec<u8>, OrderFault>) -> Result<Response, AllocError>
    ensures answer { IfOk result (λ response. (end : OrderEnd) (whole : List ℕ) → IsReplay end whole text
        → IsAnswer response (order_answer end whole)) }
{
    match text {
        Ok(text) => Ok(done(text)),
        Err(OrderFault::Bad { at }) => Ok(Response {
            outcome: Outcome::BadInput,
            text: order_refusal(alloc, at)?.into_bytes(),
        }),
        Err(OrderFault::LogFull) => logged(alloc, None),
        Err(OrderFault::Memory) => Err(AllocError),
    }
}

/// The answer to `replay` over a loaded bundle.
pub(crate) fn answer_replay(
    alloc: Global,
    probes: bool,
    loaded: &Loaded,
) -> Result<Response, AllocError>
    requires loaded { IsLoaded loaded.now }
    ensures answer { IfOk result (λ response. IsAnswer response (replay_answer probes loaded.now)) }
{
    if probes {
        replayed(alloc, replay_probes(alloc, loaded))
    } else {
        replayed(alloc, replay(alloc, loaded))
    }
}
