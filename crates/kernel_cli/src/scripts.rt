//! The core of a bundle, by the bundle's list of events.

ghost use Rattle.std.specs.Prelude.{◌≡◌, ◌≤◌, ◌-◌, List, [], ◌++◌, option_map, IfOk, IfSome, is_none};
ghost use Rattle.core_model.specs.Events.{event_count};
ghost use Rattle.isa_model.specs.Limits.{max_events};
ghost use Rattle.core_model.specs.Loaded.{IsLoaded};
ghost use Rattle.core_model.specs.declared.event.Event.{Event as CoreEvent};
ghost use Rattle.core_model.specs.Events.{events_of};
ghost use Rattle.report_text.specs.Listing.{listing_of};
ghost use Rattle.kernel_cli.specs.Scripts.{log_by, report_by, script_report, is_script_above, entries_each, probes_text, explanations_text};
ghost use Rattle.kernel_cli.specs.Playing.{IsPlayed, HasEntries};

use core_model::{EventRun, Loaded, counts_are_lengths};
use kernel_core::Core;
use probe_log::{Keeper, Packed, Tally};
use report_text::{explain_text, listing, report};
use std::alloc::{AllocError, Global};

/// How many entries a log that is kept has room for.
pub(crate) const LOG_ROOM: u64 = 1_000_000;

/// How much of its room a keeper has before an event.
const ENTRIES_EACH: u64 = 6;

/// How many events the runs stand for.
fn event_count(runs: &[EventRun]) -> u64
    requires limit { event_count runs.now ≤ max_events }
    ensures count { result ≡ event_count runs.now }
{
    let mut count = 0;
    let mut rest = runs;
    while let [first, others @ ..] = rest {
        count += u64::from(first.times);
        rest = others;
    }
    count
}

/// The core after all events of the bundle; `None` exactly where before one of them the keeper may have no room for its entries.
fn play<K: Keeper>(alloc: Global, loaded: &Loaded, keeper: K) -> Result<Option<Core<K>>, AllocError>
    requires loaded { IsLoaded loaded.now }
    requires harts { loaded.now.harts ≡ 8 }
    requires empty { K.stands keeper [] }
    requires room { entries_each ≤ K.room_of keeper }
    ensures played { IfOk result (λ played. IfSome played (λ core. IsPlayed K.stands loaded.now (events_of loaded.now.events) core)) }
    ensures none { IfOk result (λ played. is_none played ≡ is_script_above (K.room_of keeper - entries_each) loaded.now) }
{
    counts_are_lengths();
    let mut rest = loaded.events.as_slice();
    let mut core = Core::boot(alloc, loaded, keeper, event_count(rest))?;
    while let [first, others @ ..] = rest {
        let mut left = first.times;
        while left > 0 {
            if core.keeper().room() < ENTRIES_EACH {
                return Ok(None);
            }
            let _action = core.apply(first.event);
            left -= 1;
        }
        rest = others;
    }
    Ok(Some(core))
}

/// The report of the core after these events.
pub(crate) fn core_report<K: Keeper>(
    alloc: Global,
    loaded: &Loaded,
    core: &Core<K>,
) -> Result<Vec<u8>, AllocError>
    requires played { (events : List CoreEvent) × IsPlayed K.stands loaded.now events core.now }
    ensures text { IfOk result (λ text. (events : List CoreEvent) → IsPlayed K.stands loaded.now events core.now
        → text.items ≡ report_by loaded.now events) }
{
    let _ = loaded;
    report(alloc, &core.snapshot(alloc)?)
}

/// The entries of the log that is kept of these events, and the report.
pub(crate) fn log_and_report(
    alloc: Global,
    loaded: &Loaded,
    core: &Core<Packed>,
) -> Result<Vec<u8>, AllocError>
    requires played { (events : List CoreEvent) × IsPlayed HasEntries loaded.now events core.now }
    ensures text { IfOk result (λ text. (events : List CoreEvent) → IsPlayed HasEntries loaded.now events core.now
        → text.items ≡ listing_of (log_by loaded.now events) ++ report_by loaded.now events) }
{
    let mut text = listing(alloc, core.keeper())?;
    text.append(&mut core_report(alloc, loaded, core)?)?;
    Ok(text)
}

/// The report.
pub(crate) fn script(alloc: Global, loaded: &Loaded) -> Result<Vec<u8>, AllocError>
    requires loaded { IsLoaded loaded.now }
    requires harts { loaded.now.harts ≡ 8 }
    ensures text { IfOk result (λ text. text.items ≡ script_report loaded.now) }
{
    counts_are_lengths();
    match play(alloc, loaded, Tally::new())? {
        Some(core) => Ok(core_report(alloc, loaded, &core)?),
        None => unreachable!(),
    }
}

/// The entries of the log and the report, unless the log is full.
pub(crate) fn script_probes(alloc: Global, loaded: &Loaded) -> Result<Option<Vec<u8>>, AllocError>
    requires loaded { IsLoaded loaded.now }
    requires harts { loaded.now.harts ≡ 8 }
    ensures text { IfOk result (λ text. option_map (λ text. text.items) text ≡ probes_text loaded.now) }
{
    let Some(core) = play(alloc, loaded, Packed::new(alloc, LOG_ROOM)?)? else {
        return Ok(None);
    };
    Ok(Some(log_and_report(alloc, loaded, &core)?))
}

/// What the entries of the log show of the tasks, and the report, unless the log is full.
pub(crate) fn explain(alloc: Global, loaded: &Loaded) -> Result<Option<Vec<u8>>, AllocError>
    requires loaded { IsLoaded loaded.now }
    requires harts { loaded.now.harts ≡ 8 }
    ensures text { IfOk result (λ text. option_map (λ text. text.items) text ≡ explanations_text loaded.now) }
{
    let Some(core) = play(alloc, loaded, Packed::new(alloc, LOG_ROOM)?)? else {
        return Ok(None);
    };
    let mut text = explain_text(alloc, loaded.tasks.as_slice(), core.keeper())?;
    text.append(&mut core_report(alloc, loaded, &core)?)?;
    Ok(Some(text))
}
