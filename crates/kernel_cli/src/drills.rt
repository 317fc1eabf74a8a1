//! The core of a bundle for one hart, under a kernel, whose hart goes on until it finds nothing.

ghost use Rattle.std.specs.Prelude.{◌≡◌, ◌≤◌, ◌+◌, ◌^◌, ℕ, List, [], IfOk};
ghost use Rattle.core_model.specs.Loaded.{IsLoaded};
ghost use Rattle.kernel_cli.specs.Drills.{IsDrilled, IsDrillOrder, drill_report};

use core_model::Loaded;
use kernel_core::{Core, Kernel};
use probe_log::{Keeper, Tally};
use report_text::report;
use std::alloc::{AllocError, Global};

/// How many queue actions a bundle makes at most.
const MAX_ACTIONS: u64 = 1_048_576;

/// The core of a bundle for one hart, after the entries of that hart up to and with the take that finds nothing.
pub(crate) fn drill_core<K: Keeper>(
    alloc: Global,
    loaded: &Loaded,
    keeper: K,
    kernel: Kernel,
) -> Result<Core<K>, AllocError>
    requires loaded { IsLoaded loaded.now }
    requires harts { loaded.now.harts ≡ 1 }
    requires empty { K.stands keeper [] }
    requires room { 2 ^ 64 ≤ K.room_of keeper + 1 }
    ensures drilled { IfOk result (IsDrilled K.stands kernel loaded.now) }
{
    let mut core = Core::boot_with(alloc, loaded, keeper, MAX_ACTIONS, kernel)?;
    while core.goes_on(0) {
        let _action = core.to_action(0);
    }
    Ok(core)
}

/// The report of the core after that.
pub(crate) fn drill(alloc: Global, loaded: &Loaded, kernel: Kernel) -> Result<Vec<u8>, AllocError>
    requires loaded { IsLoaded loaded.now }
    requires harts { loaded.now.harts ≡ 1 }
    ensures text { IfOk result (λ text. (order : List ℕ) × IsDrillOrder kernel.code loaded.now order × (text.items ≡ drill_report kernel.code loaded.now order)) }
{
    let core = drill_core(alloc, loaded, Tally::new(), kernel)?;
    report(alloc, &core.snapshot(alloc)?)
}
