//! Loading a bundle.

ghost use Rattle.std.specs.Prelude.{◌≡◌, ◌≢◌, ◌≤◌, Ok, Err, IfOk, IfErr};
ghost use Rattle.isa_model.specs.Limits.{max_harts};
ghost use Rattle.core_model.specs.Loaded.{IsLoaded};
ghost use Rattle.bundle_text.specs.Range.{IsInRange};
ghost use Rattle.rv_loader.specs.declared.fault.LoadFault.TheVariants.{Memory};
ghost use Rattle.rv_loader.specs.Memory.{IsNoMemoryOfCode};
ghost use Rattle.rv_loader.specs.Loading.{loading_of};

use crate::coding::coded_tasks;
use crate::fault::LoadFault;
use crate::limits::check_all;
use crate::placing::loaded_of;
use bundle_text::Bundle;
use core_model::Loaded;
use std::alloc::Global;

/// What a bundle loads as with harts of the numbers 0 to `harts` - 1, which are 1 to 8. First the code of all tasks is assembled, in
/// their order. Then numbers are counted, and the first that is outside of its range is refused: the tasks; the words of code and
/// then those of the tape, task by task; the quanta of the plan lines in their order; the worlds, and their words in their order;
/// the events; the order. Then comes the first plan line of a hart that isn't there, and last the bound of the queue actions, which
/// is twice the sum of the listed quanta, the fuels and the number of tasks, and once the harts. Task number t lies at 0x100000 +
/// 0x10000 t, and its data at 0x108000 + 0x10000 t; a hart without a plan line gets the tail 4,096 and no quanta. What is loaded has
/// memory of its own. The time is linear in the size of the bundle. Errors: the first refusal, or `Memory` where memory ran out.
pub fn load(alloc: Global, bundle: &Bundle, harts: u32) -> Result<Loaded, LoadFault>
    requires harts_low { 1 ≤ harts }
    requires harts_high { harts ≤ max_harts }
    requires range { IsInRange bundle.now }
    ensures loaded { IfOk result (λ loaded. loading_of bundle.now harts ≡ Ok loaded) }
    ensures valid { IfOk result IsLoaded }
    ensures refused { IfErr result (λ fault. fault ≢ Memory → loading_of bundle.now harts ≡ Err fault) }
    ensures memory { IfErr result IsNoMemoryOfCode }
{
    let tasks = coded_tasks(alloc, bundle.tasks.as_slice())?;
    check_all(bundle, harts, tasks.as_slice())?;
    Ok(loaded_of(alloc, bundle, harts, tasks)?)
}
