//! The work over the bundle of a number.

ghost use Rattle.std.specs.Prelude.{◌≡◌, ℕ, List, IfOk};
ghost use Rattle.core_model.specs.Loaded.{IsLoaded};
ghost use Rattle.core_model.specs.KernelWords.{kernel_code};
ghost use Rattle.kernel_cli.specs.Drills.{IsDrillOrder, drill_report};
ghost use Rattle.kernel_cli.specs.Generated.{IsGenerated, gen_answer};
ghost use Rattle.core_model.specs.declared.loaded.Loaded.{Loaded as LoadedBundle};
ghost use Rattle.kernel_cli.specs.Outcome.{IsAnswerOver};
ghost use Rattle.kernel_cli.specs.Works.{IsTaskNumber, HasCounts};
ghost use Rattle.kernel_cli.specs.declared.answer.Outcome.TheVariants as outcomes;
ghost use Rattle.kernel_cli.specs.declared.work.Work.TheVariants as works;

use crate::answer::{Response, done};
use crate::drills::drill;
use crate::work::GeneratedWork;
use bundle_text::write_bundle;
use chain_laws::generated_bundles_load;
use kernel_core::Kernel;
use masked_gen::generate;
use rv_loader::{LoadFault, Loaded, load};
use std::alloc::{AllocError, Global};

/// What the bundle of a number loads as for one hart.
pub(crate) fn load_generated(alloc: Global, seed: u64, tasks: u32) -> Result<Loaded, AllocError>
    requires tasks { IsTaskNumber tasks }
    ensures loads { IfOk result (IsGenerated seed tasks) }
    ensures loaded { IfOk result IsLoaded }
    ensures harts { IfOk result (λ loaded. loaded.harts ≡ 1) }
{
    generated_bundles_load();
    let bundle = generate(alloc, seed, tasks)?;
    match load(alloc, &bundle, 1) {
        Ok(loaded) => Ok(loaded),
        Err(LoadFault::Memory) => Err(AllocError),
        Err(LoadFault::Asm(_)) => unreachable!(),
        Err(LoadFault::Limit { .. }) => unreachable!(),
        Err(LoadFault::PlanForMissingHart { .. }) => unreachable!(),
        Err(LoadFault::TooLong { .. }) => unreachable!(),
    }
}

/// The text of `gen`.
fn gen_text(alloc: Global, seed: u64, tasks: u32) -> Result<Vec<u8>, AllocError>
    ensures text { IfOk result (λ text. text.items ≡ (gen_answer seed tasks).text) }
{
    let bundle = generate(alloc, seed, tasks)?;
    write_bundle(alloc, &bundle)
}

/// The text of `drill`.
fn drill_text(alloc: Global, seed: u64, tasks: u32) -> Result<Vec<u8>, AllocError>
    requires tasks { IsTaskNumber tasks }
    ensures text { IfOk result (λ text. (loaded : LoadedBundle) × IsGenerated seed tasks loaded
        × (order : List ℕ) × IsDrillOrder kernel_code loaded order × (text.items ≡ drill_report kernel_code loaded order)) }
{
    let loaded = load_generated(alloc, seed, tasks)?;
    let kernel = Kernel::emitted(alloc)?;
    Ok(drill(alloc, &loaded, kernel)?)
}

/// The answer to a work, whatever the bytes of the source are. It is always fine.
pub(crate) fn answer_generated(alloc: Global, work: GeneratedWork) -> Result<Response, AllocError>
    requires counts { HasCounts (works.Generated work) }
    ensures answer { IfOk result (λ response. (bytes : List ℕ) → IsAnswerOver (works.Generated work) bytes response) }
    ensures fine { IfOk result (λ response. response.outcome ≡ outcomes.Fine) }
{
    match work {
        GeneratedWork::Gen { seed, tasks } => Ok(done(gen_text(alloc, seed, tasks)?)),
        GeneratedWork::Drill { seed, tasks } => Ok(done(drill_text(alloc, seed, tasks)?)),
    }
}
