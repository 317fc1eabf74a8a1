//! The work over a bundle on one thread: what its input is read as, and its answer.

ghost use Rattle.std.specs.Prelude.{◌≡◌, ◌≤◌, List, ℕ, length, Ok, IfOk};
ghost use Rattle.core_model.specs.Loaded.{IsLoaded};
ghost use Rattle.bundle_text.specs.Lines.{bundle_of};
ghost use Rattle.bundle_text.specs.Range.{IsInRange};
ghost use Rattle.kernel_cli.specs.Commands.{IsHartCount};
ghost use Rattle.kernel_cli.specs.Outcome.{IsAnswerIn, IsAnswerOver, IsRead};
ghost use Rattle.kernel_cli.specs.Works.{harts_of, text_limit, HasCounts};
ghost use Rattle.kernel_cli.specs.declared.work.Work.TheVariants as works;

use crate::answer::{Outcome, Response, done, logged};
use crate::refusals::{bundle_refusal, load_refusal};
use crate::replays::answer_replay;
use crate::scripts::{explain, script, script_probes};
use crate::tasks::ends;
use crate::verdicts::{answer_certify, answer_certify_two};
use crate::work::{BundleWork, harts_of};
use bundle_text::{Bundle, BundleKind, read_bundle};
use report_text::{alone_report, asm_text};
use rv_loader::{LoadFault, Loaded, load};
use std::alloc::{AllocError, Global};

/// What a bundle loads as for so many harts, or the refusal.
fn loaded_of(
    alloc: Global,
    harts: u32,
    bundle: &Bundle,
) -> Result<Result<Loaded, Response>, AllocError>
    requires range { IsInRange bundle.now }
    requires harts { IsHartCount harts }
    ensures loaded { IfOk result (λ read. (bytes : List ℕ) → bundle_of bytes ≡ Ok bundle.now → IsRead harts bytes read) }
{
    match load(alloc, bundle, harts) {
        Ok(loaded) => Ok(Ok(loaded)),
        Err(LoadFault::Memory) => Err(AllocError),
        Err(fault) => Ok(Err(Response {
            outcome: Outcome::BadInput,
            text: load_refusal(alloc, &fault)?.into_bytes(),
        })),
    }
}

/// What input within the limit loads as for so many harts, or the refusal.
pub(crate) fn read_loaded(
    alloc: Global,
    harts: u32,
    bytes: &[u8],
) -> Result<Result<Loaded, Response>, AllocError>
    requires limit { length bytes.now ≤ text_limit }
    requires harts { IsHartCount harts }
    ensures read { IfOk result (IsRead harts bytes.now) }
{
    match read_bundle(alloc, bytes) {
        Ok(bundle) => loaded_of(alloc, harts, &bundle),
        Err(fault) => {
            if fault.kind == BundleKind::Memory {
                return Err(AllocError);
            }
            Ok(Err(Response {
                outcome: Outcome::BadInput,
                text: bundle_refusal(alloc, &fault)?.into_bytes(),
            }))
        }
    }
}

/// The answer to a work over a loaded bundle.
fn answer_loaded(alloc: Global, work: BundleWork, loaded: &Loaded) -> Result<Response, AllocError>
    requires loaded { IsLoaded loaded.now }
    requires harts { loaded.now.harts ≡ harts_of work }
    ensures answer { IfOk result (IsAnswerIn work loaded.now) }
{
    match work {
        BundleWork::Alone => {
            let ends = ends(alloc, loaded.tasks.as_slice())?;
            Ok(done(alone_report(alloc, ends.as_slice())?))
        }
        BundleWork::Asm => Ok(done(asm_text(alloc, loaded.tasks.as_slice())?)),
        BundleWork::Script { probes: false } => Ok(done(script(alloc, loaded)?)),
        BundleWork::Script { probes: true } => logged(alloc, script_probes(alloc, loaded)?),
        BundleWork::Replay { probes, .. } => answer_replay(alloc, probes, loaded),
        BundleWork::Explain => logged(alloc, explain(alloc, loaded)?),
        BundleWork::Certify => answer_certify(alloc, loaded),
        BundleWork::CertifyTwo => answer_certify_two(alloc, loaded),
    }
}

/// The answer to a work over an input within its limit.
pub(crate) fn answer_bundle(
    alloc: Global,
    work: BundleWork,
    bytes: &[u8],
) -> Result<Response, AllocError>
    requires limit { length bytes.now ≤ text_limit }
    requires counts { HasCounts (works.Bundle work) }
    ensures answer { IfOk result (IsAnswerOver (works.Bundle work) bytes.now) }
{
    match read_loaded(alloc, harts_of(work), bytes)? {
        Ok(loaded) => Ok(answer_loaded(alloc, work, &loaded)?),
        Err(response) => Ok(response),
    }
}
