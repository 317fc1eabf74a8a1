//! The verdict on the first task of a bundle, in the bundle's worlds, by one probe and by two.

ghost use Rattle.std.specs.Prelude.{◌≡◌, ◌≢◌, Ok, Err, IfOk};
ghost use Rattle.core_model.specs.Loaded.{IsLoaded};
ghost use Rattle.probing_laws.specs.declared.verdict.CertFault.TheVariants as faults;
ghost use Rattle.probing_laws.specs.declared.verdict_two.TwoFault.TheVariants as two_faults;
ghost use Rattle.kernel_cli.specs.Outcome.{status_of, IsAnswer, IsAnswerIn};
ghost use Rattle.kernel_cli.specs.Verdicts.{verdict_answer, verdict_two_answer};
ghost use Rattle.kernel_cli.specs.declared.work.BundleWork.TheVariants as bundles;

use crate::answer::{Outcome, Response};
use probe_inspect::{CertFault, Verdict, certify};
use probe_order::certify_two;
use probing_laws::{TwoFault, VerdictTwo};
use report_text::{cert_fault_text, two_fault_text, verdict_text, verdict_two_text};
use rv_loader::Loaded;
use std::alloc::{AllocError, Global};

/// What came of a task that is judged.
fn verdict_outcome(verdict: &Verdict) -> Outcome
    ensures outcome { status_of result ≡ (verdict_answer (Ok verdict.now)).status }
{
    match verdict {
        Verdict::Secure { .. } => Outcome::Fine,
        Verdict::Leak { .. } => Outcome::Verdict,
    }
}

/// What came of a task that isn't judged, but for want of memory.
fn fault_outcome(fault: &CertFault) -> Outcome
    ensures outcome { status_of result ≡ (verdict_answer (Err fault.now)).status }
{
    match fault {
        CertFault::ControlDiffers { .. } => Outcome::Verdict,
        CertFault::NoWorlds => Outcome::BadInput,
        CertFault::TooMuch { .. } => Outcome::BadInput,
        CertFault::Uneven { .. } => Outcome::BadInput,
        CertFault::Memory => Outcome::BadInput,
    }
}

/// The answer to what is judged of a task.
fn answer_judgement(
    alloc: Global,
    judgement: Result<Verdict, CertFault>,
) -> Result<Response, AllocError>
    ensures answer { IfOk result (λ response. IsAnswer response (verdict_answer judgement)) }
    ensures judged { IfOk result (λ response. judgement ≢ Err faults.Memory) }
{
    match judgement {
        Ok(verdict) => Ok(Response {
            outcome: verdict_outcome(&verdict),
            text: verdict_text(alloc, &verdict)?,
        }),
        Err(CertFault::Memory) => Err(AllocError),
        Err(fault) => Ok(Response {
            outcome: fault_outcome(&fault),
            text: cert_fault_text(alloc, &fault)?,
        }),
    }
}

/// The answer to `certify` over a loaded bundle.
pub(crate) fn answer_certify(alloc: Global, loaded: &Loaded) -> Result<Response, AllocError>
    requires loaded { IsLoaded loaded.now }
    ensures answer { IfOk result (IsAnswerIn bundles.Certify loaded.now) }
{
    let task = &loaded.tasks.as_slice()[0];
    let judgement = certify(alloc, task, loaded.worlds.as_slice());
    Ok(answer_judgement(alloc, judgement)?)
}

/// What came of a task that is judged by two probes.
fn verdict_two_outcome(verdict: &VerdictTwo) -> Outcome
    ensures outcome { status_of result ≡ (verdict_two_answer (Ok verdict.now)).status }
{
    match verdict {
        VerdictTwo::Secure { .. } => Outcome::Fine,
        VerdictTwo::One(_) => Outcome::Verdict,
        VerdictTwo::Leak { .. } => Outcome::Verdict,
    }
}

/// The answer to what is judged of a task by two probes.
fn answer_judgement_by_two(
    alloc: Global,
    judgement: Result<VerdictTwo, TwoFault>,
) -> Result<Response, AllocError>
    ensures answer { IfOk result (λ response. IsAnswer response (verdict_two_answer judgement)) }
    ensures judged { IfOk result (λ response. judgement ≢ Err two_faults.Memory) }
{
    match judgement {
        Ok(verdict) => Ok(Response {
            outcome: verdict_two_outcome(&verdict),
            text: verdict_two_text(alloc, &verdict)?,
        }),
        Err(TwoFault::Cert(fault)) => Ok(answer_judgement(alloc, Err(fault))?),
        Err(TwoFault::Memory) => Err(AllocError),
        Err(fault) => Ok(Response {
            outcome: Outcome::BadInput,
            text: two_fault_text(alloc, &fault)?,
        }),
    }
}

/// The answer to `certify 2` over a loaded bundle.
pub(crate) fn answer_certify_two(alloc: Global, loaded: &Loaded) -> Result<Response, AllocError>
    requires loaded { IsLoaded loaded.now }
    ensures answer { IfOk result (IsAnswerIn bundles.CertifyTwo loaded.now) }
{
    let task = &loaded.tasks.as_slice()[0];
    let judgement = certify_two(alloc, task, loaded.worlds.as_slice());
    Ok(answer_judgement_by_two(alloc, judgement)?)
}
