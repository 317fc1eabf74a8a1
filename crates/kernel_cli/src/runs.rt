//! The work over a bundle on threads, one for each hart.

ghost use Rattle.std.specs.Prelude.{◌≡◌, ◌≤◌, length, IfOk};
ghost use Rattle.core_model.specs.Loaded.{IsLoaded};
ghost use Rattle.hart_runner.specs.Finishing.{IsFinished};
ghost use Rattle.kernel_cli.specs.Outcome.{IsAnswerByThreads, IsAnswerOver};
ghost use Rattle.kernel_cli.specs.Replays.{order_report};
ghost use Rattle.kernel_cli.specs.Works.{text_limit, HasCounts};
ghost use Rattle.kernel_cli.specs.declared.work.Work.TheVariants as works;

use crate::answer::{Response, done};
use crate::bundles::read_loaded;
use crate::work::{ThreadWork, threads_of};
use hart_runner::{Finished, run_threads};
use io_edge::Gate;
use report_text::report;
use rv_loader::Loaded;
use std::alloc::{AllocError, Global};
use std::sync::Wait;
use std::thread::Threads;

/// The text of `run`, where the harts have run the bundle to its end.
fn run_text(alloc: Global, loaded: &Loaded, finished: &Finished) -> Result<Vec<u8>, AllocError>
    requires finished { IsFinished loaded.now finished.now }
    ensures text { IfOk result (λ text. text.items ≡ order_report loaded.now finished.now.snapshot.order) }
{
    let _ = loaded;
    report(alloc, &finished.snapshot)
}

/// The answer to a work over a loaded bundle. Before each turn of a hart the gate is called.
fn answer_by_threads<R: Threads + Wait + Sync, G: Gate>(
    rt: &R,
    alloc: Global,
    gate: &G,
    work: ThreadWork,
    loaded: &Loaded,
) -> Result<Response, AllocError>
    requires loaded { IsLoaded loaded.now }
    ensures answer { IfOk result (IsAnswerByThreads work loaded.now) }
{
    match work {
        ThreadWork::Run { .. } => match run_threads(rt, alloc, gate, loaded) {
            Ok(finished) => Ok(done(run_text(alloc, loaded, &finished)?)),
            Err(_) => Err(AllocError),
        },
    }
}

/// The answer to a work over an input within its limit. Before each turn of a hart the gate is called.
pub(crate) fn answer_on_threads<R: Threads + Wait + Sync, G: Gate>(
    rt: &R,
    alloc: Global,
    gate: &G,
    work: ThreadWork,
    bytes: &[u8],
) -> Result<Response, AllocError>
    requires limit { length bytes.now ≤ text_limit }
    requires counts { HasCounts (works.Threads work) }
    ensures answer { IfOk result (IsAnswerOver (works.Threads work) bytes.now) }
{
    match read_loaded(alloc, threads_of(work), bytes)? {
        Ok(loaded) => Ok(answer_by_threads(rt, alloc, gate, work, &loaded)?),
        Err(response) => Ok(response),
    }
}
