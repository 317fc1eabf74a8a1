//! All workers on threads.

ghost use Rattle.std.specs.Prelude.{◌≡◌, ℕ, Err, IfOk};
ghost use Rattle.core_model.specs.KernelWords as definition;
ghost use Rattle.core_model.specs.Loaded.{IsLoaded};
ghost use Rattle.hart_runner.specs.Finishing.{IsFinished, IsUnfinished};
ghost use Rattle.hart_runner.specs.Places.{IsReadyPlace, IsServedPlace, IsOfBundle};
ghost use Rattle.hart_runner.specs.declared.unfinished.Unfinished.TheVariants.{Retired};

use crate::board::CoreBoard;
use crate::closing::{close, finish};
use crate::finished::Finished;
use crate::opening::{empty_rooms, places};
use crate::place::{Ended, Place, Start};
use crate::unfinished::Unfinished;
use crate::work::worker;
use core_model::Loaded;
use io_edge::Gate;
use kernel_core::board_at_boot;
use std::alloc::Global;
use std::snapshot::Snapshot;
use std::sync::Wait;
use std::thread;
use std::thread::Threads;
use switch_emit::kernel_code;
use turn_lock::Turns;

/// The most harts, each of which has a thread.
const MOST_HARTS: usize = 8;

/// Runs a loaded bundle with a worker on a thread for each hart, and gives the core after it with a receipt of each worker. The order that the
/// workers' turns made is legal and no longer than the bound of the bundle, all tasks have ended, and the core is that of the order's coarse run.
///
/// The gate is called before each turn, as for [`worker`](crate::worker).
///
/// # Errors
///
/// Both are want of memory. A worker that has none ends with nothing in its hands, and the others go on; where none goes on and a task hasn't
/// ended, `Retired` names the first such worker. Without one all tasks have ended. Between the first turn and the last the board's order alone
/// takes memory; `Memory` is want of it before or after that.
pub fn run_threads<R: Threads + Wait + Sync, G: Gate>(
    rt: &R,
    alloc: Global,
    gate: &G,
    loaded: &Loaded,
) -> Result<Finished, Unfinished>
    requires loaded { IsLoaded loaded.now }
    ensures finished { IfOk result (IsFinished loaded.now) }
    ensures retired { (hart : ℕ) → result ≡ Err (Retired hart) → IsUnfinished loaded.now hart }
{
    let kernel = kernel_code(alloc)?;
    let board = CoreBoard(board_at_boot(alloc, loaded)?);
    let (turns, passes) = Turns::new(alloc, board, Snapshot::of(loaded), loaded.harts)?;
    let (lock, code) = (&turns, &kernel);
    let mut places = places(alloc, lock, loaded, passes)?;
    let rooms = empty_rooms(alloc, places.len())?;
    thread::for_each_mut(
        rt,
        places.as_mut_slice(),
        MOST_HARTS,
        &|_, place: &mut Place|
            requires { (code.now ≡ definition.kernel_code) × IsOfBundle lock.now place.now.number × IsReadyPlace lock.now place.now }
            ensures { IsServedPlace lock.entry.now place.entry.now.number place.exit.now }
        {
            if let Some(start) = place.start.take() {
                let Start { pace, pass } = start;
                let (hart, tally, pass, receipt) = worker(
                    rt,
                    gate,
                    lock,
                    code,
                    place.number,
                    pace,
                    pass,
                );
                place.ended = Some(Ended {
                    hart,
                    tally,
                    pass,
                    receipt,
                });
            }
        },
    );
    finish(alloc, loaded, close(turns, places, rooms))
}
