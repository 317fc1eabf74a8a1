//! The end of a run: what the workers left, put together.

ghost use Rattle.std.specs.Prelude.{◌≡◌, ◌≤◌, ◌^◌, ◌↔◌, ℕ, List, length, All, vec_len, IsTrue, IsSome, Some, Err, IfOk};
ghost use Rattle.hart_model.specs.declared.probe.Probe.{Probe as LogEntry};
ghost use Rattle.core_model.specs.Loaded.{IsLoaded};
ghost use Rattle.kernel_core.specs.declared.snapshot.TaskState.{TaskState as StateOfTask};
ghost use Rattle.probe_log.specs.Counts.{StandFor, total_of};
ghost use Rattle.turn_lock.specs.Passes.{lock_frame, lock_seats};
ghost use Rattle.hart_runner.specs.Finishing.{IsFinished, IsRetired, IsUnfinished};
ghost use Rattle.hart_runner.specs.Places.{AreServedPlaces};
ghost use Rattle.hart_runner.specs.Remains.{AreRemainsOf, AreTalliesOf, entries_of_harts};
ghost use Rattle.hart_runner.specs.Rooms.{HasRoomFor};
ghost use Rattle.hart_runner.specs.declared.unfinished.Unfinished.TheVariants.{Retired};

use crate::board::CoreBoard;
use crate::finished::Finished;
use crate::opening::Rooms;
use crate::place::{Ended, Place};
use crate::receipt::{Cause, Receipt};
use crate::remains::Remains;
use crate::unfinished::Unfinished;
use core_model::{Items, Loaded};
use kernel_core::{TaskState, snapshot_of_parts};
use probe_log::Tally;
use std::alloc::Global;
use turn_lock::Turns;

/// Ends the lock, whose workers have all ended, and puts together what they left. Takes no memory.
pub(crate) fn close(lock: Turns<CoreBoard>, places: Vec<Place>, rooms: Rooms) -> Remains
    requires loaded { IsLoaded (lock_frame lock).value }
    requires seats { lock_seats lock ≡ (lock_frame lock).value.harts }
    requires count { vec_len places ≡ lock_seats lock }
    requires served { AreServedPlaces lock places.items }
    requires room { HasRoomFor (vec_len places) rooms }
    ensures remains { AreRemainsOf (lock_frame lock).value result }
{
    let Rooms {
        mut harts,
        mut tallies,
        mut passes,
        mut receipts,
    } = rooms;
    for place in places {
        let Ended {
            hart,
            tally,
            pass,
            receipt,
        } = ended_of(place);
        harts.push_reserved(hart);
        tallies.push_reserved(tally);
        passes.push_reserved(pass);
        receipts.push_reserved(receipt);
    }
    let CoreBoard(board) = lock.close(passes);
    Remains {
        board,
        harts: Items::new(harts),
        tallies: Items::new(tallies),
        receipts: Items::new(receipts),
    }
}

/// What the worker of this place ended with.
fn ended_of(place: Place) -> Ended
    requires ended { IsSome place.ended }
    ensures ended { place.ended ≡ Some result }
{
    let Place {
        number: _,
        start: _,
        ended,
    } = place;
    match ended {
        Some(ended) => ended,
        None => unreachable!(),
    }
}

/// The counts of the entries of all harts together.
fn sum_of(tallies: &[Tally]) -> Tally
    requires few { length tallies.now ≤ 8 }
    requires small { All (λ tally. total_of tally ≤ 2 ^ 60) tallies.now }
    ensures sum { (log : List LogEntry) → AreTalliesOf log tallies.now → StandFor result (entries_of_harts (length tallies.now) log) }
{
    let mut sum = Tally::new();
    for tally in tallies {
        sum.add(tally);
    }
    sum
}

/// Whether all tasks have ended.
fn have_all_ended(tasks: &[TaskState]) -> bool
    ensures test { IsTrue result ↔ All (λ (task : StateOfTask). IsSome task.end) tasks.now }
{
    tasks.iter().all(|task| task.end.is_some())
}

/// The first hart whose worker had no memory for a take.
fn first_retired(receipts: &[Receipt]) -> u32
    requires few { length receipts.now ≤ 8 }
    requires some { (hart : ℕ) × IsRetired receipts.now hart }
    ensures retired { IsRetired receipts.now result }
{
    for hart in 0..receipts.len() {
        match receipts[hart].cause {
            Cause::Memory => return hart as u32,
            Cause::Empty => {}
        }
    }
    unreachable!()
}

/// The finished run of a bundle whose workers left this. Without memory for the snapshot there is none; nor is there where a task hasn't ended,
/// and then some worker had no memory for a take.
pub(crate) fn finish(alloc: Global, loaded: &Loaded, left: Remains) -> Result<Finished, Unfinished>
    requires loaded { IsLoaded loaded.now }
    requires remains { AreRemainsOf loaded.now left }
    ensures finished { IfOk result (IsFinished loaded.now) }
    ensures retired { (hart : ℕ) → result ≡ Err (Retired hart) → IsUnfinished loaded.now hart }
{
    let tally = sum_of(left.tallies.as_slice());
    let harts = left.harts.as_slice();
    let tasks = loaded.tasks.len() as u32;
    let snapshot = snapshot_of_parts(alloc, &left.board, harts, tasks, tally)?;
    if !have_all_ended(snapshot.tasks.as_slice()) {
        let hart = first_retired(left.receipts.as_slice());
        return Err(Unfinished::Retired { hart });
    }
    Ok(Finished {
        snapshot,
        receipts: left.receipts,
    })
}
