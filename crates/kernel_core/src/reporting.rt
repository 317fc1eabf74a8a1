//! A core as it is reported.

ghost use Rattle.std.specs.Prelude.{◌≡◌, ◌<◌, ◌^◌, length, slice_get, option_map, IfOk};
ghost use Rattle.kernel_core.specs.Snapshots.{waiting_state, live_state, ended_state, state_of_context, held_by, state_of, states_from, snapshot_of};
ghost use Rattle.resume_laws.specs.Parts.{core_of_parts};
ghost use Rattle.kernel_core.specs.SnapshotNow.{snapshot_from, snapshot_now};
ghost use Rattle.kernel_core.specs.History.{History, IsCoreOf, core_of};

use crate::run::Run;
use crate::snapshot::{Snapshot, TaskState};
use crate::whole_core::Core;
use core_model::{Home, Items};
use hart_state::Hart;
use isa_model::Words;
use probe_log::{Keeper, Tally};
use ready_queue::{Board, Body, Context, Done};
use std::alloc::{AllocError, Global};

/// A task that hasn't begun.
fn waiting(alloc: Global) -> TaskState
    ensures state { result ≡ waiting_state }
{
    TaskState {
        home: Home::Waiting,
        count: 0,
        output: Words::new(Vec::new(alloc)),
        end: None,
    }
}

/// A task that goes on, at its home.
fn live(alloc: Global, home: Home, body: &Body) -> Result<TaskState, AllocError>
    ensures state { IfOk result (λ state. state ≡ live_state home body.now) }
{
    Ok(TaskState {
        home,
        count: body.count(),
        output: Words::new(Vec::from_slice(alloc, body.output())?),
        end: None,
    })
}

/// A task that has ended.
fn ended(alloc: Global, done: &Done) -> Result<TaskState, AllocError>
    ensures state { IfOk result (λ state. state ≡ ended_state done.now) }
{
    Ok(TaskState {
        home: Home::Ended,
        count: done.count(),
        output: Words::new(Vec::from_slice(alloc, done.output())?),
        end: Some(done.end()),
    })
}

/// The task of a context, if there is one.
fn of_context(alloc: Global, home: Home, context: Option<&Context>) -> Result<TaskState, AllocError>
    ensures state { IfOk result (λ state. state ≡ state_of_context home (option_map (λ c. c.now) context.entry)) }
{
    match context {
        Some(context) => live(alloc, home, context.body()),
        None => Ok(waiting(alloc)),
    }
}

/// The context that a hart holds, if there is such a hart and it holds one.
fn context_on(harts: &[Hart], hart: u32) -> Option<&Context>
    ensures held { option_map (λ c. c.now) result ≡ held_by (slice_get harts.now hart) }
{
    match harts.get(hart as usize) {
        Some(hart) => hart.held(),
        None => None,
    }
}

/// A task by its number.
fn state(alloc: Global, board: &Board, harts: &[Hart], task: u32) -> Result<TaskState, AllocError>
    ensures state { IfOk result (λ state. state ≡ state_of (core_of_parts board.now.lists harts.now) task) }
{
    match board.home(task) {
        None => Ok(waiting(alloc)),
        Some(Home::Waiting) => Ok(waiting(alloc)),
        Some(Home::Slot(slot)) => of_context(alloc, Home::Slot(slot), board.ready(task)),
        Some(Home::Hart { hart, slot }) => {
            of_context(alloc, Home::Hart { hart, slot }, context_on(harts, hart))
        }
        Some(Home::Ended) => match board.done(task) {
            Some(done) => ended(alloc, done),
            None => Ok(waiting(alloc)),
        },
    }
}

/// So many tasks, from number 0 on.
fn states(
    alloc: Global,
    board: &Board,
    harts: &[Hart],
    count: u32,
) -> Result<Vec<TaskState>, AllocError>
    ensures states { IfOk result (λ states. states.items ≡ states_from (core_of_parts board.now.lists harts.now) 0 count) }
{
    let mut states = Vec::new(alloc);
    let mut task = 0;
    while task < count {
        states.push(state(alloc, board, harts, task)?)?;
        task += 1;
    }
    Ok(states)
}

/// A board and harts as they are reported, with so many tasks and with these counts: the homes, counts, outputs and ends of the tasks and the
/// order of the queue actions. A task's end is there exactly where its home is `Ended`. `AllocError` is want of memory.
pub fn snapshot_of_parts(
    alloc: Global,
    board: &Board,
    harts: &[Hart],
    tasks: u32,
    tally: Tally,
) -> Result<Snapshot, AllocError>
    requires few { length harts.now < 2 ^ 32 }
    ensures snapshot { IfOk result (λ s. s ≡ snapshot_from board.now.lists harts.now tasks tally) }
{
    Ok(Snapshot {
        harts: harts.len() as u32,
        order: Items::new(Vec::from_slice(alloc, board.order())?),
        tasks: Items::new(states(alloc, board, harts, tasks)?),
        tally,
    })
}

impl Run {
    /// The number of harts.
    fn hart_count(&self) -> u32
        ensures count { result ≡ length self.now.harts }
    {
        self.harts.len() as u32
    }

    /// The board and the harts.
    fn shown(&self, alloc: Global, tasks: u32, tally: Tally) -> Result<Snapshot, AllocError>
        ensures shown { IfOk result (λ s. s ≡ snapshot_from self.now.board.lists self.now.harts tasks tally) }
    {
        let _count = self.hart_count(); // a number of 32 bits
        snapshot_of_parts(alloc, &self.board, self.harts.as_slice(), tasks, tally)
    }
}

impl<K: Keeper> Core<K> {
    /// The core as it is, by its own lists.
    fn shown(&self, alloc: Global) -> Result<Snapshot, AllocError>
        ensures shown { IfOk result (λ s. s ≡ snapshot_now self.now) }
    {
        self.run.shown(alloc, self.tasks, self.log.tally())
    }

    /// The core as it is: the homes, counts, outputs and ends of its tasks, the order of the queue actions, and the counts of the log since
    /// the core was made. A task's end is there exactly where its home is `Ended`. `AllocError` is want of memory.
    pub fn snapshot(&self, alloc: Global) -> Result<Snapshot, AllocError>
        ensures snapshot { IfOk result (λ s. s ≡ snapshot_now self.now) }
        ensures told { (t : History) → IsCoreOf t self.now → snapshot_now self.now ≡ snapshot_of (length t.loaded.tasks) (core_of t) }
    {
        self.shown(alloc)
    }
}
