//! The contexts that are ready.

ghost use Rattle.std.specs.Prelude.{◌≡◌, ◌≢◌, ◌↔◌, ◌<◌, ◌≤◌, [], length, get_or, slice_get, find, option_map, All, IsNone, IfOk, ◌==◌};
ghost use Rattle.std.specs.Option.{option_copied};
ghost use Rattle.core_model.specs.Board.{all_ready, by_bands, with_ready};
ghost use Rattle.ready_queue.specs.BoardLists.{ready_list};
ghost use Rattle.ready_queue.specs.ReadyView.{next_of};

use circular_buffer::HeapCircularBuffer;
use context_slot::Context;
use std::alloc::{AllocError, Global};
use std::marker::Model;

/// The ready contexts of each band, each band in a ring with room for all slots, and the band of each task. No ring is ever full when
/// a context comes, since what is ready and what is out are together no more than the slots.
#[derive(Debug, Drop)]
pub(crate) struct Ready {
    first: HeapCircularBuffer<Context>,
    second: HeapCircularBuffer<Context>,
    bands: Vec<u32>,
}

impl Model for Ready {
    ghost use Rattle.std.specs.Prelude.{◌≡◌};
    ghost use Rattle.ready_queue.specs.ReadyView.{ReadyView};

    ghost Value = { ReadyView };

    ghost view = { λ r. record {
      lists = record { first = r.first.items; second = r.second.items };
      bands = r.bands.items;
      room = r.first.capacity;
    } };

    ghost invariant = { λ r. r.second.capacity ≡ r.first.capacity };
}

impl Ready {
    /// No contexts, with room for so many, and the bands of the tasks. `AllocError` is want of memory.
    pub(crate) fn new(alloc: Global, room: usize, bands: Vec<u32>) -> Result<Ready, AllocError>
        ensures ready { IfOk result (λ r. r ≡ record { lists = record { first = []; second = [] }; bands = bands.items; room = room }) }
    {
        Ok(Ready {
            first: HeapCircularBuffer::with_capacity(alloc, room)?,
            second: HeapCircularBuffer::with_capacity(alloc, room)?,
            bands,
        })
    }

    /// These contexts in their order, each in the list of its band, with room for so many, and the bands of the tasks. `AllocError` is
    /// want of memory.
    pub(crate) fn again(
        alloc: Global,
        room: usize,
        contexts: Vec<Context>,
        bands: Vec<u32>,
    ) -> Result<Ready, AllocError>
        requires room { length contexts.items ≤ room }
        ensures ready { IfOk result (λ r. r ≡ record { lists = by_bands bands.items contexts.items; bands = bands.items; room = room }) }
    {
        let mut ready = Ready::new(alloc, room, bands)?;
        for context in contexts {
            ready.push(context);
        }
        Ok(ready)
    }

    /// Whether a task is of band 0, by its number.
    fn goes_first(&self, task: u32) -> bool
        ensures first { result ≡ (get_or self.now.bands task 0 == 0) }
    {
        let band = self.bands.as_slice().get(task as usize).copied();
        band.unwrap_or(0) == 0
    }

    /// The context goes to the back of its task's band.
    pub(crate) fn push(&mut self, context: Context)
        requires room { length (all_ready self.old.lists) < self.old.room }
        ensures ready { self.new ≡ record self.old { lists = with_ready self.old.bands self.old.lists context } }
    {
        if self.goes_first(context.body().task_no()) {
            self.first.try_push_back(context).unwrap();
        } else {
            self.second.try_push_back(context).unwrap();
        }
    }

    /// The context that is taken next.
    pub(crate) fn pop(&mut self) -> Option<Context>
        ensures context { result ≡ (next_of self.old).0 }
        ensures left { self.new ≡ (next_of self.old).1 }
    {
        match self.first.pop_front() {
            Some(context) => Some(context),
            None => self.second.pop_front(),
        }
    }

    /// The number of the task at a place of the list of band 0 or 1; None exactly past its end.
    pub(crate) fn task_at(&self, band: u32, i: u32) -> Option<u32>
        requires band { band ≤ 1 }
        ensures at { result ≡ option_map (λ c. c.body.task_no) (slice_get (ready_list band self.now.lists) i) }
    {
        let list = if band == 0 { &self.first } else { &self.second };
        list.get(i as usize).map(|context| context.body().task_no())
    }

    /// The context of a task, by its number; None exactly where it isn't ready.
    pub(crate) fn find(&self, task: u32) -> Option<&Context>
        ensures context { option_copied result ≡ find (λ c. c.body.task_no == task) (all_ready self.now.lists) }
        ensures none { IsNone result ↔ All (λ c. c.body.task_no ≢ task) (all_ready self.now.lists) }
    {
        match find_in(&self.first, task) {
            Some(context) => Some(context),
            None => find_in(&self.second, task),
        }
    }
}

/// The context of a task in one of the lists, by its number; None exactly where it isn't there.
fn find_in(list: &HeapCircularBuffer<Context>, task: u32) -> Option<&Context>
    ensures context { option_copied result ≡ find (λ c. c.body.task_no == task) list.now.items }
    ensures none { IsNone result ↔ All (λ c. c.body.task_no ≢ task) list.now.items }
{
    list.iter().find(|context| context.body().task_no() == task)
}
