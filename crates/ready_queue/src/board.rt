//! The board.

ghost use Rattle.std.specs.Prelude.{◌≡◌, ◌+◌, ◌<◌, ◌≤◌, ◌↔◌, [], length, slice_get, option_map, All, IsNone, IsOk, IfOk, IfSome, OnOk, OnErr};
ghost use Rattle.std.specs.Option.{option_copied};
ghost use Rattle.core_model.specs.Board.{HasSpareForOut, all_ready, by_bands, boot_board, take_of, give_ready_of, give_done_of};
ghost use Rattle.core_model.specs.Bands.{AreInTheirBands};
ghost use Rattle.core_model.specs.Homes.{waiting_home, slot_home, hart_home, ended_home, home_of};
ghost use Rattle.ready_queue.specs.declared.kind.Kind.{Kind};
ghost use Rattle.ready_queue.specs.Bodies.{AreFreshFrom};
ghost use Rattle.ready_queue.specs.BoardLists.{AreListsOf, ready_list};
ghost use Rattle.ready_queue.specs.Gives.{HasNothingOut, IsOutOn, CanBeGiven};
ghost use Rattle.ready_queue.specs.Tasks.{waiting_body, ready_context, entry_of, ended_task, IsNotWaiting, IsNotReady, IsNotOut, HasNotEnded, IsNoTask};

use crate::entry::Entry;
use crate::kind::Kind;
use crate::moves::{admit_next, end_task, take_back};
use crate::ready::Ready;
use context_slot::{Body, Context, Done, slot_words};
use core_model::Home;
use std::alloc::{AllocError, Global};
use std::collections::VecDeque;
use std::marker::Model;

/// What the queue keeps of all tasks: those that wait for a slot, the contexts that are ready, what is out on harts, the ended tasks,
/// and the order, which is the number of the hart of every action so far. Contracts see these lists, and the spare: for how many more
/// actions the order has room. There is always enough to give back all that is out.
#[derive(Debug, Drop)]
pub struct Board {
    waiting: VecDeque<Body>,
    ready: Ready,
    out: Vec<Entry>,
    ended: Vec<Done>,
    order: Vec<u8>,
}

impl Model for Board {
    ghost use Rattle.std.specs.Prelude.{◌-◌, vec_len, vec_capacity};
    ghost use Rattle.core_model.specs.Board.{BoardWithSpare};
    ghost use Rattle.ready_queue.specs.HasRoom.{HasRoom};

    ghost Value = { BoardWithSpare };

    ghost view = { λ b. record {
      lists = record {
        waiting = b.waiting.items;
        ready = b.ready.lists;
        out = b.out.items;
        ended = b.ended.items;
        order = b.order.items;
        bands = b.ready.bands;
      };
      spare = vec_capacity b.order - vec_len b.order;
    } };

    ghost invariant = { λ b. HasRoom (record {
      waiting = b.waiting.items;
      ready = b.ready.lists;
      out = b.out.items;
      ended = b.ended.items;
      order = b.order.items;
      bands = b.ready.bands;
    }) (record {
      ready = b.ready.room;
      out = vec_capacity b.out;
      ended = vec_capacity b.ended;
      order = vec_capacity b.order;
    }) };
}

impl Board {
    /// A board at boot: task t is ready in slot t for as many slots as there are, 1 to 8, and the others wait in their order. There are
    /// 1 to 32 tasks, whose numbers count up from 0, each at its start, and a band for each, 0 or 1. `AllocError` is want of memory.
    pub fn boot(
        alloc: Global,
        slots: u32,
        bodies: Vec<Body>,
        bands: Vec<u32>,
    ) -> Result<Board, AllocError>
        requires slots_least { 1 ≤ slots }
        requires slots_limit { slots ≤ 8 }
        requires tasks_least { 1 ≤ length bodies.items }
        requires tasks_limit { length bodies.items ≤ 32 }
        requires fresh { AreFreshFrom 0 bodies.items }
        requires band_each { length bands.items ≡ length bodies.items }
        requires bands { All (λ band. band ≤ 1) bands.items }
        ensures lists { IfOk result (λ b. b.lists ≡ boot_board slots bodies.items bands.items) }
        ensures spare { IfOk result HasSpareForOut }
    {
        let tasks = bodies.len();
        let filled = slots.min(tasks as u32);
        let mut waiting = VecDeque::from_vec(bodies);
        let mut ready = Ready::new(alloc, slots as usize, bands)?;
        for slot in 0..filled {
            admit_next(&mut waiting, &mut ready, slot, slot_words(alloc)?);
        }
        Ok(Board {
            waiting,
            ready,
            out: Vec::with_capacity(alloc, slots as usize)?,
            ended: Vec::with_capacity(alloc, tasks)?,
            order: Vec::new(alloc),
        })
    }

    /// The board that has just these lists, with nothing out: each band's ready list is its contexts of `ready` in their order. There
    /// are 1 to 8 slots and 1 to 32 tasks, whose numbers are those from 0 on, each once, and a band for each, 0 or 1. What waits is at
    /// its start. Each context stands for its task, without an end, in a slot of its own. `AllocError` is want of memory.
    pub fn again(
        alloc: Global,
        slots: u32,
        waiting: Vec<Body>,
        ready: Vec<Context>,
        ended: Vec<Done>,
        bands: Vec<u32>,
        order: Vec<u8>,
    ) -> Result<Board, AllocError>
        requires parts { AreListsOf slots waiting.items ready.items ended.items bands.items }
        ensures lists { IfOk result (λ b. b.lists ≡ record {
          waiting = waiting.items;
          ready = by_bands bands.items ready.items;
          out = [];
          ended = ended.items;
          order = order.items;
          bands = bands.items;
        }) }
        ensures bands { IfOk result (λ b. AreInTheirBands b.lists) }
        ensures spare { IfOk result HasSpareForOut }
    {
        let mut ended = ended;
        ended.reserve(waiting.len() + ready.len())?;
        Ok(Board {
            waiting: VecDeque::from_vec(waiting),
            ready: Ready::again(alloc, slots as usize, ready, bands)?,
            out: Vec::with_capacity(alloc, slots as usize)?,
            ended,
            order,
        })
    }

    /// Makes the spare at least `n`, and changes nothing else; Ok where it is that much already. `AllocError` is want of memory.
    pub fn reserve(&mut self, n: u64) -> Result<(), AllocError>
        ensures ok { OnOk result (n ≤ self.new.spare) }
        ensures err { OnErr result (self.new ≡ self.old) }
        ensures enough { n ≤ self.old.spare → IsOk result }
        ensures lists { self.new.lists ≡ self.old.lists }
        ensures grows { self.old.spare ≤ self.new.spare }
        ensures spare { HasSpareForOut self.new }
    {
        self.order.reserve(n as usize)
    }

    /// Makes the spare at least two more than the number of contexts that are out, and changes nothing else; Ok where it is that much
    /// already. `AllocError` is want of memory.
    pub fn reserve_two(&mut self) -> Result<(), AllocError>
        ensures ok { OnOk result (length self.new.lists.out + 2 ≤ self.new.spare) }
        ensures err { OnErr result (self.new ≡ self.old) }
        ensures enough { length self.old.lists.out + 2 ≤ self.old.spare → IsOk result }
        ensures lists { self.new.lists ≡ self.old.lists }
        ensures grows { self.old.spare ≤ self.new.spare }
        ensures spare { HasSpareForOut self.new }
    {
        self.order.reserve(self.out.len() + 2)
    }

    /// The front of the ready contexts of band 0, or where there is none that of band 1, which is out on this hart from then on; None
    /// exactly where none is ready. The hart's number is below 8, it has nothing out, and the spare is at least two more than the number
    /// of contexts that are out. Takes no memory.
    pub fn take(&mut self, hart: u32) -> Option<Context>
        requires hart { hart < 8 }
        requires nothing_out { HasNothingOut self.old.lists hart }
        requires spare { length self.old.lists.out + 2 ≤ self.old.spare }
        ensures lists { self.new.lists ≡ (take_of self.old.lists hart).board }
        ensures got { result ≡ (take_of self.old.lists hart).got }
        ensures none { IsNone result ↔ (all_ready self.old.lists.ready ≡ []) }
        ensures out { IfSome result (λ context. IsOutOn self.new.lists hart context) }
        ensures used { self.new.spare + 1 ≡ self.old.spare }
        ensures spare { HasSpareForOut self.new }
    {
        self.order.push_reserved(hart as u8);
        match self.ready.pop() {
            Some(context) => {
                let entry = Entry::new(context.body().task_no(), hart, context.slot());
                self.out.push_reserved(entry);
                Some(context)
            }
            None => None, // an action all the same
        }
    }

    /// Gives back what is out on this hart. A ready context stands for its task, which hasn't ended, and goes to the back of the ready
    /// ones of its band. A done one has an end and a scrubbed slot: its task goes to the ended ones, and its slot to the first waiting
    /// task, which joins the back of the ready ones of its own band. Takes no memory.
    pub fn give(&mut self, hart: u32, ctx: Context, kind: Kind)
        requires out { IsOutOn self.old.lists hart ctx }
        requires kind { CanBeGiven kind ctx }
        ensures ready { kind ≡ Kind.Ready → self.new.lists ≡ give_ready_of self.old.lists hart ctx }
        ensures done { kind ≡ Kind.Done → IfSome ctx.end (λ end. self.new.lists ≡ give_done_of self.old.lists hart ctx end) }
        ensures used { self.new.spare + 1 ≡ self.old.spare }
        ensures spare { HasSpareForOut self.new }
    {
        self.order.push_reserved(hart as u8);
        take_back(&mut self.out, hart);
        match kind {
            Kind::Ready => self.ready.push(ctx),
            Kind::Done => end_task(&mut self.waiting, &mut self.ready, &mut self.ended, ctx),
        }
    }

    /// Where a task is, by its number; None exactly for a number that no task has.
    pub fn home(&self, task: u32) -> Option<Home>
        ensures home { result ≡ home_of self.now.lists task }
        ensures none { IsNone result ↔ IsNoTask self.now.lists task }
    {
        if let Some(home) = self.waiting_home(task) {
            return Some(home);
        }
        if let Some(home) = self.slot_home(task) {
            return Some(home);
        }
        if let Some(home) = self.hart_home(task) {
            return Some(home);
        }
        self.ended_home(task)
    }

    /// The body of a task that waits; None exactly where it doesn't.
    fn waiting_body(&self, task: u32) -> Option<&Body>
        ensures body { option_copied result ≡ waiting_body self.now.lists task }
        ensures none { IsNone result ↔ IsNotWaiting self.now.lists task }
    {
        self.waiting.iter().find(|body| body.task_no() == task)
    }

    /// The entry of a task that is out; None exactly where it isn't.
    fn out_entry(&self, task: u32) -> Option<&Entry>
        ensures entry { option_copied result ≡ entry_of self.now.lists task }
        ensures none { IsNone result ↔ IsNotOut self.now.lists task }
    {
        self.out.iter().find(|entry| entry.task() == task)
    }

    /// The home of a task that waits; None exactly where it doesn't.
    fn waiting_home(&self, task: u32) -> Option<Home>
        ensures home { result ≡ waiting_home self.now.lists task }
        ensures none { IsNone result ↔ IsNotWaiting self.now.lists task }
    {
        match self.waiting_body(task) {
            Some(_body) => Some(Home::Waiting),
            None => None,
        }
    }

    /// The home of a task that is ready; None exactly where it isn't.
    fn slot_home(&self, task: u32) -> Option<Home>
        ensures home { result ≡ slot_home self.now.lists task }
        ensures none { IsNone result ↔ IsNotReady self.now.lists task }
    {
        match self.ready(task) {
            Some(context) => Some(Home::Slot(context.slot())),
            None => None,
        }
    }

    /// The home of a task that is out; None exactly where it isn't.
    fn hart_home(&self, task: u32) -> Option<Home>
        ensures home { result ≡ hart_home self.now.lists task }
        ensures none { IsNone result ↔ IsNotOut self.now.lists task }
    {
        match self.out_entry(task) {
            Some(entry) => Some(Home::Hart {
                hart: entry.hart(),
                slot: entry.slot(),
            }),
            None => None,
        }
    }

    /// The home of a task that has ended; None exactly where it hasn't.
    fn ended_home(&self, task: u32) -> Option<Home>
        ensures home { result ≡ ended_home self.now.lists task }
        ensures none { IsNone result ↔ HasNotEnded self.now.lists task }
    {
        match self.done(task) {
            Some(_done) => Some(Home::Ended),
            None => None,
        }
    }

    /// The number of the task at this place among those that wait, in their order; None exactly past their end.
    pub fn waiting_at(&self, i: u32) -> Option<u32>
        ensures at { result ≡ option_map (λ body. body.task_no) (slice_get self.now.lists.waiting i) }
    {
        self.waiting.get(i as usize).map(|body| body.task_no())
    }

    /// The number of the task at this place among the ready ones of band 0 or 1, in the order in which they are taken; None exactly past
    /// their end.
    pub fn ready_at(&self, band: u32, i: u32) -> Option<u32>
        requires band { band ≤ 1 }
        ensures at { result ≡ option_map (λ c. c.body.task_no) (slice_get (ready_list band self.now.lists.ready) i) }
    {
        self.ready.task_at(band, i)
    }

    /// The number of the task at this place among the ended ones, in the order in which they ended; None exactly past their end.
    pub fn ended_at(&self, i: u32) -> Option<u32>
        ensures at { result ≡ option_map (λ done. done.task_no) (slice_get self.now.lists.ended i) }
    {
        self.ended
            .as_slice()
            .get(i as usize)
            .map(|done| done.task())
    }

    /// The number of the hart of every action so far.
    pub fn order(&self) -> &[u8]
        ensures order { result.now ≡ self.now.lists.order }
    {
        self.order.as_slice()
    }

    /// An ended task, by its number; None exactly where that task hasn't ended.
    pub fn done(&self, task: u32) -> Option<&Done>
        ensures done { option_copied result ≡ ended_task self.now.lists task }
        ensures none { IsNone result ↔ HasNotEnded self.now.lists task }
    {
        self.ended.iter().find(|done| done.task() == task)
    }

    /// The context of a task that is ready, by its number; None exactly where that task isn't ready.
    pub fn ready(&self, task: u32) -> Option<&Context>
        ensures context { option_copied result ≡ ready_context self.now.lists task }
        ensures none { IsNone result ↔ IsNotReady self.now.lists task }
    {
        self.ready.find(task)
    }
}
