//! How tasks move between the lists of a board.

ghost use Rattle.std.specs.Prelude.{◌≡◌, ◌+◌, ◌<◌, ◌++◌, ◌∷◌, [], drop, length, vec_len, vec_capacity, All, IsSome, IfSome};
ghost use Rattle.hart_model.specs.Context.{done_of, IsScrubbed};
ghost use Rattle.core_model.specs.Board.{all_ready, out_without};
ghost use Rattle.context_slot.specs.Fresh.{IsFresh, HasBlankRegisters};
ghost use Rattle.ready_queue.specs.Admitted.{with_next};

use crate::entry::Entry;
use crate::ready::Ready;
use context_slot::{Body, Context, Done, SlotWords};
use std::collections::VecDeque;

/// The first waiting task, if there is one, goes to the back of the ready contexts of its band, in a slot that is free.
pub(crate) fn admit_next(
    waiting: &mut VecDeque<Body>,
    ready: &mut Ready,
    slot: u32,
    words: SlotWords,
)
    requires room { length (all_ready ready.old.lists) < ready.old.room }
    requires slot { slot < 8 }
    requires registers { HasBlankRegisters words }
    requires fresh { All IsFresh waiting.old.items }
    ensures waiting { waiting.new.items ≡ drop 1 waiting.old.items }
    ensures ready { ready.new ≡ record ready.old { lists = with_next ready.old.bands ready.old.lists waiting.old.items slot words } }
{
    match waiting.pop_front() {
        Some(body) => ready.push(Context::admit(body, slot, words)),
        None => {}
    }
}

/// A context whose task has ended goes to the ended tasks, and its slot to the first waiting task.
pub(crate) fn end_task(
    waiting: &mut VecDeque<Body>,
    ready: &mut Ready,
    ended: &mut Vec<Done>,
    context: Context,
)
    requires room { length (all_ready ready.old.lists) < ready.old.room }
    requires ended_room { vec_len ended.old < vec_capacity ended.old }
    requires fresh { All IsFresh waiting.old.items }
    requires end { IsSome context.end }
    requires scrubbed { IsScrubbed context }
    ensures waiting { waiting.new.items ≡ drop 1 waiting.old.items }
    ensures ready { ready.new ≡ record ready.old { lists = with_next ready.old.bands ready.old.lists waiting.old.items context.slot context.words } }
    ensures ended { IfSome context.end (λ end. ended.new.items ≡ ended.old.items ++ done_of context end ∷ []) }
    ensures ended_len { vec_len ended.new ≡ vec_len ended.old + 1 }
    ensures ended_room { vec_capacity ended.new ≡ vec_capacity ended.old }
{
    let slot = context.slot();
    let (done, words) = context.retire();
    ended.push_reserved(done);
    admit_next(waiting, ready, slot, words);
}

/// What is out on this hart isn't any more.
pub(crate) fn take_back(out: &mut Vec<Entry>, hart: u32)
    ensures out { out.new.items ≡ out_without hart out.old.items }
    ensures room { vec_capacity out.new ≡ vec_capacity out.old }
{
    out.retain(|entry| entry.hart() != hart);
}
