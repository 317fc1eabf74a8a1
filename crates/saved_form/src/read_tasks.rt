//! Reading what is saved of the tasks.

ghost use Rattle.std.specs.Prelude.{◌≡◌, [], ◌≤◌, ◌^◌, ◌*◌, length};
ghost use Rattle.std.specs.List.{list_any, sum_by};
ghost use Rattle.saved_form.specs.Fields.{field, items, made};
ghost use Rattle.saved_form.specs.Bounds.{known_by, room_by};
ghost use Rattle.saved_form.specs.Ranges.{up_to, has_slot, is_free_slot, is_fuel, is_end_word, word_count};
ghost use Rattle.saved_form.specs.Reading.{cell, context_from, context_parts, end_by, end, ended_from, ended_parts, progress, task};
ghost use Rattle.saved_form.specs.Answer.{Gives};

use crate::numbers::{Numbers, ReadError, passed};
use crate::saved::{Progress, SavedCell, SavedContext, SavedEnd, SavedTask};
use core_model::Items;
use isa_model::End;
use std::alloc::Global;

/// How many registers are saved, x1 to x31.
const REGISTERS: u32 = 31;

/// The greatest fuel.
const FUEL_MAX: u32 = 100_000;

/// The greatest bound of the queue's actions.
const ACTION_BOUND_MAX: u128 = 1_048_576;

/// How many words a task's code or its tape has at most.
const WORDS_MAX: usize = 4096;

/// How many words a task's output has at most.
const OUTPUT_MAX: usize = 4096;

/// How many data words a task has at most.
const DATA_MAX: usize = 1024;

/// What bounds the tasks: the quanta that all harts have left, and the numbers of tasks, harts and slots.
#[derive(Clone, Copy)]
pub(crate) struct Known {
    pub(crate) quanta: u128,
    pub(crate) tasks: u32,
    pub(crate) harts: u32,
    pub(crate) slots: u32,
}

/// What bounds how far a task is: the number of slots, the tasks before, its fuel, how long its output and its data may be, and its tape.
#[derive(Clone, Copy)]
struct Room<'a> {
    slots: u32,
    before: &'a [SavedTask],
    fuel: u32,
    out_max: u32,
    data_len: u32,
    tape: &'a [u32],
}

/// A cell.
fn cell(numbers: &mut Numbers) -> Result<SavedCell, ReadError>
    ensures value { Gives result numbers.new (cell [] numbers.old) }
{
    let step = numbers.any()?;
    let value = numbers.any()?;
    Ok(SavedCell { step, value })
}

/// So many cells.
fn cells(alloc: Global, count: u32, numbers: &mut Numbers) -> Result<Items<SavedCell>, ReadError>
    ensures value { Gives result numbers.new (items cell [] count numbers.old) }
{
    let mut found = Vec::new(alloc);
    for _index in 0..count {
        let cell = cell(numbers)?;
        found.push(cell)?;
    }
    Ok(Items::new(found))
}

/// Whether a task has this slot.
fn has_slot(slot: u32, progress: &Progress) -> bool
    ensures value { result ≡ has_slot slot progress.now }
{
    match progress {
        Progress::IsReady(context) => context.slot == slot,
        _ => false,
    }
}

/// Whether one of these tasks has this slot.
fn is_taken(slot: u32, tasks: &[SavedTask]) -> bool
    ensures value { result ≡ list_any (λ t. has_slot slot t.progress) tasks.now }
{
    tasks.iter().any(|task| has_slot(slot, &task.progress))
}

/// Whether there is this slot, and none of these tasks has it.
fn is_free_slot(slots: u32, before: &[SavedTask], slot: u32) -> bool
    ensures value { result ≡ is_free_slot slots before.now slot }
{
    slot < slots && !is_taken(slot, before)
}

/// A slot that there is, and that no task before has.
fn free_slot(slots: u32, before: &[SavedTask], numbers: &mut Numbers) -> Result<u32, ReadError>
    ensures value { Gives result numbers.new (field (is_free_slot slots before.now) numbers.old) }
{
    let at = numbers.at();
    let slot = numbers.any()?;
    passed(slot, at, is_free_slot(slots, before, slot))
}

/// How many instructions a task of this fuel has executed.
fn count(fuel: u32, numbers: &mut Numbers) -> Result<u32, ReadError>
    ensures value { Gives result numbers.new (field (up_to fuel) numbers.old) }
{
    numbers.up_to(fuel as usize)
}

/// What there is of a ready task.
fn context(alloc: Global, room: &Room, numbers: &mut Numbers) -> Result<SavedContext, ReadError>
    ensures value { Gives result numbers.new (made context_from (context_parts (room_by room.now)) numbers.old) }
{
    let slot = free_slot(room.slots, room.before, numbers)?;
    let count = count(room.fuel, numbers)?;
    let regs = cells(alloc, REGISTERS, numbers)?;
    let data_words = cells(alloc, room.data_len, numbers)?;
    let tape_at = numbers.up_to(room.tape.len())?;
    let output = numbers.counted_words(alloc, room.out_max as usize)?;
    let pc = numbers.any()?;
    Ok(SavedContext {
        slot,
        count,
        regs,
        data_words,
        tape_at,
        output,
        pc,
    })
}

/// How many words an end of this kind has.
fn word_count(kind: u32) -> u32
    ensures value { result ≡ word_count kind }
{
    match kind {
        0 => 1,
        1 => 2,
        2 => 1,
        _ => 0,
    }
}

/// A word of an end: any number where its kind has one, and else 0.
fn end_word(kind: u32, index: u32, numbers: &mut Numbers) -> Result<u32, ReadError>
    ensures value { Gives result numbers.new (field (is_end_word kind index) numbers.old) }
{
    let at = numbers.at();
    let word = numbers.any()?;
    passed(word, at, index < word_count(kind) || word == 0)
}

/// The end of a kind with its words.
fn end_by(kind: u32, first: u32, second: u32) -> End
    ensures value { result ≡ end_by kind first second }
{
    match kind {
        0 => End::Exited(first),
        1 => End::Faulted {
            cause: first,
            pc: second,
        },
        2 => End::BadCall(first),
        3 => End::TapeEnd,
        4 => End::OutFull,
        _ => End::OutOfSteps,
    }
}

/// How a task ended.
fn end(numbers: &mut Numbers) -> Result<End, ReadError>
    ensures value { Gives result numbers.new (end numbers.old) }
{
    let kind = numbers.up_to(5)?;
    let first = end_word(kind, 0, numbers)?;
    let second = end_word(kind, 1, numbers)?;
    Ok(end_by(kind, first, second))
}

/// What there is of a task that has ended.
fn ended(alloc: Global, room: &Room, numbers: &mut Numbers) -> Result<SavedEnd, ReadError>
    ensures value { Gives result numbers.new (made ended_from (ended_parts (room_by room.now)) numbers.old) }
{
    let count = count(room.fuel, numbers)?;
    let end = end(numbers)?;
    let output = numbers.counted_words(alloc, room.out_max as usize)?;
    Ok(SavedEnd { count, end, output })
}

/// How far a task is.
fn progress(alloc: Global, room: &Room, numbers: &mut Numbers) -> Result<Progress, ReadError>
    ensures value { Gives result numbers.new (progress (room_by room.now) numbers.old) }
{
    let kind = numbers.up_to(2)?;
    match kind {
        0 => Ok(Progress::Waits),
        1 => {
            let context = context(alloc, room, numbers)?;
            Ok(Progress::IsReady(context))
        }
        _ => {
            let ended = ended(alloc, room, numbers)?;
            Ok(Progress::HasEnded(ended))
        }
    }
}

/// The sum of the fuels.
fn fuels(tasks: &[SavedTask]) -> u128
    requires few { length tasks.now ≤ 32 }
    ensures sum { result ≡ sum_by (λ t. t.fuel) tasks.now }
    ensures bound { result ≤ 32 * 2 ^ 32 }
{
    let mut sum = 0u128;
    for task in tasks {
        sum += u128::from(task.fuel);
    }
    sum
}

/// A fuel with which the bound of the queue's actions is within its limit. It is summed in 128 bits, where no sum wraps.
fn fuel(known: &Known, before: &[SavedTask], numbers: &mut Numbers) -> Result<u32, ReadError>
    requires quanta { known.now.quanta ≤ 8 * 2 ^ 64 }
    requires few { length before.now ≤ 32 }
    ensures value { Gives result numbers.new (field (is_fuel known.now.quanta known.now.tasks known.now.harts before.now) numbers.old) }
{
    let at = numbers.at();
    let fuel = numbers.any()?;
    let sum = fuels(before) + u128::from(fuel);
    let bound = 2 * (known.quanta + sum + u128::from(known.tasks)) + u128::from(known.harts);
    passed(
        fuel,
        at,
        1 <= fuel && fuel <= FUEL_MAX && bound <= ACTION_BOUND_MAX,
    )
}

/// The task after these.
fn task(
    alloc: Global,
    known: &Known,
    before: &[SavedTask],
    numbers: &mut Numbers,
) -> Result<SavedTask, ReadError>
    requires quanta { known.now.quanta ≤ 8 * 2 ^ 64 }
    requires few { length before.now ≤ 32 }
    ensures value { Gives result numbers.new (task (known_by known.now) before.now numbers.old) }
{
    let band = numbers.up_to(1)?;
    let fuel = fuel(known, before, numbers)?;
    let out_max = numbers.up_to(OUTPUT_MAX)?;
    let data_len = numbers.up_to(DATA_MAX)?;
    let code = numbers.counted_words(alloc, WORDS_MAX)?;
    let tape = numbers.counted_words(alloc, WORDS_MAX)?;
    let room = Room {
        slots: known.slots,
        before,
        fuel,
        out_max,
        data_len,
        tape: tape.as_slice(),
    };
    let progress = progress(alloc, &room, numbers)?;
    Ok(SavedTask {
        band,
        fuel,
        out_max,
        data_len,
        code,
        tape,
        progress,
    })
}

/// So many tasks.
pub(crate) fn tasks(
    alloc: Global,
    known: &Known,
    numbers: &mut Numbers,
) -> Result<Items<SavedTask>, ReadError>
    requires quanta { known.now.quanta ≤ 8 * 2 ^ 64 }
    requires few { known.now.tasks ≤ 32 }
    ensures value { Gives result numbers.new (items (task (known_by known.now)) [] known.now.tasks numbers.old) }
{
    let mut found = Vec::new(alloc);
    for _index in 0..known.tasks {
        let task = task(alloc, known, found.as_slice(), numbers)?;
        found.push(task)?;
    }
    Ok(Items::new(found))
}
