//! A task with how far it has come.

ghost use Rattle.std.specs.Prelude.{◌≡◌, ◌+◌, ◌-◌, ◌^◌, ◌<◌, ◌≤◌, ◌↔◌, ◌++◌, ◌∷◌, [], length, set, slice_get, IsTrue, IfOk, IfSome};
ghost use Rattle.isa_model.specs.TaskPlaces.{IsValidTask};
ghost use Rattle.hart_model.specs.Cells.{index_in};
ghost use Rattle.hart_model.specs.Context.{task_of, fresh_body, data_word};
ghost use Rattle.mem_bank.specs.Bank.{IsWordAddress, cell_of};
ghost use Rattle.context_slot.specs.Fresh.{IsFresh};
ghost use Rattle.context_slot.specs.DataBank.{data_bank, with_data_cell};

use crate::done::Done;
use crate::index::index_of;
use crate::output::Output;
use hart_model::Cell;
use isa_model::{End, Task};
use mem_bank::Bank;
use std::alloc::{AllocError, Global};
use std::marker::Model;

/// A task with its number, and its data, tape position, output and count so far. It is valid, and its output has room for as many
/// words as the task may put out.
#[derive(Debug, Drop)]
pub struct Body {
    task_no: u32,
    task: Task,
    data_words: Bank,
    tape_at: u32,
    output: Output,
    count: u32,
}

impl Model for Body {
    ghost use Rattle.hart_model.specs.Context.{BodyState};
    ghost use Rattle.context_slot.specs.FitsTask.{FitsTask};

    ghost Value = { BodyState };

    ghost view = { λ b. record {
      task_no = b.task_no;
      code_at = b.task.code_at;
      data_at = b.task.data_at;
      code = b.task.code;
      data_words = b.data_words.cells;
      tape = b.task.tape;
      tape_at = b.tape_at;
      output = b.output.words;
      out_max = b.task.out_max;
      fuel = b.task.fuel;
      count = b.count;
    } };

    ghost invariant = { λ b. FitsTask b.task b.data_words b.output b.tape_at };
}

impl Body {
    /// A task at its start, under its number, with the room of all its output. `AllocError` is want of memory.
    pub fn fresh(alloc: Global, task_no: u32, task: &Task) -> Result<Body, AllocError>
        requires valid { IsValidTask task.now }
        ensures fresh { IfOk result (λ b. b ≡ fresh_body task_no task.now) }
        ensures start { IfOk result IsFresh }
    {
        Ok(Body {
            task_no,
            task: task.copy(alloc)?,
            data_words: Bank::new(alloc, task.data_at, task.data_len)?,
            tape_at: 0,
            output: Output::new(alloc, task.out_max)?,
            count: 0,
        })
    }

    /// A task under its number that has come so far: its data words, `count` executed instructions, its place on the tape and its
    /// output, with the room of all its output. `AllocError` is want of memory.
    pub(crate) fn again(
        alloc: Global,
        task_no: u32,
        task: &Task,
        cells: Vec<Cell>,
        count: u32,
        tape_at: u32,
        output: &[u32],
    ) -> Result<Body, AllocError>
        requires valid { IsValidTask task.now }
        requires cells { length cells.items ≡ task.now.data_len }
        requires tape { tape_at ≤ length task.now.tape }
        requires output { length output.now ≤ task.now.out_max }
        ensures body { IfOk result (λ b. b ≡ record (fresh_body task_no task.now) {
          data_words = cells.items;
          tape_at = tape_at;
          output = output.now;
          count = count;
        }) }
    {
        Ok(Body {
            task_no,
            task: task.copy(alloc)?,
            data_words: Bank::again(task.data_at, cells),
            tape_at,
            output: Output::again(alloc, output, task.out_max)?,
            count,
        })
    }

    /// The task's number.
    pub fn task_no(&self) -> u32
        ensures number { result ≡ self.now.task_no }
    {
        self.task_no
    }

    /// The task.
    pub fn task(&self) -> &Task
        ensures task { result.now ≡ task_of self.now }
        ensures valid { IsValidTask result.now }
    {
        &self.task
    }

    /// How many instructions the task has executed.
    pub fn count(&self) -> u32
        ensures count { result ≡ self.now.count }
    {
        self.count
    }

    /// How many words of the tape the task has taken, which is the place of the next one.
    pub fn tape_at(&self) -> u32
        ensures place { result ≡ self.now.tape_at }
        ensures bound { result ≤ length self.now.tape }
    {
        self.tape_at
    }

    /// The output so far.
    pub fn output(&self) -> &[u32]
        ensures output { result.now ≡ self.now.output }
    {
        self.output.as_slice()
    }

    /// How many words the task may still put out.
    pub fn output_left(&self) -> u32
        ensures left { result ≡ self.now.out_max - length self.now.output }
    {
        self.output.left()
    }

    /// The next word of the tape; None exactly where none is left.
    pub fn tape_word(&self) -> Option<u32>
        ensures word { result ≡ slice_get self.now.tape self.now.tape_at }
    {
        self.task
            .tape
            .as_slice()
            .get(self.tape_at as usize)
            .copied()
    }

    /// How many words of the tape are left.
    pub fn tape_left(&self) -> u32
        ensures left { result ≡ length self.now.tape - self.now.tape_at }
    {
        self.task.tape.len() as u32 - self.tape_at
    }

    /// The index of the data word whose address in bytes this is; None exactly where it is the address of none of them.
    pub fn data_index(&self, at: u32) -> Option<u32>
        ensures index { result ≡ index_in self.now.data_at (length self.now.data_words) at }
        ensures bound { IfSome result (λ i. i < length self.now.data_words) }
    {
        index_of(self.task.data_at, self.task.data_len, at)
    }

    /// The cell of a data word, by its index from 0.
    pub fn data_word(&self, i: u32) -> Cell
        requires word { i < length self.now.data_words }
        ensures cell { result ≡ data_word self.now i }
    {
        match self.data_words.read(self.task.data_at + 4 * i) {
            Some(cell) => cell,
            None => unreachable!(),
        }
    }

    /// The cell of the data word whose address in bytes this is; None exactly where it is the address of none of them.
    pub fn data_word_at(&self, at: u32) -> Option<Cell>
        ensures cell { result ≡ cell_of (data_bank self.now) at }
    {
        self.data_words.read(at)
    }

    /// Makes this the cell of a data word, by its index from 0.
    pub(crate) fn set_data_word(&mut self, i: u32, cell: Cell)
        requires word { i < length self.old.data_words }
        ensures body { self.new ≡ record self.old { data_words = set self.old.data_words i cell } }
    {
        let _is_there = self.data_words.write(self.task.data_at + 4 * i, cell);
    }

    /// Makes this the cell of the data word whose address in bytes this is; false, with nothing changed, exactly where it is the
    /// address of none of them.
    pub(crate) fn set_data_word_at(&mut self, at: u32, cell: Cell) -> bool
        ensures found { IsTrue result ↔ IsWordAddress (data_bank self.old) at }
        ensures body { self.new ≡ with_data_cell self.old at cell }
    {
        self.data_words.write(at, cell)
    }

    /// Goes on to the next word of the tape.
    pub(crate) fn advance_tape(&mut self)
        requires left { self.old.tape_at < length self.old.tape }
        ensures body { self.new ≡ record self.old { tape_at = self.old.tape_at + 1 } }
    {
        self.tape_at += 1;
    }

    /// Appends a word to the output. Takes no memory.
    pub(crate) fn push_output(&mut self, word: u32)
        requires room { length self.old.output < self.old.out_max }
        ensures body { self.new ≡ record self.old { output = self.old.output ++ word ∷ [] } }
    {
        self.output.push(word);
    }

    /// Counts one instruction more.
    pub(crate) fn raise_count(&mut self)
        requires fits { self.old.count + 1 < 2 ^ 32 }
        ensures body { self.new ≡ record self.old { count = self.old.count + 1 } }
    {
        self.count += 1;
    }

    /// The task as an ended one, with this end.
    pub(crate) fn into_done(self, end: End) -> Done
        ensures done { result ≡ record { task_no = self.task_no; count = self.count; output = self.output; end = end } }
    {
        let Body {
            task_no,
            task: _,
            data_words: _,
            tape_at: _,
            output,
            count,
        } = self;
        Done::new(task_no, count, output.into_words(), end)
    }
}
