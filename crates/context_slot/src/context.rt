//! A task in a slot.

ghost use Rattle.std.specs.Prelude.{◌≡◌, ◌+◌, ◌^◌, ◌<◌, ◌≤◌, ◌↔◌, ◌++◌, ◌∷◌, [], length, set, IsTrue, IsSome, IfOk, IfSome, Some, None};
ghost use Rattle.isa_model.specs.TaskPlaces.{IsValidTask};
ghost use Rattle.hart_model.specs.Cells.{blank, index_in};
ghost use Rattle.hart_model.specs.Csrs.{public};
ghost use Rattle.hart_model.specs.Context.{slot_len, slot_address, slot_word, task_of, fresh_body, start_words, admit_of, done_of, IsScrubbed, StandsForTask};
ghost use Rattle.mem_bank.specs.Bank.{IsWordAddress};
ghost use Rattle.context_slot.specs.Fresh.{IsFresh, HasBlankRegisters};
ghost use Rattle.context_slot.specs.DataBank.{data_bank, with_data_cell};

use crate::body::Body;
use crate::done::Done;
use crate::index::index_of;
use crate::words::{SLOT_LEN, SlotWords};
use hart_model::{Cell, Tag};
use isa_model::{End, Task};
use std::alloc::{AllocError, Global};
use std::marker::Model;

/// The word of a slot that has the pc.
const PC_WORD: u32 = 0;
/// The first of the four words that have the bounds.
const FIRST_BOUND: u32 = 32;

/// A body in a slot, with the slot's words, and how the task ended, if it has. The slot's number is below 8.
#[derive(Debug, Drop)]
pub struct Context {
    body: Body,
    slot: u32,
    words: SlotWords,
    end: Option<End>,
}

impl Model for Context {
    ghost use Rattle.std.specs.Prelude.{◌<◌};
    ghost use Rattle.hart_model.specs.Context.{ContextState};

    ghost Value = { ContextState };

    ghost view = { λ c. record { body = c.body; slot = c.slot; words = c.words; end = c.end } };

    ghost invariant = { λ c. c.slot < 8 };
}

/// A public cell of a value.
fn public(value: u32) -> Cell
    ensures cell { result ≡ public value }
{
    Cell {
        value,
        tag: Tag::Public,
    }
}

/// Whether a cell has value 0 and is public.
fn is_blank(cell: &Cell) -> bool
    ensures blank { IsTrue result ↔ (cell.now ≡ blank) }
{
    cell.value == 0 && matches!(cell.tag, Tag::Public)
}

/// A slot's words for a task at its start: the pc, and the four bounds, each an address divided by 4.
fn start_words(task: &Task, words: SlotWords) -> SlotWords
    requires valid { IsValidTask task.now }
    ensures words { result ≡ start_words task.now words }
    ensures length { length words ≡ slot_len }
{
    let code_start = task.code_at / 4;
    let code_end = code_start + task.code.len() as u32;
    let data_start = task.data_at / 4;
    let data_end = data_start + task.data_len;
    let mut words = words;
    words.set(PC_WORD, public(task.code_at));
    words.set(FIRST_BOUND, public(code_start));
    words.set(FIRST_BOUND + 1, public(code_end));
    words.set(FIRST_BOUND + 2, public(data_start));
    words.set(FIRST_BOUND + 3, public(data_end));
    words
}

impl Context {
    /// A task at its start in a slot below 8, whose registers are 0 and public: the pc and the four bounds are set. Takes no memory.
    pub fn admit(body: Body, slot: u32, words: SlotWords) -> Context
        requires slot { slot < 8 }
        requires registers { HasBlankRegisters words }
        requires fresh { IsFresh body }
        ensures context { result ≡ admit_of body slot words }
        ensures stands { StandsForTask result (task_of body) }
    {
        let words = start_words(body.task(), words);
        Context {
            body,
            slot,
            words,
            end: None,
        }
    }

    /// The context of a task, under its number and without an end, that has come so far: in this slot below 8 with these 36 words, these
    /// data words, `count` executed instructions, at most the fuel, its place on the tape and its output, with the room of all its
    /// output. `AllocError` is want of memory.
    pub fn again(
        alloc: Global,
        task_no: u32,
        task: &Task,
        slot: u32,
        words: Vec<Cell>,
        cells: Vec<Cell>,
        count: u32,
        tape_at: u32,
        output: &[u32],
    ) -> Result<Context, AllocError>
        requires valid { IsValidTask task.now }
        requires slot { slot < 8 }
        requires words { length words.items ≡ slot_len }
        requires cells { length cells.items ≡ task.now.data_len }
        requires count { count ≤ task.now.fuel }
        requires tape { tape_at ≤ length task.now.tape }
        requires output { length output.now ≤ task.now.out_max }
        ensures context { IfOk result (λ c. c ≡ record {
          body = record (fresh_body task_no task.now) { data_words = cells.items; tape_at = tape_at; output = output.now; count = count };
          slot = slot;
          words = words.items;
          end = None;
        }) }
    {
        Ok(Context {
            body: Body::again(alloc, task_no, task, cells, count, tape_at, output)?,
            slot,
            words: SlotWords::again(words),
            end: None,
        })
    }

    /// The body.
    pub fn body(&self) -> &Body
        ensures body { result.now ≡ self.now.body }
    {
        &self.body
    }

    /// The slot's number, below 8.
    pub fn slot(&self) -> u32
        ensures slot { result ≡ self.now.slot }
        ensures bound { result < 8 }
    {
        self.slot
    }

    /// The address in bytes of the slot's word 0.
    pub fn slot_address(&self) -> u32
        ensures address { result ≡ slot_address self.now.slot }
    {
        0x200 + 160 * self.slot
    }

    /// How the task ended, if it has.
    pub fn end(&self) -> Option<End>
        ensures end { result ≡ self.now.end }
    {
        self.end
    }

    /// The cell of a slot word, by its number.
    pub fn slot_word(&self, i: u32) -> Cell
        requires word { i < slot_len }
        ensures cell { result ≡ slot_word self.now i }
    {
        self.words.get(i)
    }

    /// The number of the slot word whose address in bytes this is; None exactly where it is the address of none of them.
    pub fn slot_index(&self, at: u32) -> Option<u32>
        ensures index { result ≡ index_in (slot_address self.now.slot) slot_len at }
        ensures bound { IfSome result (λ i. i < slot_len) }
    {
        index_of(self.slot_address(), SLOT_LEN, at)
    }

    /// Whether words 1 to 31, the registers, are 0 and public.
    pub fn scrubbed(&self) -> bool
        ensures scrubbed { IsTrue result ↔ IsScrubbed self.now }
    {
        for i in 1..32 {
            if !is_blank(&self.words.get(i)) {
                return false;
            }
        }
        true
    }

    /// Makes this the cell of a slot word, by its number.
    pub fn set_slot_word(&mut self, i: u32, cell: Cell)
        requires word { i < slot_len }
        ensures context { self.new ≡ record self.old { words = set self.old.words i cell } }
    {
        self.words.set(i, cell);
    }

    /// Makes this the cell of a data word, by its index from 0.
    pub fn set_data_word(&mut self, i: u32, cell: Cell)
        requires word { i < length self.old.body.data_words }
        ensures context { self.new ≡
            record self.old { body = record self.old.body { data_words = set self.old.body.data_words i cell } } }
    {
        self.body.set_data_word(i, cell);
    }

    /// Makes this the cell of the data word whose address in bytes this is; false, with nothing changed, exactly where it is the
    /// address of none of them.
    pub fn set_data_word_at(&mut self, at: u32, cell: Cell) -> bool
        ensures found { IsTrue result ↔ IsWordAddress (data_bank self.old.body) at }
        ensures context { self.new ≡ record self.old { body = with_data_cell self.old.body at cell } }
    {
        self.body.set_data_word_at(at, cell)
    }

    /// Goes on to the next word of the tape, where one is left.
    pub fn advance_tape(&mut self)
        requires left { self.old.body.tape_at < length self.old.body.tape }
        ensures context { self.new ≡
            record self.old { body = record self.old.body { tape_at = self.old.body.tape_at + 1 } } }
    {
        self.body.advance_tape();
    }

    /// Appends a word to the output, where there is room. Takes no memory.
    pub fn push_output(&mut self, word: u32)
        requires room { length self.old.body.output < self.old.body.out_max }
        ensures context { self.new ≡
            record self.old { body = record self.old.body { output = self.old.body.output ++ word ∷ [] } } }
    {
        self.body.push_output(word);
    }

    /// Counts one instruction more.
    pub fn raise_count(&mut self)
        requires fits { self.old.body.count + 1 < 2 ^ 32 }
        ensures context { self.new ≡
            record self.old { body = record self.old.body { count = self.old.body.count + 1 } } }
    {
        self.body.raise_count();
    }

    /// Ends the task.
    pub fn set_end(&mut self, end: End)
        ensures context { self.new ≡ record self.old { end = Some end } }
    {
        self.end = Some(end);
    }

    /// Takes the context apart: the ended task, and the words of its slot. Takes no memory.
    pub fn retire(self) -> (Done, SlotWords)
        requires ended { IsSome self.end }
        ensures done { IfSome self.end (λ end. result.0 ≡ done_of self end) }
        ensures words { result.1 ≡ self.words }
    {
        let Context {
            body,
            slot: _,
            words,
            end,
        } = self;
        match end {
            Some(end) => (body.into_done(end), words),
            None => unreachable!(),
        }
    }
}
