//! The words of a slot.

ghost use Rattle.std.specs.Prelude.{◌≡◌, ◌<◌, set, get_or, length, IfOk};
ghost use Rattle.hart_model.specs.Cells.{blank};
ghost use Rattle.hart_model.specs.Context.{slot_len, fresh_words};
ghost use Rattle.context_slot.specs.Fresh.{HasBlankRegisters};

use hart_model::{Cell, Tag};
use std::alloc::{AllocError, Global};
use std::marker::Model;

/// How many words a slot has.
pub(crate) const SLOT_LEN: u32 = 36;

/// The 36 words of a slot (this project's own): word 0 is the pc, words 1 to 31 are the registers, and words 32 to 35 are the four
/// bounds of the task's code and data. Contracts see the list of their cells.
#[derive(Debug, Drop)]
pub struct SlotWords {
    cells: Vec<Cell>,
}

impl Model for SlotWords {
    ghost use Rattle.std.specs.Prelude.{◌≡◌, List, vec_len};
    ghost use Rattle.hart_model.specs.declared.tag.Cell.{Cell};
    ghost use Rattle.hart_model.specs.Context.{slot_len};

    ghost Value = { List Cell };

    ghost view = { λ w. w.cells.items };

    ghost invariant = { λ w. vec_len w.cells ≡ slot_len };
}

impl SlotWords {
    /// The words of a slot that has these cells, word 0 first.
    pub(crate) fn again(cells: Vec<Cell>) -> SlotWords
        requires length { length cells.items ≡ slot_len }
        ensures words { result ≡ cells.items }
    {
        SlotWords { cells }
    }

    /// The cells, word 0 first.
    pub fn as_slice(&self) -> &[Cell]
        ensures words { result.now ≡ self.now }
        ensures length { length self.now ≡ slot_len }
    {
        self.cells.as_slice()
    }

    /// The cell of a word, by its number.
    pub fn get(&self, i: u32) -> Cell
        requires word { i < slot_len }
        ensures cell { result ≡ get_or self.now i blank }
    {
        self.cells[i as usize]
    }

    /// Makes this the cell of a word, by its number.
    pub fn set(&mut self, i: u32, cell: Cell)
        requires word { i < slot_len }
        ensures words { self.new ≡ set self.old i cell }
        ensures length { length self.old ≡ slot_len }
    {
        self.cells[i as usize] = cell;
    }
}

/// A cell of value 0, public.
fn blank() -> Cell
    ensures cell { result ≡ blank }
{
    Cell {
        value: 0,
        tag: Tag::Public,
    }
}

/// The words of a slot that nothing was in: each has value 0 and is public. `AllocError` is want of memory.
pub fn slot_words(alloc: Global) -> Result<SlotWords, AllocError>
    ensures words { IfOk result (λ w. w ≡ fresh_words) }
    ensures registers { IfOk result HasBlankRegisters }
{
    let len = SLOT_LEN as usize;
    let mut cells = Vec::with_capacity(alloc, len)?;
    cells.resize(len, blank())?;
    Ok(SlotWords { cells })
}
