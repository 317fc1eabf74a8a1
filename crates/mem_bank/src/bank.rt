//! The bank.

ghost use Rattle.std.specs.Prelude.{◌≡◌, ◌≢◌, ℕ, ◌+◌, ◌*◌, ◌%◌, ◌^◌, ◌≤◌, ◌↔◌, Some, length, replicate, IsTrue, IsSome, IfOk};
ghost use Rattle.std.specs.Bool.{OnTrue, OnFalse};
ghost use Rattle.hart_model.specs.Cells.{index_in, blank};
ghost use Rattle.mem_bank.specs.Bank.{IsWordAddress, cell_of, with_cell_of};

use hart_model::{Cell, Tag};
use std::alloc::{AllocError, Global};
use std::marker::Model;

/// Words of memory in a row, each a cell (this project's own). Contracts see the address of the first word and the list of cells.
#[derive(Debug, Drop)]
pub struct Bank {
    base: u32,
    cells: Vec<Cell>,
}

impl Model for Bank {
    ghost use Rattle.std.specs.Prelude.{◌≡◌, ◌+◌, ◌*◌, ◌%◌, ◌^◌, ◌≤◌, vec_len};
    ghost use Rattle.mem_bank.specs.Bank.{CellBank};

    ghost Value = { CellBank };

    ghost view = { λ b. record { base = b.base; cells = b.cells.items } };

    ghost invariant = { λ b. (b.base % 4 ≡ 0) × (b.base + 4 * vec_len b.cells ≤ 2 ^ 32) };
}

impl Bank {
    /// A bank of `len` words from the address `base` in bytes on, each of value 0 and public. `AllocError` is want of memory.
    pub fn new(alloc: Global, base: u32, len: u32) -> Result<Bank, AllocError>
        requires aligned { base % 4 ≡ 0 }
        requires in_space { base + 4 * len ≤ 2 ^ 32 }
        ensures bank { IfOk result (λ b. b ≡ record { base = base; cells = replicate len blank }) }
    {
        let len = len as usize;
        let mut cells = Vec::with_capacity(alloc, len)?;
        let blank = Cell {
            value: 0,
            tag: Tag::Public,
        };
        cells.resize(len, blank)?;
        Ok(Bank { base, cells })
    }

    /// The bank of these cells from the address `base` in bytes on. Takes no memory.
    pub fn again(base: u32, cells: Vec<Cell>) -> Bank
        requires aligned { base % 4 ≡ 0 }
        requires in_space { base + 4 * length cells.items ≤ 2 ^ 32 }
        ensures bank { result ≡ record { base = base; cells = cells.items } }
    {
        Bank { base, cells }
    }

    /// The index of the word at an address.
    fn index(&self, addr: u32) -> Option<usize>
        ensures value { result ≡ index_in self.now.base (length self.now.cells) addr }
    {
        if addr < self.base {
            return None;
        }
        let offset = addr - self.base;
        let index = (offset / 4) as usize;
        if offset % 4 == 0 && index < self.cells.len() {
            Some(index)
        } else {
            None
        }
    }

    /// The cell of the word at this address in bytes; None exactly where it isn't the address of one of the words. Constant time.
    pub fn read(&self, addr: u32) -> Option<Cell>
        ensures found { IsSome result ↔ IsWordAddress self.now addr }
        ensures cell { result ≡ cell_of self.now addr }
    {
        match self.index(addr) {
            Some(index) => Some(self.cells[index]),
            None => None,
        }
    }

    /// Makes this the cell of the word at this address in bytes, and changes no other; false exactly where it isn't the address of
    /// one of the words, and then nothing changes. Constant time.
    pub fn write(&mut self, addr: u32, cell: Cell) -> bool
        ensures found { IsTrue result ↔ IsWordAddress self.old addr }
        ensures written { OnTrue result (cell_of self.new addr ≡ Some cell) }
        ensures others { (at : ℕ) → at ≢ addr → cell_of self.new at ≡ cell_of self.old at }
        ensures unchanged { OnFalse result (self.new ≡ self.old) }
        ensures bank { self.new ≡ with_cell_of self.old addr cell }
    {
        match self.index(addr) {
            Some(index) => {
                self.cells[index] = cell;
                true
            }
            None => false,
        }
    }
}
