//! The hart, at boot and as it is read.

ghost use Rattle.std.specs.Prelude.{◌≡◌, ◌%◌, option_map};
ghost use Rattle.hart_model.specs.Cells.{blank};
ghost use Rattle.hart_model.specs.HartState.{boot_hart, tick_of};

use context_slot::Context;
use csr_trap::Csrs;
use hart_model::{Cell, Mode, Tag};
use std::marker::Model;

/// A hart: its latches, the word that is always 0, its CSRs with its mode, its pc, and the context that it holds.
#[derive(Debug, Drop)]
pub struct Hart {
    pub(crate) regs: [Cell; 32],
    pub(crate) port_a: Cell,
    pub(crate) port_b: Cell,
    pub(crate) res: Cell,
    pub(crate) load: Cell,
    pub(crate) store: Cell,
    pub(crate) mul: Cell,
    pub(crate) zero_word: Cell,
    pub(crate) csrs: Csrs,
    pub(crate) pc: u32,
    pub(crate) held: Option<Context>,
}

impl Model for Hart {
    ghost use Rattle.std.specs.Prelude.{◌≡◌, ◌%◌, length};
    ghost use Rattle.hart_model.specs.HartState.{HartState};

    ghost Value = { HartState };

    ghost view = { λ h. record {
      regs = h.regs;
      port_a = h.port_a;
      port_b = h.port_b;
      res = h.res;
      load = h.load;
      store = h.store;
      mul = h.mul;
      zero_word = h.zero_word;
      csrs = h.csrs;
      pc = h.pc;
      held = h.held;
    } };

    ghost invariant = { λ h. (length h.regs ≡ 32) × (h.pc % 4 ≡ 0) };
}

/// A cell of value 0, public.
pub(crate) fn blank() -> Cell
    ensures cell { result ≡ blank }
{
    Cell {
        value: 0,
        tag: Tag::Public,
    }
}

impl Hart {
    /// The hart of this number at boot: in machine mode at the address `take`, every latch 0 and public, with no timer pending and
    /// nothing held.
    pub fn boot(hart: u32, take: u32) -> Hart
        requires aligned { take % 4 ≡ 0 }
        ensures boot { result ≡ boot_hart hart take }
    {
        Hart {
            regs: [blank(); 32],
            port_a: blank(),
            port_b: blank(),
            res: blank(),
            load: blank(),
            store: blank(),
            mul: blank(),
            zero_word: blank(),
            csrs: Csrs::new(hart),
            pc: take,
            held: None,
        }
    }

    /// Makes the timer pending. A second tick before the interrupt changes nothing.
    pub fn tick(&mut self)
        ensures hart { self.new ≡ tick_of self.old }
    {
        self.csrs.tick();
    }

    /// The context that the hart holds, if it holds one.
    pub fn held(&self) -> Option<&Context>
        ensures held { option_map (λ c. c.now) result ≡ self.now.held }
    {
        self.held.as_ref()
    }

    /// The present mode.
    pub fn mode(&self) -> Mode
        ensures mode { result ≡ self.now.csrs.mode }
    {
        self.csrs.mode()
    }

    /// The address of the next instruction, in bytes.
    pub fn pc(&self) -> u32
        ensures pc { result ≡ self.now.pc }
        ensures aligned { result % 4 ≡ 0 }
    {
        self.pc
    }
}
