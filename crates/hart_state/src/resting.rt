//! What is saved of a hart that rests, and the hart that saved values make.

ghost use Rattle.std.specs.Prelude.{◌≡◌, ◌↔◌, ◌%◌, ◌∷◌, drop, map, IsNone, IsSome};
ghost use Rattle.hart_model.specs.Cells.{blank};
ghost use Rattle.hart_model.specs.Csrs.{public};
ghost use Rattle.resting_hart.specs.Resting.{IsResting};
ghost use Rattle.resting_hart.specs.RestValues.{rest_of, rest_if_empty, hart_at_rest, IsRestValue};

use crate::hart::{Hart, blank};
use crate::registers::scratch;
use csr_trap::Csrs;
use hart_model::{Cell, Tag};
use resting_hart::Rest;

/// A public cell of a value.
fn public(value: u32) -> Cell
    ensures cell { result ≡ public value }
{
    Cell {
        value,
        tag: Tag::Public,
    }
}

/// The values of x1 to x31.
fn values(cells: &[Cell; 32]) -> [u32; 31]
    ensures values { result ≡ map (λ c. c.value) (drop 1 cells.now) }
{
    let mut values = [0; 31];
    for i in 0..31 {
        values[i] = cells[i + 1].value;
    }
    values
}

/// The cells of x0 to x31, all public, of which x1 to x31 have these values.
fn cells(values: &[u32; 31]) -> [Cell; 32]
    ensures cells { result ≡ blank ∷ map public values.now }
{
    let mut cells = [blank(); 32];
    for i in 0..31 {
        cells[i + 1] = public(values[i]);
    }
    cells
}

impl Hart {
    /// What is saved of a hart that rests; None exactly where it holds a context.
    pub fn rest(&self) -> Option<Rest>
        ensures rest { result ≡ rest_if_empty self.now }
        ensures none { IsNone result ↔ IsSome self.now.held }
    {
        if self.held.is_some() {
            return None;
        }
        Some(Rest {
            pc: self.pc,
            regs: values(&self.regs),
            latches: [
                self.port_a.value,
                self.port_b.value,
                self.res.value,
                self.load.value,
                self.store.value,
                self.mul.value,
                scratch(&self.csrs).value,
            ],
            mepc: self.csrs.mepc(),
            mcause: self.csrs.mcause(),
            bounds: self.csrs.pmp().addrs(),
            pending: self.csrs.is_timer_pending(),
        })
    }

    /// The hart of this number that has these values of a hart that rests. It rests: it is in machine mode and holds nothing, its cells
    /// are public, and all else is as at boot.
    pub fn from_rest(hart: u32, rest: &Rest) -> Hart
        requires rest { IsRestValue rest.now }
        ensures hart { result ≡ hart_at_rest hart rest.now }
        ensures again { rest_of result ≡ rest.now }
        ensures rests { IsResting hart result }
    {
        let [port_a, port_b, res, load, store, mul, scratch] = rest.latches;
        let scratch = public(scratch);
        Hart {
            regs: cells(&rest.regs),
            port_a: public(port_a),
            port_b: public(port_b),
            res: public(res),
            load: public(load),
            store: public(store),
            mul: public(mul),
            zero_word: blank(),
            csrs: Csrs::again(
                hart,
                scratch,
                rest.mepc,
                rest.mcause,
                rest.pending,
                rest.bounds,
            ),
            pc: rest.pc,
            held: None,
        }
    }
}
