//! The cells of a hart, by place and by latch.

ghost use Rattle.std.specs.Prelude.{◌≡◌, ◌+◌, ◌*◌, ◌<◌, Some, length, IfSome};
ghost use Rattle.hart_model.specs.Cells.{latch_of, place_of, index_in, data_place_of};
ghost use Rattle.hart_model.specs.Context.{slot_len, slot_address};
ghost use Rattle.hart_model.specs.HartState.{bases_of, hart_cell, hart_with_cell, latch_cell};
ghost use Rattle.hart_state.specs.PlaceBounds.{IsPlaceThere};
ghost use Rattle.hart_state.specs.Reached.{reached_bases};

use crate::hart::{Hart, blank};
use crate::registers::{scratch, set_scratch};
use context_slot::Context;
use hart_model::{Cell, Place};
use isa_model::{Latch, RegNo};

/// The address of the word that is always 0.
const ZERO_ADDRESS: u32 = 0x100;

/// The place of the data word at an address.
fn data_place(context: &Context, at: u32) -> Option<Place>
    ensures place { result ≡ data_place_of (index_in context.now.body.data_at (length context.now.body.data_words) at) }
    ensures there { IfSome result (IsPlaceThere (bases_of (Some context.now))) }
{
    match context.body().data_index(at) {
        Some(i) => Some(Place::DataWord(i)),
        None => None,
    }
}

/// The address of a data word.
fn data_address(context: &Context, i: u32) -> u32
    requires word { i < length context.now.body.data_words }
    ensures address { result ≡ context.now.body.data_at + 4 * i }
{
    let task = context.body().task();
    task.data_at + 4 * i
}

/// The address of a slot word.
fn slot_word_address(context: &Context, i: u32) -> u32
    requires word { i < slot_len }
    ensures address { result ≡ slot_address context.now.slot + 4 * i }
{
    0x200 + 160 * context.slot() + 4 * i
}

impl Hart {
    /// The place of the memory word at an address.
    fn word_place(&self, reaches_data: bool, at: u32) -> Option<Place>
        ensures place { result ≡ place_of (reached_bases reaches_data self.now.held) (Latch.Mem at) }
        ensures there { IfSome result (IsPlaceThere (bases_of self.now.held)) }
    {
        if at == ZERO_ADDRESS {
            return Some(Place::Zero);
        }
        match &self.held {
            None => None,
            Some(context) => match context.slot_index(at) {
                Some(i) => Some(Place::SlotWord(i)),
                None => {
                    if reaches_data {
                        data_place(context, at)
                    } else {
                        None
                    }
                }
            },
        }
    }

    /// The place of a latch; None for a memory word that is neither the one that is always 0 nor one of the slot or, where it
    /// reaches the data, of the data of what is held.
    pub(crate) fn place(&self, reaches_data: bool, latch: &Latch) -> Option<Place>
        ensures place { result ≡ place_of (reached_bases reaches_data self.now.held) latch.now }
        ensures there { IfSome result (IsPlaceThere (bases_of self.now.held)) }
    {
        match latch {
            Latch::Reg(register) => Some(Place::Reg(*register)),
            Latch::PortA => Some(Place::PortA),
            Latch::PortB => Some(Place::PortB),
            Latch::Res => Some(Place::Res),
            Latch::Load => Some(Place::Load),
            Latch::Store => Some(Place::Store),
            Latch::Scr => Some(Place::Scr),
            Latch::Mul => Some(Place::Mul),
            Latch::Mem(at) => self.word_place(reaches_data, *at),
        }
    }

    /// The cell of a register; x0 reads as 0, public.
    pub(crate) fn register(&self, register: RegNo) -> Cell
        ensures cell { result ≡ hart_cell self.now (Place.Reg register) }
    {
        let number = register.num();
        if number == 0 {
            blank()
        } else {
            self.regs[number as usize]
        }
    }

    /// The cell of a place that there is.
    pub(crate) fn cell_at(&self, place: &Place) -> Cell
        requires there { IsPlaceThere (bases_of self.now.held) place.now }
        ensures cell { result ≡ hart_cell self.now place.now }
    {
        match place {
            Place::Reg(register) => self.register(*register),
            Place::PortA => self.port_a,
            Place::PortB => self.port_b,
            Place::Res => self.res,
            Place::Load => self.load,
            Place::Store => self.store,
            Place::Scr => scratch(&self.csrs),
            Place::Mul => self.mul,
            Place::Zero => self.zero_word,
            Place::SlotWord(i) => match &self.held {
                Some(context) => context.slot_word(*i),
                None => unreachable!(),
            },
            Place::DataWord(i) => match &self.held {
                Some(context) => context.body().data_word(*i),
                None => unreachable!(),
            },
        }
    }

    /// The cell of a latch; None exactly for a memory word that is neither the one that is always 0 nor, where a context is held,
    /// one of its slot words or data words. The mode doesn't matter.
    pub fn cell(&self, latch: Latch) -> Option<Cell>
        ensures cell { result ≡ latch_cell self.now latch }
    {
        match self.place(true, &latch) {
            Some(place) => Some(self.cell_at(&place)),
            None => None,
        }
    }

    /// Makes this the cell of a place that there is.
    pub(crate) fn put(&mut self, place: &Place, cell: Cell)
        requires there { IsPlaceThere (bases_of self.old.held) place.now }
        ensures hart { self.new ≡ hart_with_cell self.old place.now cell }
    {
        match place {
            Place::Reg(register) => self.regs[register.num() as usize] = cell,
            Place::PortA => self.port_a = cell,
            Place::PortB => self.port_b = cell,
            Place::Res => self.res = cell,
            Place::Load => self.load = cell,
            Place::Store => self.store = cell,
            Place::Scr => set_scratch(&mut self.csrs, cell),
            Place::Mul => self.mul = cell,
            Place::Zero => self.zero_word = cell,
            Place::SlotWord(i) => match &mut self.held {
                Some(context) => context.set_slot_word(*i, cell),
                None => unreachable!(),
            },
            Place::DataWord(i) => match &mut self.held {
                Some(context) => context.set_data_word(*i, cell),
                None => unreachable!(),
            },
        }
    }

    /// The latch of a place that there is.
    pub(crate) fn latch(&self, place: &Place) -> Latch
        requires there { IsPlaceThere (bases_of self.now.held) place.now }
        ensures latch { result ≡ latch_of (bases_of self.now.held) place.now }
    {
        match place {
            Place::Reg(register) => Latch::Reg(*register),
            Place::PortA => Latch::PortA,
            Place::PortB => Latch::PortB,
            Place::Res => Latch::Res,
            Place::Load => Latch::Load,
            Place::Store => Latch::Store,
            Place::Scr => Latch::Scr,
            Place::Mul => Latch::Mul,
            Place::Zero => Latch::Mem(ZERO_ADDRESS),
            Place::SlotWord(i) => match &self.held {
                Some(context) => Latch::Mem(slot_word_address(context, *i)),
                None => unreachable!(),
            },
            Place::DataWord(i) => match &self.held {
                Some(context) => Latch::Mem(data_address(context, *i)),
                None => unreachable!(),
            },
        }
    }
}
