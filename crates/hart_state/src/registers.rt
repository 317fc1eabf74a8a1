//! What a hart asks of its control and status registers.

ghost use Rattle.std.specs.Prelude.{◌≡◌};

use csr_trap::Csrs;
use hart_model::{Cell, Mode};

const MSTATUS: u16 = 0x300;

const MSCRATCH: u16 = 0x340;

const MHARTID: u16 = 0xf14;

/// The latch `mscratch`.
#[tactic(auto, unfolding(hart_model::specs::Csrs::csr_cell))]
pub(crate) fn scratch(csrs: &Csrs) -> Cell
    ensures cell { result ≡ csrs.now.mscratch }
{
    match csrs.read(MSCRATCH) {
        Some(cell) => cell,
        None => unreachable!(),
    }
}

/// Writes the latch `mscratch`.
#[tactic(auto, unfolding(hart_model::specs::Csrs::with_csr))]
pub(crate) fn set_scratch(csrs: &mut Csrs, cell: Cell)
    ensures file { csrs.new ≡ record csrs.old { mscratch = cell } }
{
    let _is_there = csrs.write(MSCRATCH, cell);
}

/// The number of the hart.
#[tactic(auto, unfolding(hart_model::specs::Csrs::csr_cell))]
pub(crate) fn hart_number(csrs: &Csrs) -> u32
    ensures number { result ≡ csrs.now.hart }
{
    match csrs.read(MHARTID) {
        Some(cell) => cell.value,
        None => unreachable!(),
    }
}

/// The mode to which MRET goes: MPP, bits 12:11 of `mstatus`.
#[tactic(auto, unfolding(hart_model::specs::Csrs::csr_cell))]
pub(crate) fn previous_mode(csrs: &Csrs) -> Mode
    ensures mode { result ≡ csrs.now.previous }
{
    match csrs.read(MSTATUS) {
        Some(cell) => {
            if cell.value < 0x800 {
                Mode::User
            } else {
                Mode::Machine
            }
        }
        None => unreachable!(),
    }
}
