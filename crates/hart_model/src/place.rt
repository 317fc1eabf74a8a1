//! Where a hart keeps a cell.

use isa_model::RegNo;

/// A place of a hart, of its slot or of its task's data. Slot words and data words go by their index, from 0.
#[derive(Clone, Copy, Debug, PartialEq, Eq)]
pub enum Place {
    Reg(RegNo),
    PortA,
    PortB,
    Res,
    Load,
    Store,
    Scr,
    Mul,
    /// The hart's word that is always 0.
    Zero,
    SlotWord(u32),
    DataWord(u32),
}
