//! Latches (this project's own).

use crate::reg_no::RegNo;

/// A place that holds a value and can leak it: a register, the two operand ports and the result of the arithmetic unit, the last
/// loaded and the last stored word, the CSR `mscratch`, the result of the unit that multiplies and divides, or a word of memory by
/// its address in bytes, a multiple of 4.
#[derive(Clone, Copy, Debug, PartialEq, Eq)]
pub enum Latch {
    Reg(RegNo),
    PortA,
    PortB,
    Res,
    Load,
    Store,
    Scr,
    Mul,
    Mem(u32),
}
