//! The effect of an instruction: the latches that it writes, the CSR that it writes, and what follows; and the operands of which it is
//! made.

use crate::flow::Flow;
use crate::writes::Writes;

/// What follows the writes of an instruction.
#[derive(Clone, Copy)]
pub enum Next {
    /// The instruction at this address.
    Goes(u32),
    /// An exception of this cause, as `mcause` numbers them (privileged manual, "Machine Cause Register").
    Raises(u32),
    /// A call of the environment.
    Calls,
    /// The return from a trap.
    Returns,
}

/// A write of a CSR other than `mscratch`, which is a latch.
#[derive(Clone, Copy)]
pub struct CsrWrite {
    /// The number of the CSR, below 4,096.
    pub csr: u16,
    /// Its new value.
    pub value: u32,
    /// Where the value comes from.
    pub flow: Flow,
}

/// The values of the operands of an instruction.
#[derive(Clone, Copy)]
pub struct Operands {
    /// The value of register rs1.
    pub rs1: u32,
    /// The value of register rs2.
    pub rs2: u32,
    /// The aligned word that a load or a store lies in; none where the access is refused.
    pub word: Option<u32>,
    /// The value of the CSR before the instruction.
    pub old_csr: u32,
}

/// The effect of an instruction.
#[derive(Clone, Copy)]
pub struct Effect {
    /// The latches that it writes, in order.
    pub writes: Writes,
    /// The CSR that it writes.
    pub csr: Option<CsrWrite>,
    /// What follows.
    pub next: Next,
}
