//! Where a value comes from.

/// An operand of an instruction.
#[derive(Clone, Copy)]
pub enum Operand {
    /// The value of register rs1.
    Rs1,
    /// The value of register rs2.
    Rs2,
    /// The memory word.
    Word,
    /// The old value of the CSR.
    OldCsr,
}

/// Where a value comes from.
#[derive(Clone, Copy)]
pub enum Flow {
    /// From no operand.
    Constant,
    /// It is an operand.
    Moved(Operand),
    /// It is computed from an operand.
    Computed(Operand),
    /// It is computed from two operands.
    Combined(Operand, Operand),
}
