//! Instructions of RV32I, M and Zicsr, and MRET (unprivileged manual, "RV32I Base Integer Instruction Set", "M" and "Zicsr";
//! privileged manual, "Trap-Return Instructions").

use crate::reg_no::RegNo;

/// The comparison of a conditional branch.
#[derive(Clone, Copy, Debug, PartialEq, Eq)]
pub enum Cmp {
    Beq,
    Bne,
    Blt,
    Bge,
    Bltu,
    Bgeu,
}

/// What a load fetches: a byte, a half or a word, and whether its sign is extended (B, H) or zeros are put above it (Bu, Hu).
#[derive(Clone, Copy, Debug, PartialEq, Eq)]
pub enum LoadKind {
    B,
    H,
    W,
    Bu,
    Hu,
}

/// What a store writes: a byte, a half or a word.
#[derive(Clone, Copy, Debug, PartialEq, Eq)]
pub enum StoreKind {
    B,
    H,
    W,
}

/// An operation of the arithmetic unit. The last eight are those of the extension M: the low word of a product; its high word with
/// both operands signed, the first alone signed, and both unsigned; the quotient and the remainder of signed and of unsigned numbers.
#[derive(Clone, Copy, Debug, PartialEq, Eq)]
pub enum Alu {
    Add,
    Sub,
    Sll,
    Slt,
    Sltu,
    Xor,
    Srl,
    Sra,
    Or,
    And,
    Mul,
    Mulh,
    Mulhsu,
    Mulhu,
    Div,
    Divu,
    Rem,
    Remu,
}

/// What a CSR instruction does with its operand: write it, set its bits, or clear its bits.
#[derive(Clone, Copy, Debug, PartialEq, Eq)]
pub enum CsrOp {
    Rw,
    Rs,
    Rc,
}

/// An instruction. Ranges, outside of which a value is no instruction: `imm20` below 2^20; `off` of `Jal` even, from -2^20 to
/// 2^20 - 2; `off` of `Branch` even, from -4096 to 4094; `imm` from -2048 to 2047, but for shifts from 0 to 31; `csr` below
/// 4096; `uimm` below 32; `word` one whose opcode is MISC-MEM and whose funct3 is 0. There is no `AluImm` with `Sub` or with an
/// operation of M.
#[derive(Clone, Copy, Debug, PartialEq, Eq)]
pub enum Instr {
    /// The upper immediate, in units of 4096.
    Lui {
        rd: RegNo,
        imm20: u32,
    },
    /// The upper immediate, in units of 4096, added to the pc.
    Auipc {
        rd: RegNo,
        imm20: u32,
    },
    /// A jump by an offset in bytes from this instruction.
    Jal {
        rd: RegNo,
        off: i32,
    },
    /// A jump to an address in a register plus an offset in bytes.
    Jalr {
        rd: RegNo,
        rs1: RegNo,
        imm: i32,
    },
    /// A branch by an offset in bytes from this instruction.
    Branch {
        op: Cmp,
        rs1: RegNo,
        rs2: RegNo,
        off: i32,
    },
    /// A load from an address in a register plus an offset in bytes.
    Load {
        kind: LoadKind,
        rd: RegNo,
        rs1: RegNo,
        imm: i32,
    },
    /// A store of `rs2` to an address in `rs1` plus an offset in bytes.
    Store {
        kind: StoreKind,
        rs2: RegNo,
        rs1: RegNo,
        imm: i32,
    },
    /// An operation on a register and an immediate.
    AluImm {
        op: Alu,
        rd: RegNo,
        rs1: RegNo,
        imm: i32,
    },
    /// An operation on two registers.
    AluReg {
        op: Alu,
        rd: RegNo,
        rs1: RegNo,
        rs2: RegNo,
    },
    /// An ordering of memory accesses, which does nothing here. Its word is kept, since most of its bits are free.
    Fence {
        word: u32,
    },
    /// A call of the environment.
    Ecall,
    /// A breakpoint.
    Ebreak,
    /// The return from a trap to machine mode.
    Mret,
    /// A CSR instruction on a register.
    Csr {
        op: CsrOp,
        rd: RegNo,
        rs1: RegNo,
        csr: u16,
    },
    /// A CSR instruction on an immediate.
    CsrImm {
        op: CsrOp,
        rd: RegNo,
        uimm: u8,
        csr: u16,
    },
}
