//! From an instruction to its word.

ghost use Rattle.std.specs.Prelude.{◌≡◌, ◌<◌, ◌^◌};
ghost use Rattle.isa_model.specs.Bits.{two_complement, IsInBits};
ghost use Rattle.isa_model.specs.Encoding.{IsInstr, word_of, funct3_of_cmp, funct3_of_load, funct3_of_store, funct3_of_alu, funct7_of_alu, funct3_of_csr};
ghost use Rattle.isa_model.specs.InstrTable.{instr_of};

use crate::formats::{b_format, i_format, j_format, r_format, s_format, u_format};
use isa_model::{Alu, Cmp, CsrOp, Instr, LoadKind, RegNo, StoreKind};

/// The word of an instruction.
pub fn encode(instr: Instr) -> u32
    requires instruction { IsInstr instr }
    ensures word { result ≡ word_of instr }
    ensures back { instr_of result ≡ Some instr }
{
    by_format(instr)
}

/// The word of an instruction, by the fields of its format.
fn by_format(instr: Instr) -> u32
    requires instruction { IsInstr instr }
    ensures word { result ≡ word_of instr }
{
    match instr {
        Instr::Lui { rd, imm20 } => u_format(0x37, rd, imm20),
        Instr::Auipc { rd, imm20 } => u_format(0x17, rd, imm20),
        Instr::Jal { rd, off } => j_format(0x6f, rd, bits_21(off)),
        Instr::Jalr { rd, rs1, imm } => i_format(0x67, rd, 0, rs1, bits_12(imm)),
        Instr::Branch { op, rs1, rs2, off } => branch(op, rs1, rs2, off),
        Instr::Load { kind, rd, rs1, imm } => load(kind, rd, rs1, imm),
        Instr::Store {
            kind,
            rs2,
            rs1,
            imm,
        } => store(kind, rs2, rs1, imm),
        Instr::AluImm { op, rd, rs1, imm } => alu_immediate(op, rd, rs1, imm),
        Instr::AluReg { op, rd, rs1, rs2 } => alu_register(op, rd, rs1, rs2),
        Instr::Fence { word } => word,
        Instr::Ecall => 0x0000_0073,
        Instr::Ebreak => 0x0010_0073,
        Instr::Mret => 0x3020_0073,
        Instr::Csr { op, rd, rs1, csr } => i_format(0x73, rd, funct3_of_csr(op), rs1, csr.into()),
        Instr::CsrImm { op, rd, uimm, csr } => csr_immediate(op, rd, uimm, csr),
    }
}

/// The word of a branch.
fn branch(op: Cmp, rs1: RegNo, rs2: RegNo, off: i32) -> u32
    requires instruction { IsInstr (Instr.Branch op rs1 rs2 off) }
    ensures word { result ≡ word_of (Instr.Branch op rs1 rs2 off) }
{
    b_format(0x63, funct3_of_cmp(op), rs1, rs2, bits_13(off))
}

/// The word of a load.
fn load(kind: LoadKind, rd: RegNo, rs1: RegNo, imm: i32) -> u32
    requires instruction { IsInstr (Instr.Load kind rd rs1 imm) }
    ensures word { result ≡ word_of (Instr.Load kind rd rs1 imm) }
{
    i_format(0x03, rd, funct3_of_load(kind), rs1, bits_12(imm))
}

/// The word of a store.
fn store(kind: StoreKind, rs2: RegNo, rs1: RegNo, imm: i32) -> u32
    requires instruction { IsInstr (Instr.Store kind rs2 rs1 imm) }
    ensures word { result ≡ word_of (Instr.Store kind rs2 rs1 imm) }
{
    s_format(0x23, funct3_of_store(kind), rs1, rs2, bits_12(imm))
}

/// The word of an operation on an immediate. A shift has funct7 above its amount.
fn alu_immediate(op: Alu, rd: RegNo, rs1: RegNo, imm: i32) -> u32
    requires instruction { IsInstr (Instr.AluImm op rd rs1 imm) }
    ensures word { result ≡ word_of (Instr.AluImm op rd rs1 imm) }
{
    i_format(
        0x13,
        rd,
        funct3_of_alu(op),
        rs1,
        0x20 * funct7_of_alu(op) + bits_12(imm),
    )
}

/// The word of an operation on two registers.
fn alu_register(op: Alu, rd: RegNo, rs1: RegNo, rs2: RegNo) -> u32
    requires instruction { IsInstr (Instr.AluReg op rd rs1 rs2) }
    ensures word { result ≡ word_of (Instr.AluReg op rd rs1 rs2) }
{
    r_format(0x33, rd, funct3_of_alu(op), rs1, rs2, funct7_of_alu(op))
}

/// The word of a CSR instruction on an immediate, which stands in the place of rs1.
fn csr_immediate(op: CsrOp, rd: RegNo, uimm: u8, csr: u16) -> u32
    requires instruction { IsInstr (Instr.CsrImm op rd uimm csr) }
    ensures word { result ≡ word_of (Instr.CsrImm op rd uimm csr) }
{
    i_format(
        0x73,
        rd,
        4 + funct3_of_csr(op),
        RegNo::new(uimm).unwrap(),
        csr.into(),
    )
}

/// A signed number as 12 bits.
fn bits_12(number: i32) -> u32
    requires range { IsInBits 11 number }
    ensures value { result ≡ two_complement 12 number }
    ensures bound { result < 2 ^ 12 }
{
    if number < 0 {
        (number + 0x1000) as u32
    } else {
        number as u32
    }
}

/// A signed number as 13 bits.
fn bits_13(number: i32) -> u32
    requires range { IsInBits 12 number }
    ensures value { result ≡ two_complement 13 number }
    ensures bound { result < 2 ^ 13 }
{
    if number < 0 {
        (number + 0x2000) as u32
    } else {
        number as u32
    }
}

/// A signed number as 21 bits.
fn bits_21(number: i32) -> u32
    requires range { IsInBits 20 number }
    ensures value { result ≡ two_complement 21 number }
    ensures bound { result < 2 ^ 21 }
{
    if number < 0 {
        (number + 0x20_0000) as u32
    } else {
        number as u32
    }
}

/// The funct3 of a branch.
fn funct3_of_cmp(op: Cmp) -> u32
    ensures value { result ≡ funct3_of_cmp op }
    ensures bound { result < 2 ^ 3 }
{
    match op {
        Cmp::Beq => 0,
        Cmp::Bne => 1,
        Cmp::Blt => 4,
        Cmp::Bge => 5,
        Cmp::Bltu => 6,
        Cmp::Bgeu => 7,
    }
}

/// The funct3 of a load.
fn funct3_of_load(kind: LoadKind) -> u32
    ensures value { result ≡ funct3_of_load kind }
    ensures bound { result < 2 ^ 3 }
{
    match kind {
        LoadKind::B => 0,
        LoadKind::H => 1,
        LoadKind::W => 2,
        LoadKind::Bu => 4,
        LoadKind::Hu => 5,
    }
}

/// The funct3 of a store.
fn funct3_of_store(kind: StoreKind) -> u32
    ensures value { result ≡ funct3_of_store kind }
    ensures bound { result < 2 ^ 3 }
{
    match kind {
        StoreKind::B => 0,
        StoreKind::H => 1,
        StoreKind::W => 2,
    }
}

/// The funct3 of an operation.
fn funct3_of_alu(op: Alu) -> u32
    ensures value { result ≡ funct3_of_alu op }
    ensures bound { result < 2 ^ 3 }
{
    match op {
        Alu::Add | Alu::Sub | Alu::Mul => 0,
        Alu::Sll | Alu::Mulh => 1,
        Alu::Slt | Alu::Mulhsu => 2,
        Alu::Sltu | Alu::Mulhu => 3,
        Alu::Xor | Alu::Div => 4,
        Alu::Srl | Alu::Sra | Alu::Divu => 5,
        Alu::Or | Alu::Rem => 6,
        Alu::And | Alu::Remu => 7,
    }
}

/// The funct7 of an operation on two registers.
fn funct7_of_alu(op: Alu) -> u32
    ensures value { result ≡ funct7_of_alu op }
    ensures bound { result < 2 ^ 7 }
{
    match op {
        Alu::Sub | Alu::Sra => 0x20,
        Alu::Mul
        | Alu::Mulh
        | Alu::Mulhsu
        | Alu::Mulhu
        | Alu::Div
        | Alu::Divu
        | Alu::Rem
        | Alu::Remu => 1,
        _ => 0,
    }
}

/// The funct3 of a CSR instruction on a register; that of one on an immediate is greater by 4.
fn funct3_of_csr(op: CsrOp) -> u32
    ensures value { result ≡ funct3_of_csr op }
    ensures bound { result < 2 ^ 2 }
{
    match op {
        CsrOp::Rw => 1,
        CsrOp::Rs => 2,
        CsrOp::Rc => 3,
    }
}
