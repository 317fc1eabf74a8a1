//! The lines of the kernel's text by their mnemonics, with their operands in the assembler's order; `offset(base)` is offset, base.
//! Registers are given by their numbers, offsets in bytes.

ghost use Rattle.std.specs.Prelude.{◌≡◌, ◌<◌, ◌^◌, pos};
ghost use Rattle.hart_model.specs.Ports.{port_address};
ghost use Rattle.core_model.specs.KernelText.{At, Does, mul, addi, lui, lw, sw, csrrw, csrrs, mret, beq, blt, jal, clear_store, clear_load};
ghost use Rattle.switch_emit.specs.Lines.{label_of};

use crate::label::Label;
use crate::line::Line;
use hart_model::Port;
use isa_model::{Alu, Cmp, CsrOp, Instr, LoadKind, RegNo, StoreKind};

/// The register that is always 0.
pub const X0: u8 = 0;

/// The register that has the slot's address in the kernel.
pub const X5: u8 = 5;

/// The kernel's first register for work.
pub const X6: u8 = 6;

/// The kernel's second register for work.
pub const X7: u8 = 7;

/// The CSR that has the slot's address while a task runs.
pub const MSCRATCH: u16 = 0x340;

/// The CSR that has the pc at which the task was left.
pub const MEPC: u16 = 0x341;

/// The CSR that says why the task was left.
pub const MCAUSE: u16 = 0x342;

/// The first of the four address registers of the protection.
pub const PMPADDR0: u16 = 0x3b0;

/// The address of the word that is always 0.
const ZERO_ADDRESS: u16 = 0x100;

/// The register of a number.
fn x(number: u8) -> RegNo
    requires number { number < 32 }
    ensures register { result ≡ number }
{
    RegNo::new(number).unwrap()
}

/// A label.
pub fn at(label: Label) -> Line
    ensures line { result ≡ At (label_of label) }
{
    Line::at(label)
}

/// rd = rs1 * rs2.
pub fn mul(rd: u8, rs1: u8, rs2: u8) -> Line
    requires rd { rd < 32 }
    requires rs1 { rs1 < 32 }
    requires rs2 { rs2 < 32 }
    ensures line { result ≡ mul rd rs1 rs2 }
{
    Line::does(Instr::AluReg {
        op: Alu::Mul,
        rd: x(rd),
        rs1: x(rs1),
        rs2: x(rs2),
    })
}

/// rd = rs1 + imm.
pub fn addi(rd: u8, rs1: u8, imm: u16) -> Line
    requires rd { rd < 32 }
    requires rs1 { rs1 < 32 }
    requires imm { imm < 2 ^ 11 }
    ensures line { result ≡ addi rd rs1 imm }
{
    Line::does(Instr::AluImm {
        op: Alu::Add,
        rd: x(rd),
        rs1: x(rs1),
        imm: imm.into(),
    })
}

/// rd = imm20 in its upper 20 bits.
pub fn lui(rd: u8, imm20: u32) -> Line
    requires rd { rd < 32 }
    requires imm20 { imm20 < 2 ^ 20 }
    ensures line { result ≡ lui rd imm20 }
{
    Line::does(Instr::Lui { rd: x(rd), imm20 })
}

/// rd = the word at base + offset.
pub fn lw(rd: u8, offset: u16, base: u8) -> Line
    requires rd { rd < 32 }
    requires offset { offset < 2 ^ 11 }
    requires base { base < 32 }
    ensures line { result ≡ lw rd offset base }
{
    Line::does(Instr::Load {
        kind: LoadKind::W,
        rd: x(rd),
        rs1: x(base),
        imm: offset.into(),
    })
}

/// The word at base + offset = rs2.
pub fn sw(rs2: u8, offset: u16, base: u8) -> Line
    requires rs2 { rs2 < 32 }
    requires offset { offset < 2 ^ 11 }
    requires base { base < 32 }
    ensures line { result ≡ sw rs2 offset base }
{
    Line::does(Instr::Store {
        kind: StoreKind::W,
        rs2: x(rs2),
        rs1: x(base),
        imm: offset.into(),
    })
}

/// rd = the CSR, and then the CSR = rs1.
pub fn csrrw(rd: u8, csr: u16, rs1: u8) -> Line
    requires rd { rd < 32 }
    requires csr { csr < 2 ^ 12 }
    requires rs1 { rs1 < 32 }
    ensures line { result ≡ csrrw rd csr rs1 }
{
    Line::does(Instr::Csr {
        op: CsrOp::Rw,
        rd: x(rd),
        rs1: x(rs1),
        csr,
    })
}

/// rd = the CSR, in which the bits of rs1 are set.
pub fn csrrs(rd: u8, csr: u16, rs1: u8) -> Line
    requires rd { rd < 32 }
    requires csr { csr < 2 ^ 12 }
    requires rs1 { rs1 < 32 }
    ensures line { result ≡ csrrs rd csr rs1 }
{
    Line::does(Instr::Csr {
        op: CsrOp::Rs,
        rd: x(rd),
        rs1: x(rs1),
        csr,
    })
}

/// The return from a trap.
pub fn mret() -> Line
    ensures line { result ≡ mret }
{
    Line::does(Instr::Mret)
}

/// To the label where rs1 = rs2.
pub fn beq(rs1: u8, rs2: u8, to: Label) -> Line
    requires rs1 { rs1 < 32 }
    requires rs2 { rs2 < 32 }
    ensures line { result ≡ beq rs1 rs2 (label_of to) }
{
    Line::branches(Cmp::Beq, x(rs1), x(rs2), to)
}

/// To the label where rs1 < rs2 as signed numbers.
pub fn blt(rs1: u8, rs2: u8, to: Label) -> Line
    requires rs1 { rs1 < 32 }
    requires rs2 { rs2 < 32 }
    ensures line { result ≡ blt rs1 rs2 (label_of to) }
{
    Line::branches(Cmp::Blt, x(rs1), x(rs2), to)
}

/// To the label; rd = the address of the next instruction.
pub fn jal(rd: u8, to: Label) -> Line
    requires rd { rd < 32 }
    ensures line { result ≡ jal rd (label_of to) }
{
    Line::jumps(x(rd), to)
}

/// A jump to itself.
pub fn jal_to_itself(rd: u8) -> Line
    requires rd { rd < 32 }
    ensures line { result ≡ Does (Instr.Jal rd (pos 0)) }
{
    Line::does(Instr::Jal { rd: x(rd), off: 0 })
}

/// A store of x0 into the word that is always 0, which clears the operand ports and the store latch.
pub fn clear_store() -> Line
    ensures line { result ≡ clear_store }
{
    sw(X0, ZERO_ADDRESS, X0)
}

/// A load of the word that is always 0, which clears the load latch.
pub fn clear_load() -> Line
    ensures line { result ≡ clear_load }
{
    lw(X0, ZERO_ADDRESS, X0)
}

/// The address of a port.
pub fn port(which: Port) -> u16
    ensures address { result ≡ port_address which }
    ensures bound { result < 2 ^ 11 }
{
    match which {
        Port::Take => 0x700,
        Port::Give => 0x704,
        Port::Out => 0x708,
        Port::Tape => 0x70c,
        Port::TapeLeft => 0x710,
        Port::Exit => 0x714,
        Port::Fault => 0x718,
        Port::Ack => 0x71c,
        Port::OutLeft => 0x720,
    }
}
