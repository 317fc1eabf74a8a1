//! What the words at the front of a line make of their fields.

ghost use Rattle.std.specs.Prelude.{◌≡◌, ◌<◌, ◌^◌, pos, IfOk};
ghost use Rattle.isa_model.specs.Bits.{sign_extend, IsInBits};
ghost use Rattle.isa_model.specs.Encoding.{IsInstr};
ghost use Rattle.asm_line.specs.Fields.{AreInRange, IsTargetIn};
ghost use Rattle.asm_line.specs.Table.{one, alu_of_immediate, alu_of_shift, jump_to, branch_to, low_part, upper_part, load_word, pseudo_row, row_of};

use crate::fields::{Fields, Target};
use crate::line::{Item, Label};
use crate::mnemonic::{ImmediateOp, Mnemonic, Pseudo, ShiftOp, alu_of_immediate, alu_of_shift};
use crate::numbers::is_within;
use isa_model::RegNo;
use rv_decode::{Alu, Cmp, Instr, encode};
use std::alloc::{AllocError, Global};

/// The word of the text `fence`: all accesses before it are ordered before all after it.
const FENCE_ALL: u32 = 0x0ff0_000f;

/// The item of one instruction.
fn one(instr: Instr) -> Item
    requires instruction { IsInstr instr }
    ensures value { result ≡ one instr }
{
    Item::One(encode(instr))
}

/// A jump to a target.
fn jump_to(alloc: Global, rd: RegNo, target: Target) -> Result<Item, AllocError>
    requires rd { rd < 32 }
    requires range { IsTargetIn 20 target }
    ensures value { IfOk result (λ item. item ≡ jump_to rd target.entry) }
{
    match target {
        Target::Distance(off) => Ok(one(Instr::Jal { rd, off })),
        Target::Label(name) => Ok(Item::JumpTo {
            rd,
            label: Label::new(alloc, name.as_slice())?,
        }),
    }
}

/// A branch to a target.
fn branch_to(
    alloc: Global,
    op: Cmp,
    rs1: RegNo,
    rs2: RegNo,
    target: Target,
) -> Result<Item, AllocError>
    requires rs1 { rs1 < 32 }
    requires rs2 { rs2 < 32 }
    requires range { IsTargetIn 12 target }
    ensures value { IfOk result (λ item. item ≡ branch_to op rs1 rs2 target.entry) }
{
    match target {
        Target::Distance(off) => Ok(one(Instr::Branch { op, rs1, rs2, off })),
        Target::Label(name) => Ok(Item::BranchTo {
            op,
            rs1,
            rs2,
            label: Label::new(alloc, name.as_slice())?,
        }),
    }
}

/// A word as a signed number.
fn signed(word: u32) -> i64
    ensures value { result ≡ sign_extend 32 word }
{
    if word < 0x8000_0000 {
        i64::from(word)
    } else {
        i64::from(word) - 0x1_0000_0000
    }
}

/// The low 12 bits of a word, as a signed number.
fn signed_low(word: u32) -> i32
    ensures value { result ≡ sign_extend 12 (low_part word) }
{
    let low = word % 0x1000;
    if low < 0x800 {
        low as i32
    } else {
        low as i32 - 0x1000
    }
}

/// The upper 20 bits of a word, one more where its low 12 bits are a negative number.
fn upper(word: u32) -> u32
    ensures value { result ≡ upper_part word }
    ensures bound { result < 2 ^ 20 }
{
    word.wrapping_add(0x800) / 0x1000
}

/// The instructions that load a word.
fn load_word(rd: RegNo, word: u32) -> Item
    requires rd { rd < 32 }
    ensures value { result ≡ load_word rd word }
{
    let number = signed(word);
    if is_within(0x800, 0x7ff, number) {
        let imm = number as i32;
        return one(add_immediate(rd, zero(), imm));
    }
    let upper = Instr::Lui {
        rd,
        imm20: upper(word),
    };
    if word % 0x1000 == 0 {
        one(upper)
    } else {
        Item::Two(
            encode(upper),
            encode(add_immediate(rd, rd, signed_low(word))),
        )
    }
}

/// An ADDI.
fn add_immediate(rd: RegNo, rs1: RegNo, imm: i32) -> Instr
    ensures value { result ≡ Instr.AluImm Alu.Add rd rs1 imm }
{
    Instr::AluImm {
        op: Alu::Add,
        rd,
        rs1,
        imm,
    }
}

/// The register x0.
fn zero() -> RegNo
    ensures value { result ≡ 0 }
{
    RegNo::new(0).unwrap()
}

/// The register x1, which holds the return address.
fn ra() -> RegNo
    ensures value { result ≡ 1 }
{
    RegNo::new(1).unwrap()
}

/// The item of a word that stands for other instructions.
fn pseudo_item(alloc: Global, word: Pseudo, f: Fields) -> Result<Item, AllocError>
    requires range { AreInRange f }
    ensures value { IfOk result (λ item. item ≡ (pseudo_row word).item f.entry) }
{
    match word {
        Pseudo::Nop => Ok(one(add_immediate(zero(), zero(), 0))),
        Pseudo::Mv => Ok(one(add_immediate(f.rd, f.rs1, 0))),
        Pseudo::Not => Ok(one(Instr::AluImm {
            op: Alu::Xor,
            rd: f.rd,
            rs1: f.rs1,
            imm: -1,
        })),
        Pseudo::J => jump_to(alloc, zero(), f.jump),
        Pseudo::Ret => Ok(one(Instr::Jalr {
            rd: zero(),
            rs1: ra(),
            imm: 0,
        })),
        Pseudo::Beqz => branch_to(alloc, Cmp::Beq, f.rs1, zero(), f.branch),
        Pseudo::Bnez => branch_to(alloc, Cmp::Bne, f.rs1, zero(), f.branch),
        Pseudo::Li => Ok(load_word(f.rd, f.number)),
    }
}

/// The item of a word.
pub(crate) fn item(alloc: Global, word: Mnemonic, f: Fields) -> Result<Item, AllocError>
    requires range { AreInRange f }
    ensures value { IfOk result (λ item. item ≡ (row_of word).item f.entry) }
{
    match word {
        Mnemonic::Jal => jump_to(alloc, f.rd, f.jump),
        Mnemonic::Branch(op) => branch_to(alloc, op, f.rs1, f.rs2, f.branch),
        Mnemonic::Fence => Ok(Item::One(FENCE_ALL)),
        Mnemonic::Word => Ok(Item::One(f.number)),
        Mnemonic::Pseudo(word) => pseudo_item(alloc, word, f),
        Mnemonic::Lui => Ok(one(Instr::Lui {
            rd: f.rd,
            imm20: f.imm20,
        })),
        Mnemonic::Auipc => Ok(one(Instr::Auipc {
            rd: f.rd,
            imm20: f.imm20,
        })),
        Mnemonic::Jalr => Ok(one(Instr::Jalr {
            rd: f.rd,
            rs1: f.rs1,
            imm: f.imm12,
        })),
        Mnemonic::Load(kind) => Ok(one(Instr::Load {
            kind,
            rd: f.rd,
            rs1: f.rs1,
            imm: f.imm12,
        })),
        Mnemonic::Store(kind) => Ok(one(Instr::Store {
            kind,
            rs2: f.rs2,
            rs1: f.rs1,
            imm: f.imm12,
        })),
        Mnemonic::Immediate(op) => Ok(immediate(op, f.rd, f.rs1, f.imm12)),
        Mnemonic::Shift(op) => Ok(shift(op, f.rd, f.rs1, f.shamt)),
        Mnemonic::Register(op) => Ok(one(Instr::AluReg {
            op,
            rd: f.rd,
            rs1: f.rs1,
            rs2: f.rs2,
        })),
        Mnemonic::Ecall => Ok(one(Instr::Ecall)),
        Mnemonic::Ebreak => Ok(one(Instr::Ebreak)),
        Mnemonic::Mret => Ok(one(Instr::Mret)),
        Mnemonic::Csr(op) => Ok(one(Instr::Csr {
            op,
            rd: f.rd,
            rs1: f.rs1,
            csr: f.csr,
        })),
        Mnemonic::CsrImmediate(op) => Ok(one(Instr::CsrImm {
            op,
            rd: f.rd,
            uimm: f.uimm,
            csr: f.csr,
        })),
    }
}

/// An operation on a register and an immediate.
fn immediate(op: ImmediateOp, rd: RegNo, rs1: RegNo, imm: i32) -> Item
    requires rd { rd < 32 }
    requires rs1 { rs1 < 32 }
    requires imm { IsInBits 11 imm }
    ensures value { result ≡ one (Instr.AluImm (alu_of_immediate op) rd rs1 imm) }
{
    one(Instr::AluImm {
        op: alu_of_immediate(op),
        rd,
        rs1,
        imm,
    })
}

/// A shift by an amount that the instruction holds.
fn shift(op: ShiftOp, rd: RegNo, rs1: RegNo, amount: u8) -> Item
    requires rd { rd < 32 }
    requires rs1 { rs1 < 32 }
    requires amount { amount < 32 }
    ensures value { result ≡ one (Instr.AluImm (alu_of_shift op) rd rs1 (pos amount)) }
{
    one(Instr::AluImm {
        op: alu_of_shift(op),
        rd,
        rs1,
        imm: i32::from(amount),
    })
}
