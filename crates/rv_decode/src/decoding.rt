//! From a word to its instruction.

ghost use Rattle.std.specs.Prelude.{◌≡◌, IfSome};
ghost use Rattle.isa_model.specs.Bits.{bits};
ghost use Rattle.isa_model.specs.Encoding.{IsInstr, word_of};
ghost use Rattle.isa_model.specs.InstrTable.{instr_of, instr_in, rd_field, rs1_field, jalr_rows, branch_rows, load_rows, store_rows, alu_imm_rows, alu_reg_rows, fence_rows, system_rows};

use crate::fields::{b_immediate, bits, i_immediate, j_immediate, register, s_immediate};
use isa_model::{Alu, Cmp, CsrOp, Instr, LoadKind, StoreKind};

/// The instruction of a word; None exactly where the table has none for it.
pub fn decode(word: u32) -> Option<Instr>
    ensures table { result ≡ instr_of word }
    ensures valid { IfSome result IsInstr }
    ensures back { IfSome result (λ instr. word_of instr ≡ word) }
{
    by_opcode(word)
}

/// The instruction of a word, by the fields of its opcode.
fn by_opcode(word: u32) -> Option<Instr>
    ensures table { result ≡ instr_of word }
{
    match bits(word, 0, 7) {
        0x37 => Some(Instr::Lui {
            rd: register(word, 7),
            imm20: bits(word, 12, 20),
        }),
        0x17 => Some(Instr::Auipc {
            rd: register(word, 7),
            imm20: bits(word, 12, 20),
        }),
        0x6f => Some(Instr::Jal {
            rd: register(word, 7),
            off: j_immediate(word),
        }),
        0x67 => indirect_jump(word),
        0x63 => branch(word),
        0x03 => load(word),
        0x23 => store(word),
        0x13 => alu_immediate(word),
        0x33 => alu_register(word),
        0x0f => fence(word),
        0x73 => system(word),
        _ => None,
    }
}

/// The instruction of a word of the opcode JALR.
fn indirect_jump(word: u32) -> Option<Instr>
    ensures rows { result ≡ instr_in jalr_rows word }
{
    if bits(word, 12, 3) == 0 {
        Some(Instr::Jalr {
            rd: register(word, 7),
            rs1: register(word, 15),
            imm: i_immediate(word),
        })
    } else {
        None
    }
}

/// The instruction of a word of the opcode BRANCH.
fn branch(word: u32) -> Option<Instr>
    ensures rows { result ≡ instr_in branch_rows word }
{
    let op = match bits(word, 12, 3) {
        0 => Cmp::Beq,
        1 => Cmp::Bne,
        4 => Cmp::Blt,
        5 => Cmp::Bge,
        6 => Cmp::Bltu,
        7 => Cmp::Bgeu,
        _ => return None,
    };
    Some(Instr::Branch {
        op,
        rs1: register(word, 15),
        rs2: register(word, 20),
        off: b_immediate(word),
    })
}

/// The instruction of a word of the opcode LOAD.
fn load(word: u32) -> Option<Instr>
    ensures rows { result ≡ instr_in load_rows word }
{
    let kind = match bits(word, 12, 3) {
        0 => LoadKind::B,
        1 => LoadKind::H,
        2 => LoadKind::W,
        4 => LoadKind::Bu,
        5 => LoadKind::Hu,
        _ => return None,
    };
    Some(Instr::Load {
        kind,
        rd: register(word, 7),
        rs1: register(word, 15),
        imm: i_immediate(word),
    })
}

/// The instruction of a word of the opcode STORE.
fn store(word: u32) -> Option<Instr>
    ensures rows { result ≡ instr_in store_rows word }
{
    let kind = match bits(word, 12, 3) {
        0 => StoreKind::B,
        1 => StoreKind::H,
        2 => StoreKind::W,
        _ => return None,
    };
    Some(Instr::Store {
        kind,
        rs2: register(word, 20),
        rs1: register(word, 15),
        imm: s_immediate(word),
    })
}

/// The instruction of a word of the opcode OP-IMM. The immediate of a shift is its low five bits, and the bits above them choose
/// the operation.
fn alu_immediate(word: u32) -> Option<Instr>
    ensures rows { result ≡ instr_in alu_imm_rows word }
{
    let amount = bits(word, 20, 5) as i32;
    let (op, imm) = match (bits(word, 12, 3), bits(word, 25, 7)) {
        (0, _) => (Alu::Add, i_immediate(word)),
        (2, _) => (Alu::Slt, i_immediate(word)),
        (3, _) => (Alu::Sltu, i_immediate(word)),
        (4, _) => (Alu::Xor, i_immediate(word)),
        (6, _) => (Alu::Or, i_immediate(word)),
        (7, _) => (Alu::And, i_immediate(word)),
        (1, 0) => (Alu::Sll, amount),
        (5, 0) => (Alu::Srl, amount),
        (5, 0x20) => (Alu::Sra, amount),
        _ => return None,
    };
    Some(Instr::AluImm {
        op,
        rd: register(word, 7),
        rs1: register(word, 15),
        imm,
    })
}

/// The instruction of a word of the opcode OP.
fn alu_register(word: u32) -> Option<Instr>
    ensures rows { result ≡ instr_in alu_reg_rows word }
{
    let op = match (bits(word, 12, 3), bits(word, 25, 7)) {
        (0, 0) => Alu::Add,
        (0, 0x20) => Alu::Sub,
        (1, 0) => Alu::Sll,
        (2, 0) => Alu::Slt,
        (3, 0) => Alu::Sltu,
        (4, 0) => Alu::Xor,
        (5, 0) => Alu::Srl,
        (5, 0x20) => Alu::Sra,
        (6, 0) => Alu::Or,
        (7, 0) => Alu::And,
        (0, 1) => Alu::Mul,
        (1, 1) => Alu::Mulh,
        (2, 1) => Alu::Mulhsu,
        (3, 1) => Alu::Mulhu,
        (4, 1) => Alu::Div,
        (5, 1) => Alu::Divu,
        (6, 1) => Alu::Rem,
        (7, 1) => Alu::Remu,
        _ => return None,
    };
    Some(Instr::AluReg {
        op,
        rd: register(word, 7),
        rs1: register(word, 15),
        rs2: register(word, 20),
    })
}

/// The instruction of a word of the opcode MISC-MEM.
fn fence(word: u32) -> Option<Instr>
    ensures rows { result ≡ instr_in fence_rows word }
{
    if bits(word, 12, 3) == 0 {
        Some(Instr::Fence { word })
    } else {
        None
    }
}

/// The instruction of a word of the opcode SYSTEM.
fn system(word: u32) -> Option<Instr>
    ensures rows { result ≡ instr_in system_rows word }
{
    match bits(word, 12, 3) {
        0 => without_fields(word),
        1 => Some(csr_register(word, CsrOp::Rw)),
        2 => Some(csr_register(word, CsrOp::Rs)),
        3 => Some(csr_register(word, CsrOp::Rc)),
        5 => Some(csr_immediate(word, CsrOp::Rw)),
        6 => Some(csr_immediate(word, CsrOp::Rs)),
        7 => Some(csr_immediate(word, CsrOp::Rc)),
        _ => None,
    }
}

/// The instruction of a word of the opcode SYSTEM whose funct3 is 0.
fn without_fields(word: u32) -> Option<Instr>
    requires funct3 { bits 12 3 word ≡ 0 }
    ensures rows { result ≡ instr_in system_rows word }
{
    if bits(word, 7, 13) != 0 {
        return None;
    }
    match bits(word, 20, 12) {
        0x000 => Some(Instr::Ecall),
        0x001 => Some(Instr::Ebreak),
        0x302 => Some(Instr::Mret),
        _ => None,
    }
}

/// A CSR instruction on a register.
fn csr_register(word: u32, op: CsrOp) -> Instr
    ensures value { result ≡ Instr.Csr op (rd_field word) (rs1_field word) (bits 20 12 word) }
{
    Instr::Csr {
        op,
        rd: register(word, 7),
        rs1: register(word, 15),
        csr: bits(word, 20, 12) as u16,
    }
}

/// A CSR instruction on an immediate.
fn csr_immediate(word: u32, op: CsrOp) -> Instr
    ensures value { result ≡ Instr.CsrImm op (rd_field word) (bits 15 5 word) (bits 20 12 word) }
{
    Instr::CsrImm {
        op,
        rd: register(word, 7),
        uimm: bits(word, 15, 5) as u8,
        csr: bits(word, 20, 12) as u16,
    }
}
