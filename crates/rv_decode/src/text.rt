//! From an instruction to its text.

ghost use Rattle.std.specs.Prelude.{◌≡◌, ◌<◌, ◌++◌, ◌∷◌, [], codes, decimal, false, OnOk, OnErr};
ghost use Rattle.std.specs.Fmt.{signed_decimal, digit_glyph};
ghost use Rattle.isa_model.specs.Encoding.{IsInstr};
ghost use Rattle.rv_decode.specs.Text.{hex_digits, register_text, target_text, address_text, csr_text, word_text, instr_line, text_of_instr};

use crate::names::{
    branch_name, csr_immediate_name, csr_name, immediate_name, load_name, register_name, store_name,
};
use isa_model::{Instr, RegNo};
use itoa::Buffer;
use std::alloc::AllocError;

/// The word of the FENCE that the text `fence` stands for: all accesses before it are ordered before all after it.
const FENCE_ALL: u32 = 0x0ff0_000f;

/// How many digits a CSR number has.
const CSR_DIGITS: u32 = 3;

/// How many digits a word has.
const WORD_DIGITS: u32 = 8;

/// Appends the text of an instruction in the manual's assembly syntax: registers as x0 to x31, numbers in decimal, one blank
/// after the mnemonic and no other, a target as `.+N` or `.-N`, a CSR as `0x` with three digits. FENCE is `fence` where its word
/// is 0x0ff0000f, and else `.word 0x` with eight digits. After want of memory `out` holds what it held.
pub fn instr_text(instr: Instr, out: &mut Vec<u8>) -> Result<(), AllocError>
    requires instruction { IsInstr instr }
    ensures ok { OnOk result (out.new.items ≡ out.old.items ++ text_of_instr instr) }
    ensures err { OnErr result (out.new.items ≡ out.old.items) }
{
    let mut text = Vec::new(*out.allocator());
    add_text(instr, &mut text)?;
    out.extend_from_slice(text.as_slice())
}

/// Appends the text of a word that isn't written as an instruction: `.word 0x` with eight digits. After want of memory `out` holds
/// what it held.
pub fn word_text(word: u32, out: &mut Vec<u8>) -> Result<(), AllocError>
    ensures ok { OnOk result (out.new.items ≡ out.old.items ++ word_text word) }
    ensures err { OnErr result (out.new.items ≡ out.old.items) }
{
    let mut text = Vec::new(*out.allocator());
    add_word(word, &mut text)?;
    out.extend_from_slice(text.as_slice())
}

/// Appends bytes.
fn add(bytes: &[u8], out: &mut Vec<u8>) -> Result<(), AllocError>
    ensures ok { OnOk result (out.new.items ≡ out.old.items ++ bytes.now) }
{
    out.extend_from_slice(bytes)
}

/// Appends a decimal number.
fn add_decimal(number: u32, out: &mut Vec<u8>) -> Result<(), AllocError>
    ensures ok { OnOk result (out.new.items ≡ out.old.items ++ decimal number) }
{
    add(Buffer::new().format(number).as_bytes(), out)
}

/// Appends a decimal number with its sign.
fn add_signed(number: i32, out: &mut Vec<u8>) -> Result<(), AllocError>
    ensures ok { OnOk result (out.new.items ≡ out.old.items ++ signed_decimal number) }
{
    add(Buffer::new().format(number).as_bytes(), out)
}

/// Appends the name of a register.
fn add_register(register: RegNo, out: &mut Vec<u8>) -> Result<(), AllocError>
    ensures ok { OnOk result (out.new.items ≡ out.old.items ++ register_text register) }
{
    add(b"x", out)?;
    add_decimal(u32::from(register.num()), out)
}

/// Appends the distance of a target.
fn add_target(off: i32, out: &mut Vec<u8>) -> Result<(), AllocError>
    ensures ok { OnOk result (out.new.items ≡ out.old.items ++ target_text off) }
{
    if off < 0 {
        add(b".-", out)?;
    } else {
        add(b".+", out)?;
    }
    add_decimal(off.unsigned_abs(), out)
}

/// Appends an address.
fn add_address(offset: i32, register: RegNo, out: &mut Vec<u8>) -> Result<(), AllocError>
    ensures ok { OnOk result (out.new.items ≡ out.old.items ++ address_text offset register) }
{
    add_signed(offset, out)?;
    add(b"(", out)?;
    add_register(register, out)?;
    add(b")", out)
}

/// The lower case hexadecimal digit of a number.
fn hex_digit(value: u32) -> u8
    requires digit { value < 16 }
    ensures value { result ≡ digit_glyph false value }
{
    if value < 10 {
        b'0' + value as u8
    } else {
        b'a' + (value as u8 - 10)
    }
}

/// Appends so many hexadecimal digits of a number.
fn add_hex(count: u32, number: u32, out: &mut Vec<u8>) -> Result<(), AllocError>
    ensures ok { OnOk result (out.new.items ≡ out.old.items ++ hex_digits count number) }
{
    if count == 0 {
        return Ok(());
    }
    add_hex(count - 1, number / 16, out)?;
    out.push(hex_digit(number % 16))?;
    Ok(())
}

/// Appends a CSR.
fn add_csr(csr: u16, out: &mut Vec<u8>) -> Result<(), AllocError>
    ensures ok { OnOk result (out.new.items ≡ out.old.items ++ csr_text csr) }
{
    add(b"0x", out)?;
    add_hex(CSR_DIGITS, u32::from(csr), out)
}

/// Appends a word that no instruction of the listing stands for.
fn add_word(word: u32, out: &mut Vec<u8>) -> Result<(), AllocError>
    ensures ok { OnOk result (out.new.items ≡ out.old.items ++ word_text word) }
{
    add(b".word 0x", out)?;
    add_hex(WORD_DIGITS, word, out)
}

/// Appends a mnemonic and its first operand, a register.
fn add_start(name: &[u8], register: RegNo, out: &mut Vec<u8>) -> Result<(), AllocError>
    ensures ok { OnOk result (out.new.items ≡ out.old.items ++ (name.now ++ (codes " " ++ register_text register))) }
{
    add(name, out)?;
    add(b" ", out)?;
    add_register(register, out)
}

/// Appends a further operand, a register.
fn add_next_register(register: RegNo, out: &mut Vec<u8>) -> Result<(), AllocError>
    ensures ok { OnOk result (out.new.items ≡ out.old.items ++ (codes "," ++ register_text register)) }
{
    add(b",", out)?;
    add_register(register, out)
}

/// Appends a further operand, a number.
fn add_next_decimal(number: u32, out: &mut Vec<u8>) -> Result<(), AllocError>
    ensures ok { OnOk result (out.new.items ≡ out.old.items ++ (codes "," ++ decimal number)) }
{
    add(b",", out)?;
    add_decimal(number, out)
}

/// Appends a further operand, a number with its sign.
fn add_next_signed(number: i32, out: &mut Vec<u8>) -> Result<(), AllocError>
    ensures ok { OnOk result (out.new.items ≡ out.old.items ++ (codes "," ++ signed_decimal number)) }
{
    add(b",", out)?;
    add_signed(number, out)
}

/// Appends a further operand, a target.
fn add_next_target(off: i32, out: &mut Vec<u8>) -> Result<(), AllocError>
    ensures ok { OnOk result (out.new.items ≡ out.old.items ++ (codes "," ++ target_text off)) }
{
    add(b",", out)?;
    add_target(off, out)
}

/// Appends a further operand, an address.
fn add_next_address(offset: i32, register: RegNo, out: &mut Vec<u8>) -> Result<(), AllocError>
    ensures ok { OnOk result (out.new.items ≡ out.old.items ++ (codes "," ++ address_text offset register)) }
{
    add(b",", out)?;
    add_address(offset, register, out)
}

/// Appends a further operand, a CSR.
fn add_next_csr(csr: u16, out: &mut Vec<u8>) -> Result<(), AllocError>
    ensures ok { OnOk result (out.new.items ≡ out.old.items ++ (codes "," ++ csr_text csr)) }
{
    add(b",", out)?;
    add_csr(csr, out)
}

/// Appends the text of an instruction.
fn add_text(instr: Instr, out: &mut Vec<u8>) -> Result<(), AllocError>
    ensures ok { OnOk result (out.new.items ≡ out.old.items ++ text_of_instr instr) }
{
    match instr {
        Instr::Lui { rd, imm20 } => upper(b"lui", rd, imm20, out),
        Instr::Auipc { rd, imm20 } => upper(b"auipc", rd, imm20, out),
        Instr::Jal { rd, off } => jump(b"jal", rd, off, out),
        Instr::Jalr { rd, rs1, imm } => access(b"jalr", rd, imm, rs1, out),
        Instr::Branch { op, rs1, rs2, off } => branch(branch_name(op), rs1, rs2, off, out),
        Instr::Load { kind, rd, rs1, imm } => access(load_name(kind), rd, imm, rs1, out),
        Instr::Store {
            kind,
            rs2,
            rs1,
            imm,
        } => access(store_name(kind), rs2, imm, rs1, out),
        Instr::AluImm { op, rd, rs1, imm } => immediate(immediate_name(op), rd, rs1, imm, out),
        Instr::AluReg { op, rd, rs1, rs2 } => registers(register_name(op), rd, rs1, rs2, out),
        Instr::Fence { word } => fence(word, out),
        Instr::Ecall => add(b"ecall", out),
        Instr::Ebreak => add(b"ebreak", out),
        Instr::Mret => add(b"mret", out),
        Instr::Csr { op, rd, rs1, csr } => csr_register(csr_name(op), rd, csr, rs1, out),
        Instr::CsrImm { op, rd, uimm, csr } => {
            csr_immediate(csr_immediate_name(op), rd, csr, uimm, out)
        }
    }
}

/// A mnemonic, a register and a number.
fn upper(name: &[u8], rd: RegNo, imm20: u32, out: &mut Vec<u8>) -> Result<(), AllocError>
    ensures ok { OnOk result (out.new.items ≡ out.old.items ++ instr_line name.now (register_text rd ∷ decimal imm20 ∷ [])) }
{
    add_start(name, rd, out)?;
    add_next_decimal(imm20, out)
}

/// A mnemonic, a register and a target.
fn jump(name: &[u8], rd: RegNo, off: i32, out: &mut Vec<u8>) -> Result<(), AllocError>
    ensures ok { OnOk result (out.new.items ≡ out.old.items ++ instr_line name.now (register_text rd ∷ target_text off ∷ [])) }
{
    add_start(name, rd, out)?;
    add_next_target(off, out)
}

/// A mnemonic, a register and an address.
fn access(
    name: &[u8],
    register: RegNo,
    offset: i32,
    base: RegNo,
    out: &mut Vec<u8>,
) -> Result<(), AllocError>
    ensures ok { OnOk result (out.new.items ≡ out.old.items ++ instr_line name.now (register_text register ∷ address_text offset base ∷ [])) }
{
    add_start(name, register, out)?;
    add_next_address(offset, base, out)
}

/// A mnemonic, two registers and a target.
fn branch(
    name: &[u8],
    rs1: RegNo,
    rs2: RegNo,
    off: i32,
    out: &mut Vec<u8>,
) -> Result<(), AllocError>
    ensures ok { OnOk result (out.new.items ≡ out.old.items ++ instr_line name.now (register_text rs1 ∷ register_text rs2 ∷ target_text off ∷ [])) }
{
    add_start(name, rs1, out)?;
    add_next_register(rs2, out)?;
    add_next_target(off, out)
}

/// A mnemonic, two registers and a number.
fn immediate(
    name: &[u8],
    rd: RegNo,
    rs1: RegNo,
    imm: i32,
    out: &mut Vec<u8>,
) -> Result<(), AllocError>
    ensures ok { OnOk result (out.new.items ≡ out.old.items ++ instr_line name.now (register_text rd ∷ register_text rs1 ∷ signed_decimal imm ∷ [])) }
{
    add_start(name, rd, out)?;
    add_next_register(rs1, out)?;
    add_next_signed(imm, out)
}

/// A mnemonic and three registers.
fn registers(
    name: &[u8],
    rd: RegNo,
    rs1: RegNo,
    rs2: RegNo,
    out: &mut Vec<u8>,
) -> Result<(), AllocError>
    ensures ok { OnOk result (out.new.items ≡ out.old.items ++ instr_line name.now (register_text rd ∷ register_text rs1 ∷ register_text rs2 ∷ [])) }
{
    add_start(name, rd, out)?;
    add_next_register(rs1, out)?;
    add_next_register(rs2, out)
}

/// A FENCE.
fn fence(word: u32, out: &mut Vec<u8>) -> Result<(), AllocError>
    ensures ok { OnOk result (out.new.items ≡ out.old.items ++ text_of_instr (Instr.Fence word)) }
{
    if word == FENCE_ALL {
        add(b"fence", out)
    } else {
        add_word(word, out)
    }
}

/// A mnemonic, a register, a CSR and a register.
fn csr_register(
    name: &[u8],
    rd: RegNo,
    csr: u16,
    rs1: RegNo,
    out: &mut Vec<u8>,
) -> Result<(), AllocError>
    ensures ok { OnOk result (out.new.items ≡ out.old.items ++ instr_line name.now (register_text rd ∷ csr_text csr ∷ register_text rs1 ∷ [])) }
{
    add_start(name, rd, out)?;
    add_next_csr(csr, out)?;
    add_next_register(rs1, out)
}

/// A mnemonic, a register, a CSR and a number.
fn csr_immediate(
    name: &[u8],
    rd: RegNo,
    csr: u16,
    uimm: u8,
    out: &mut Vec<u8>,
) -> Result<(), AllocError>
    ensures ok { OnOk result (out.new.items ≡ out.old.items ++ instr_line name.now (register_text rd ∷ csr_text csr ∷ decimal uimm ∷ [])) }
{
    add_start(name, rd, out)?;
    add_next_csr(csr, out)?;
    add_next_decimal(u32::from(uimm), out)
}
