//! The mnemonics of words that stand for several instructions of one form (unprivileged manual, "RV32/64G Instruction Set
//! Listings").

ghost use Rattle.std.specs.Prelude.{◌≡◌};
ghost use Rattle.rv_decode.specs.Mnemonics.{branch_name, load_name, store_name, register_name, immediate_name, csr_name, csr_immediate_name};

use isa_model::{Alu, Cmp, CsrOp, LoadKind, StoreKind};

/// The mnemonic of a branch.
pub fn branch_name(op: Cmp) -> &'static [u8]
    ensures name { result.now ≡ branch_name op }
{
    match op {
        Cmp::Beq => b"beq",
        Cmp::Bne => b"bne",
        Cmp::Blt => b"blt",
        Cmp::Bge => b"bge",
        Cmp::Bltu => b"bltu",
        Cmp::Bgeu => b"bgeu",
    }
}

/// The mnemonic of a load.
pub fn load_name(kind: LoadKind) -> &'static [u8]
    ensures name { result.now ≡ load_name kind }
{
    match kind {
        LoadKind::B => b"lb",
        LoadKind::H => b"lh",
        LoadKind::W => b"lw",
        LoadKind::Bu => b"lbu",
        LoadKind::Hu => b"lhu",
    }
}

/// The mnemonic of a store.
pub fn store_name(kind: StoreKind) -> &'static [u8]
    ensures name { result.now ≡ store_name kind }
{
    match kind {
        StoreKind::B => b"sb",
        StoreKind::H => b"sh",
        StoreKind::W => b"sw",
    }
}

/// The mnemonic of an operation on two registers.
pub fn register_name(op: Alu) -> &'static [u8]
    ensures name { result.now ≡ register_name op }
{
    match op {
        Alu::Add => b"add",
        Alu::Sub => b"sub",
        Alu::Sll => b"sll",
        Alu::Slt => b"slt",
        Alu::Sltu => b"sltu",
        Alu::Xor => b"xor",
        Alu::Srl => b"srl",
        Alu::Sra => b"sra",
        Alu::Or => b"or",
        Alu::And => b"and",
        Alu::Mul => b"mul",
        Alu::Mulh => b"mulh",
        Alu::Mulhsu => b"mulhsu",
        Alu::Mulhu => b"mulhu",
        Alu::Div => b"div",
        Alu::Divu => b"divu",
        Alu::Rem => b"rem",
        Alu::Remu => b"remu",
    }
}

/// The mnemonic of an operation on a register and an immediate; empty for `Sub` and the operations of M, of which there is none.
pub fn immediate_name(op: Alu) -> &'static [u8]
    ensures name { result.now ≡ immediate_name op }
{
    match op {
        Alu::Add => b"addi",
        Alu::Sll => b"slli",
        Alu::Slt => b"slti",
        Alu::Sltu => b"sltiu",
        Alu::Xor => b"xori",
        Alu::Srl => b"srli",
        Alu::Sra => b"srai",
        Alu::Or => b"ori",
        Alu::And => b"andi",
        Alu::Sub
        | Alu::Mul
        | Alu::Mulh
        | Alu::Mulhsu
        | Alu::Mulhu
        | Alu::Div
        | Alu::Divu
        | Alu::Rem
        | Alu::Remu => b"",
    }
}

/// The mnemonic of a CSR instruction on a register.
pub fn csr_name(op: CsrOp) -> &'static [u8]
    ensures name { result.now ≡ csr_name op }
{
    match op {
        CsrOp::Rw => b"csrrw",
        CsrOp::Rs => b"csrrs",
        CsrOp::Rc => b"csrrc",
    }
}

/// The mnemonic of a CSR instruction on an immediate.
pub fn csr_immediate_name(op: CsrOp) -> &'static [u8]
    ensures name { result.now ≡ csr_immediate_name op }
{
    match op {
        CsrOp::Rw => b"csrrwi",
        CsrOp::Rs => b"csrrsi",
        CsrOp::Rc => b"csrrci",
    }
}
