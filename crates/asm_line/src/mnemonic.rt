//! The words at the front of a line.

ghost use Rattle.std.specs.Prelude.{◌≡◌};
ghost use Rattle.std.specs.List.{find};
ghost use Rattle.std.specs.Str.{bytes_eq};
ghost use Rattle.asm_line.specs.Table.{alu_of_immediate, alu_of_shift, pseudo_row, row_of, mnemonic_of};

use crate::fields::Operand;
use rv_decode::names::{
    branch_name, csr_immediate_name, csr_name, immediate_name, load_name, register_name, store_name,
};
use rv_decode::{Alu, Cmp, CsrOp, LoadKind, StoreKind};

/// An operation on a register and an immediate of 12 bits.
#[derive(Clone, Copy, Debug)]
pub(crate) enum ImmediateOp {
    Add,
    Slt,
    Sltu,
    Xor,
    Or,
    And,
}

/// A shift by an amount that the instruction holds.
#[derive(Clone, Copy, Debug)]
pub(crate) enum ShiftOp {
    Sll,
    Srl,
    Sra,
}

/// A word that stands for other instructions, as the manual's pseudo-instructions do.
#[derive(Clone, Copy, Debug)]
pub(crate) enum Pseudo {
    Nop,
    Mv,
    Not,
    J,
    Ret,
    Beqz,
    Bnez,
    Li,
}

/// A word that may stand at the front of a line.
#[derive(Clone, Copy, Debug)]
pub(crate) enum Mnemonic {
    Lui,
    Auipc,
    Jal,
    Jalr,
    Branch(Cmp),
    Load(LoadKind),
    Store(StoreKind),
    Immediate(ImmediateOp),
    Shift(ShiftOp),
    Register(Alu),
    Fence,
    Ecall,
    Ebreak,
    Mret,
    Csr(CsrOp),
    CsrImmediate(CsrOp),
    /// A number that is a word.
    Word,
    Pseudo(Pseudo),
}

/// Every word, once.
static ALL_WORDS: [Mnemonic; 64] = [
    Mnemonic::Lui,
    Mnemonic::Auipc,
    Mnemonic::Jal,
    Mnemonic::Jalr,
    Mnemonic::Branch(Cmp::Beq),
    Mnemonic::Branch(Cmp::Bne),
    Mnemonic::Branch(Cmp::Blt),
    Mnemonic::Branch(Cmp::Bge),
    Mnemonic::Branch(Cmp::Bltu),
    Mnemonic::Branch(Cmp::Bgeu),
    Mnemonic::Load(LoadKind::B),
    Mnemonic::Load(LoadKind::H),
    Mnemonic::Load(LoadKind::W),
    Mnemonic::Load(LoadKind::Bu),
    Mnemonic::Load(LoadKind::Hu),
    Mnemonic::Store(StoreKind::B),
    Mnemonic::Store(StoreKind::H),
    Mnemonic::Store(StoreKind::W),
    Mnemonic::Immediate(ImmediateOp::Add),
    Mnemonic::Immediate(ImmediateOp::Slt),
    Mnemonic::Immediate(ImmediateOp::Sltu),
    Mnemonic::Immediate(ImmediateOp::Xor),
    Mnemonic::Immediate(ImmediateOp::Or),
    Mnemonic::Immediate(ImmediateOp::And),
    Mnemonic::Shift(ShiftOp::Sll),
    Mnemonic::Shift(ShiftOp::Srl),
    Mnemonic::Shift(ShiftOp::Sra),
    Mnemonic::Register(Alu::Add),
    Mnemonic::Register(Alu::Sub),
    Mnemonic::Register(Alu::Sll),
    Mnemonic::Register(Alu::Slt),
    Mnemonic::Register(Alu::Sltu),
    Mnemonic::Register(Alu::Xor),
    Mnemonic::Register(Alu::Srl),
    Mnemonic::Register(Alu::Sra),
    Mnemonic::Register(Alu::Or),
    Mnemonic::Register(Alu::And),
    Mnemonic::Register(Alu::Mul),
    Mnemonic::Register(Alu::Mulh),
    Mnemonic::Register(Alu::Mulhsu),
    Mnemonic::Register(Alu::Mulhu),
    Mnemonic::Register(Alu::Div),
    Mnemonic::Register(Alu::Divu),
    Mnemonic::Register(Alu::Rem),
    Mnemonic::Register(Alu::Remu),
    Mnemonic::Fence,
    Mnemonic::Ecall,
    Mnemonic::Ebreak,
    Mnemonic::Mret,
    Mnemonic::Csr(CsrOp::Rw),
    Mnemonic::Csr(CsrOp::Rs),
    Mnemonic::Csr(CsrOp::Rc),
    Mnemonic::CsrImmediate(CsrOp::Rw),
    Mnemonic::CsrImmediate(CsrOp::Rs),
    Mnemonic::CsrImmediate(CsrOp::Rc),
    Mnemonic::Word,
    Mnemonic::Pseudo(Pseudo::Nop),
    Mnemonic::Pseudo(Pseudo::Mv),
    Mnemonic::Pseudo(Pseudo::Not),
    Mnemonic::Pseudo(Pseudo::J),
    Mnemonic::Pseudo(Pseudo::Ret),
    Mnemonic::Pseudo(Pseudo::Beqz),
    Mnemonic::Pseudo(Pseudo::Bnez),
    Mnemonic::Pseudo(Pseudo::Li),
];

/// The operation of a word with an immediate.
pub(crate) fn alu_of_immediate(op: ImmediateOp) -> Alu
    ensures value { result ≡ alu_of_immediate op }
{
    match op {
        ImmediateOp::Add => Alu::Add,
        ImmediateOp::Slt => Alu::Slt,
        ImmediateOp::Sltu => Alu::Sltu,
        ImmediateOp::Xor => Alu::Xor,
        ImmediateOp::Or => Alu::Or,
        ImmediateOp::And => Alu::And,
    }
}

/// The operation of a shift.
pub(crate) fn alu_of_shift(op: ShiftOp) -> Alu
    ensures value { result ≡ alu_of_shift op }
{
    match op {
        ShiftOp::Sll => Alu::Sll,
        ShiftOp::Srl => Alu::Srl,
        ShiftOp::Sra => Alu::Sra,
    }
}

/// The name of a word that stands for other instructions.
fn pseudo_name(word: Pseudo) -> &'static [u8]
    ensures name { result.now ≡ (pseudo_row word).name }
{
    match word {
        Pseudo::Nop => b"nop",
        Pseudo::Mv => b"mv",
        Pseudo::Not => b"not",
        Pseudo::J => b"j",
        Pseudo::Ret => b"ret",
        Pseudo::Beqz => b"beqz",
        Pseudo::Bnez => b"bnez",
        Pseudo::Li => b"li",
    }
}

/// The name of a word.
fn name(word: Mnemonic) -> &'static [u8]
    ensures name { result.now ≡ (row_of word).name }
{
    match word {
        Mnemonic::Lui => b"lui",
        Mnemonic::Auipc => b"auipc",
        Mnemonic::Jal => b"jal",
        Mnemonic::Jalr => b"jalr",
        Mnemonic::Branch(op) => branch_name(op),
        Mnemonic::Load(kind) => load_name(kind),
        Mnemonic::Store(kind) => store_name(kind),
        Mnemonic::Immediate(op) => immediate_name(alu_of_immediate(op)),
        Mnemonic::Shift(op) => immediate_name(alu_of_shift(op)),
        Mnemonic::Register(op) => register_name(op),
        Mnemonic::Fence => b"fence",
        Mnemonic::Ecall => b"ecall",
        Mnemonic::Ebreak => b"ebreak",
        Mnemonic::Mret => b"mret",
        Mnemonic::Csr(op) => csr_name(op),
        Mnemonic::CsrImmediate(op) => csr_immediate_name(op),
        Mnemonic::Word => b".word",
        Mnemonic::Pseudo(word) => pseudo_name(word),
    }
}

/// The operands of a word that stands for other instructions.
fn pseudo_operands(word: Pseudo) -> &'static [Operand]
    ensures operands { result.now ≡ (pseudo_row word).operands }
{
    match word {
        Pseudo::Nop | Pseudo::Ret => &[],
        Pseudo::Mv | Pseudo::Not => &[Operand::Rd, Operand::Rs1],
        Pseudo::J => &[Operand::JumpTarget],
        Pseudo::Beqz | Pseudo::Bnez => &[Operand::Rs1, Operand::BranchTarget],
        Pseudo::Li => &[Operand::Rd, Operand::Number],
    }
}

/// The operands of a word.
pub(crate) fn operands(word: Mnemonic) -> &'static [Operand]
    ensures operands { result.now ≡ (row_of word).operands }
{
    match word {
        Mnemonic::Lui | Mnemonic::Auipc => &[Operand::Rd, Operand::Imm20],
        Mnemonic::Jal => &[Operand::Rd, Operand::JumpTarget],
        Mnemonic::Jalr | Mnemonic::Load(_) => &[Operand::Rd, Operand::Address],
        Mnemonic::Branch(_) => &[Operand::Rs1, Operand::Rs2, Operand::BranchTarget],
        Mnemonic::Store(_) => &[Operand::Rs2, Operand::Address],
        Mnemonic::Immediate(_) => &[Operand::Rd, Operand::Rs1, Operand::Imm12],
        Mnemonic::Shift(_) => &[Operand::Rd, Operand::Rs1, Operand::Shamt],
        Mnemonic::Register(_) => &[Operand::Rd, Operand::Rs1, Operand::Rs2],
        Mnemonic::Fence | Mnemonic::Ecall | Mnemonic::Ebreak | Mnemonic::Mret => &[],
        Mnemonic::Csr(_) => &[Operand::Rd, Operand::Csr, Operand::Rs1],
        Mnemonic::CsrImmediate(_) => &[Operand::Rd, Operand::Csr, Operand::Uimm],
        Mnemonic::Word => &[Operand::Number],
        Mnemonic::Pseudo(word) => pseudo_operands(word),
    }
}

/// The first of some words that has a name.
fn first_named(words: &[Mnemonic], text: &[u8]) -> Option<Mnemonic>
    ensures value { result ≡ find (λ word. bytes_eq (row_of word).name text.now) words.now }
{
    for word in words {
        if name(*word) == text {
            return Some(*word);
        }
    }
    None
}

/// The word of a name.
pub(crate) fn mnemonic_of(text: &[u8]) -> Option<Mnemonic>
    ensures value { result ≡ mnemonic_of text.now }
{
    first_named(&ALL_WORDS, text)
}
