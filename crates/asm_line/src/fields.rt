//! Operands and the fields that they fill.

ghost use Rattle.std.specs.Prelude.{◌≡◌, ◌-◌, ◌^◌, ◌≤◌, ◌<◌, FitsSigned, option_copied};
ghost use Rattle.std.specs.Int.{w32};
ghost use Rattle.asm_line.specs.Fields.{no_fields};
ghost use Rattle.asm_line.specs.Operands.{distance_in, target, number_in, unsigned_in, word_in, with_operand, with_operands, has_shape, have_shapes};
ghost use Rattle.asm_line.specs.Pieces.{texts_after};

use crate::line::AsmKind;
use crate::names::{csr, is_name, register};
use crate::numbers::{distance, is_even, is_within, number_in, unsigned_in, word_value};
use crate::pieces::{Separator, address_parts, cut, is_address, trim};
use isa_model::RegNo;
use std::marker::Model;

/// An operand, named for the field of the instruction that it fills.
#[derive(Clone, Copy, Debug)]
pub(crate) enum Operand {
    /// The destination register.
    Rd,
    /// The first source register.
    Rs1,
    /// The second source register.
    Rs2,
    /// A number of 12 bits with its sign.
    Imm12,
    /// The upper 20 bits of a word, as a number.
    Imm20,
    /// The amount of a shift.
    Shamt,
    /// A number of 5 bits.
    Uimm,
    /// `offset(rs1)`.
    Address,
    /// A control and status register.
    Csr,
    /// The target of a jump.
    JumpTarget,
    /// The target of a conditional branch.
    BranchTarget,
    /// A number, taken modulo 2^32.
    Number,
}

/// The name of a label in the text of a line, which contracts see as its bytes.
#[derive(Debug, Drop)]
pub(crate) struct Name<'a> {
    text: &'a [u8],
}

impl<'a> Model for Name<'a> {
    ghost use Rattle.std.specs.Prelude.{ℕ, List};

    ghost Value = { List ℕ };

    ghost view = { λ n. n.text.now };
}

impl<'a> Name<'a> {
    /// The name that is all of a text.
    pub(crate) fn new(text: &'a [u8]) -> Name<'a>
        ensures name { result ≡ text.now }
    {
        Name { text }
    }

    /// Its bytes.
    pub(crate) fn as_slice(&self) -> &[u8]
        ensures name { result.now ≡ self.now }
    {
        self.text
    }
}

/// Where a jump or a branch leads.
#[derive(Debug, Drop)]
pub(crate) enum Target<'a> {
    /// This many bytes from the instruction itself.
    Distance(i32),
    /// To the place of a label.
    Label(Name<'a>),
}

/// What operands say.
#[derive(Debug, Drop)]
pub(crate) struct Fields<'a> {
    pub rd: RegNo,
    pub rs1: RegNo,
    pub rs2: RegNo,
    pub imm12: i32,
    pub imm20: u32,
    pub shamt: u8,
    pub uimm: u8,
    pub csr: u16,
    pub jump: Target<'a>,
    pub branch: Target<'a>,
    pub number: u32,
}

/// How far a jump reaches, in bytes.
const JUMP_REACH: u32 = 0x10_0000;

/// How far a branch reaches, in bytes.
const BRANCH_REACH: u32 = 0x1000;

/// The fields before any operand.
fn no_fields() -> Fields<'static>
    ensures value { result ≡ no_fields }
{
    let zero = RegNo::new(0).unwrap();
    Fields {
        rd: zero,
        rs1: zero,
        rs2: zero,
        imm12: 0,
        imm20: 0,
        shamt: 0,
        uimm: 0,
        csr: 0,
        jump: Target::Distance(0),
        branch: Target::Distance(0),
        number: 0,
    }
}

/// A number of 12 bits with its sign.
fn imm12(text: &[u8]) -> Result<i32, AsmKind>
    ensures value { result ≡ number_in (2 ^ 11) (2 ^ 11 - 1) text.now }
{
    let number = number_in(0x800, 0x7ff, text)?;
    Ok(number as i32)
}

/// A number of 5 bits.
fn five_bits(text: &[u8]) -> Result<u8, AsmKind>
    ensures value { result ≡ unsigned_in 31 text.now }
{
    let number = unsigned_in(0x1f, text)?;
    Ok(number as u8)
}

/// A number as a word.
fn word(text: &[u8]) -> Result<u32, AsmKind>
    ensures value { result ≡ word_in text.now }
{
    let number = number_in(0x8000_0000, 0xffff_ffff, text)?;
    Ok(word_value(number))
}

/// A distance in 32 bits.
fn offset(off: i64) -> i32
    requires range { FitsSigned w32 off }
    ensures same { result ≡ off }
{
    off as i32
}

/// An even distance from -reach to reach - 2.
fn distance_in(reach: u32, off: i64) -> Result<Target<'static>, AsmKind>
    requires reach { (2 ≤ reach) × (reach ≤ 2 ^ 20) }
    ensures value { result ≡ distance_in reach off }
{
    if is_within(reach, reach - 2, off) && is_even(off) {
        Ok(Target::Distance(offset(off)))
    } else {
        Err(AsmKind::OutOfRange)
    }
}

/// The target of a jump or a branch: a distance, or else a label.
fn target_in(reach: u32, text: &[u8]) -> Result<Target<'_>, AsmKind>
    requires reach { (2 ≤ reach) × (reach ≤ 2 ^ 20) }
    ensures value { result ≡ target reach text.now }
{
    match distance(text) {
        Some(off) => distance_in(reach, off),
        None => {
            if is_name(text) {
                Ok(Target::Label(Name::new(text)))
            } else {
                Err(AsmKind::BadNumber)
            }
        }
    }
}

/// The fields with an address: its register is judged first.
fn with_address<'a>(text: &'a [u8], fields: Fields<'a>) -> Result<Fields<'a>, AsmKind>
    ensures value { result ≡ with_operand Operand.Address text.now fields.entry }
{
    let (offset, base) = address_parts(text);
    let rs1 = register(base)?;
    let imm12 = imm12(offset)?;
    Ok(Fields {
        rs1,
        imm12,
        ..fields
    })
}

/// The fields with what an operand says, or its first fault.
fn with_operand<'a>(
    operand: Operand,
    text: &'a [u8],
    fields: Fields<'a>,
) -> Result<Fields<'a>, AsmKind>
    ensures value { result ≡ with_operand operand text.now fields.entry }
{
    let mut fields = fields;
    match operand {
        Operand::Rd => fields.rd = register(text)?,
        Operand::Rs1 => fields.rs1 = register(text)?,
        Operand::Rs2 => fields.rs2 = register(text)?,
        Operand::Imm12 => fields.imm12 = imm12(text)?,
        Operand::Imm20 => fields.imm20 = unsigned_in(0xf_ffff, text)?,
        Operand::Shamt => fields.shamt = five_bits(text)?,
        Operand::Uimm => fields.uimm = five_bits(text)?,
        Operand::Address => return with_address(text, fields),
        Operand::Csr => fields.csr = csr(text)?,
        Operand::JumpTarget => fields.jump = target_in(JUMP_REACH, text)?,
        Operand::BranchTarget => fields.branch = target_in(BRANCH_REACH, text)?,
        Operand::Number => fields.number = word(text)?,
    }
    Ok(fields)
}

/// Whether a text has the shape that an operand asks for.
fn has_shape(operand: Operand, text: &[u8]) -> bool
    ensures value { result ≡ has_shape operand text.now }
{
    match operand {
        Operand::Address => is_address(text),
        _ => true,
    }
}

/// Whether there are as many texts between commas as operands, each of its shape.
pub(crate) fn have_shapes(operands: &[Operand], texts: Option<&[u8]>) -> bool
    ensures value { result ≡ have_shapes operands.now (texts_after (option_copied texts.entry)) }
{
    let mut rest = texts;
    for operand in operands {
        let Some(text) = rest else {
            return false;
        };
        let (piece, next) = cut(text, Separator::Comma);
        if !has_shape(*operand, trim(piece)) {
            return false;
        }
        rest = next;
    }
    rest.is_none()
}

/// The fields that operands fill, or the first fault from the left.
pub(crate) fn fields_of<'a>(
    operands: &[Operand],
    texts: Option<&'a [u8]>,
) -> Result<Fields<'a>, AsmKind>
    ensures value { result ≡ with_operands operands.now (texts_after (option_copied texts.entry)) no_fields }
{
    let mut fields = no_fields();
    let mut rest = texts;
    for operand in operands {
        let Some(text) = rest else {
            return Ok(fields);
        };
        let (piece, next) = cut(text, Separator::Comma);
        fields = with_operand(*operand, trim(piece), fields)?;
        rest = next;
    }
    Ok(fields)
}
