//! The words of lines whose labels are known.

ghost use Rattle.std.specs.Prelude.{◌≡◌, ◌≤◌, ◌-◌, ◌^◌, ◌⊎◌, ◌++◌, ◌∷◌, [], Ok, Err, map, true, IfOk, IfErr, OnOk};
ghost use Rattle.isa_model.specs.Bits.{IsInBits};
ghost use Rattle.isa_model.specs.Encoding.{IsEven, word_of};
ghost use Rattle.asm_line.specs.Numbers.{is_within};
ghost use Rattle.rv_asm.specs.Assembly.{distance_to, words_of_item, words_of_line, on_line, linked};
ghost use Rattle.rv_asm.specs.Memory.{memory_fault};
ghost use Rattle.rv_asm.specs.Code.{words_of_code, words_of_result, place_in};

use crate::fault::AsmFault;
use crate::listing::Placed;
use crate::places::Places;
use asm_line::{AsmKind, Item};
use rv_decode::{Cmp, Instr, RegNo, encode};
use std::alloc::{AllocError, Global};
use std::marker::Model;

/// How far a jump reaches, in bytes.
const JUMP_REACH: u32 = 0x10_0000;

/// How far a branch reaches, in bytes.
const BRANCH_REACH: u32 = 0x1000;

/// Words in their order, each with the number of its line, which contracts see as a list.
#[derive(Drop)]
pub(crate) struct NumberedWords {
    inner: Vec<(u32, u32)>,
}

impl Model for NumberedWords {
    ghost use Rattle.std.specs.Prelude.{ℕ, List};

    ghost Value = { List (ℕ × ℕ) };

    ghost view = { λ w. w.inner.items };
}

impl NumberedWords {
    /// No words.
    fn new(alloc: Global) -> NumberedWords
        ensures empty { result ≡ [] }
    {
        NumberedWords {
            inner: Vec::new(alloc),
        }
    }

    /// Puts a word after the others.
    fn push(&mut self, word: u32, number: u32) -> Result<(), AllocError>
        ensures ok { OnOk result (self.new ≡ self.old ++ (word, number) ∷ []) }
    {
        self.inner.push((word, number))?;
        Ok(())
    }

    /// Puts the words of a line after the others.
    fn push_line(&mut self, code: Code, number: u32) -> Result<(), AllocError>
        ensures ok { OnOk result (self.new ≡ self.old ++ on_line number (words_of_code code)) }
    {
        match code {
            Code::Empty => Ok(()),
            Code::One(word) => self.push(word, number),
            Code::Two(first, second) => {
                self.push(first, number)?;
                self.push(second, number)
            }
        }
    }

    /// The words without their lines.
    pub(crate) fn words(&self, alloc: Global) -> Result<Vec<u32>, AllocError>
        ensures words { IfOk result (λ words. words.items ≡ map (λ w. w.0) self.now) }
    {
        self.inner.iter().map(|pair| pair.0).collect(alloc)
    }

    /// The number of the line of each word.
    pub(crate) fn lines(&self, alloc: Global) -> Result<Vec<u32>, AllocError>
        ensures lines { IfOk result (λ lines. lines.items ≡ map (λ w. w.1) self.now) }
    {
        self.inner.iter().map(|pair| pair.1).collect(alloc)
    }
}

/// The words of a line.
#[derive(Clone, Copy)]
pub(crate) enum Code {
    /// None.
    Empty,
    /// One word.
    One(u32),
    /// Two words, in the order of their addresses.
    Two(u32, u32),
}

/// Whether a number is from -below to above.
fn is_within(below: u32, above: u32, number: i64) -> bool
    ensures value { result ≡ is_within below above number }
{
    -i64::from(below) <= number && number <= i64::from(above)
}

/// The distance in bytes from the instruction at a place to the place of a label.
fn distance_to(reach: u32, at: u32, place: Option<u32>) -> Result<i32, AsmKind>
    requires reach { (2 ≤ reach) × (reach ≤ 2 ^ 20) }
    ensures value { result ≡ distance_to reach at place }
    ensures range { IfOk result (λ off. is_within reach (reach - 2) off ≡ true) }
    ensures even { IfOk result IsEven }
{
    let Some(place) = place else {
        return Err(AsmKind::UnknownLabel);
    };
    let off = i64::from(place) * 4 - i64::from(at) * 4;
    if is_within(reach, reach - 2, off) {
        Ok(off as i32)
    } else {
        Err(AsmKind::OutOfRange)
    }
}

/// The word of a jump.
fn jump(rd: RegNo, off: i32) -> u32
    requires range { IsInBits 20 off }
    requires even { IsEven off }
    ensures word { result ≡ word_of (Instr.Jal rd off) }
{
    prove!(rd.num() < 32);
    encode(Instr::Jal { rd, off })
}

/// The word of a branch.
fn branch(op: Cmp, rs1: RegNo, rs2: RegNo, off: i32) -> u32
    requires range { IsInBits 12 off }
    requires even { IsEven off }
    ensures word { result ≡ word_of (Instr.Branch op rs1 rs2 off) }
{
    prove!(rs1.num() < 32);
    prove!(rs2.num() < 32);
    encode(Instr::Branch { op, rs1, rs2, off })
}

/// The words of an item at a place.
fn words_of_item(item: &Item, at: u32, places: &Places) -> Result<Code, AsmKind>
    ensures value { words_of_result result ≡ words_of_item (place_in places.now) at item.now }
{
    match item {
        Item::Empty => Ok(Code::Empty),
        Item::One(word) => Ok(Code::One(*word)),
        Item::Two(first, second) => Ok(Code::Two(*first, *second)),
        Item::JumpTo { rd, label } => {
            let off = distance_to(JUMP_REACH, at, places.place_of(label.as_slice()))?;
            Ok(Code::One(jump(*rd, off)))
        }
        Item::BranchTo {
            op,
            rs1,
            rs2,
            label,
        } => {
            let off = distance_to(BRANCH_REACH, at, places.place_of(label.as_slice()))?;
            Ok(Code::One(branch(*op, *rs1, *rs2, off)))
        }
    }
}

/// The words of a line.
fn words_of_line(line: &Placed, places: &Places) -> Result<Code, AsmKind>
    ensures value { words_of_result result ≡ words_of_line (place_in places.now) line.now }
{
    match &line.line.item {
        Ok(item) => words_of_item(item, line.place, places),
        Err(kind) => Err(*kind),
    }
}

/// The words of lines, or the first line that is refused.
pub(crate) fn linked(
    alloc: Global,
    lines: &[Placed],
    places: &Places,
) -> Result<NumberedWords, AsmFault>
    ensures words { IfOk result (λ words. linked (place_in places.now) lines.now ≡ Ok words) }
    ensures refused { IfErr result (λ fault. (fault ≡ memory_fault) ⊎ (linked (place_in places.now) lines.now ≡ Err fault)) }
{
    let mut words = NumberedWords::new(alloc);
    for line in lines {
        match words_of_line(line, places) {
            Ok(code) => words.push_line(code, line.number)?,
            Err(kind) => {
                return Err(AsmFault {
                    line: line.number,
                    kind,
                });
            }
        }
    }
    Ok(words)
}
