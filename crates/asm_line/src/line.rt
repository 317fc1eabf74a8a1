//! What a line says, and why one is refused.

ghost use Rattle.std.specs.Prelude.{◌≡◌, ◌++◌, ◌∷◌, [], length, IfOk, OnOk, OnErr};

use isa_model::RegNo;
use rv_decode::Cmp;
use std::alloc::{AllocError, Global};
use std::marker::Model;

/// Why a line is refused. A reader of one line finds those from `UnknownWord` to `OutOfRange`; the others hang on the whole text.
#[derive(Clone, Copy, Debug, PartialEq, Eq)]
pub enum AsmKind {
    /// A label stands a second time.
    DuplicateLabel,
    /// The first word is none of the assembler's.
    UnknownWord,
    /// There are too many or too few operands, or one that has to be `offset(rs1)` isn't of this shape.
    Operands,
    /// An operand that has to be a register names none.
    BadRegister,
    /// An operand that has to be a number, a CSR or a target is none.
    BadNumber,
    /// A number is outside of its range.
    OutOfRange,
    /// The text has more words than a task may have.
    TooManyWords,
    /// A label stands nowhere in the text.
    UnknownLabel,
    /// Memory ran out.
    Memory,
}

/// The name of a label, which contracts see as its bytes.
#[derive(Debug, Drop)]
pub struct Label {
    inner: Vec<u8>,
}

impl Model for Label {
    ghost use Rattle.std.specs.Prelude.{ℕ, List};

    ghost Value = { List ℕ };

    ghost view = { λ l. l.inner.items };
}

impl Label {
    /// The label of this name.
    pub fn new(alloc: Global, name: &[u8]) -> Result<Label, AllocError>
        ensures name { IfOk result (λ label. label ≡ name.now) }
    {
        Ok(Label {
            inner: Vec::from_slice(alloc, name)?,
        })
    }

    /// Its name.
    pub fn as_slice(&self) -> &[u8]
        ensures name { result.now ≡ self.now }
    {
        self.inner.as_slice()
    }
}

/// Labels in their order, which contracts see as a list of their names.
#[derive(Debug, Drop)]
pub struct Labels {
    inner: Vec<Label>,
}

impl Model for Labels {
    ghost use Rattle.std.specs.Prelude.{ℕ, List};

    ghost Value = { List (List ℕ) };

    ghost view = { λ l. l.inner.items };
}

impl Labels {
    /// No labels.
    pub fn new(alloc: Global) -> Labels
        ensures empty { result ≡ [] }
    {
        Labels {
            inner: Vec::new(alloc),
        }
    }

    /// Puts a label after the others. After want of memory the labels are as before.
    pub fn push(&mut self, label: Label) -> Result<(), AllocError>
        ensures ok { OnOk result (self.new ≡ self.old ++ label ∷ []) }
        ensures err { OnErr result (self.new ≡ self.old) }
    {
        self.inner.push(label)?;
        Ok(())
    }

    /// The labels as a slice.
    pub fn as_slice(&self) -> &[Label]
        ensures labels { result.now ≡ self.now }
    {
        self.inner.as_slice()
    }
}

/// What stands on a line beside its labels.
#[derive(Debug, Drop)]
pub enum Item {
    /// Nothing.
    Empty,
    /// One word.
    One(u32),
    /// Two words, in the order of their addresses.
    Two(u32, u32),
    /// A jump to a label, whose word hangs on the places of the two.
    JumpTo {
        rd: RegNo,
        label: Label,
    },
    /// A branch to a label, whose word hangs on the places of the two.
    BranchTo {
        op: Cmp,
        rs1: RegNo,
        rs2: RegNo,
        label: Label,
    },
}

/// A line that was read.
#[derive(Debug, Drop)]
pub struct Line {
    /// Its labels, in their order. They stand also where the item is refused.
    pub labels: Labels,
    /// What else stands on it, or the first fault.
    pub item: Result<Item, AsmKind>,
}
