//! A line of the kernel's text.

ghost use Rattle.std.specs.Prelude.{◌≡◌, ◌<◌, IfSome, IfNone};
ghost use Rattle.isa_model.specs.Encoding.{IsInstr};
ghost use Rattle.core_model.specs.KernelText.{At, Does, Branches, Jumps, Word};
ghost use Rattle.switch_emit.specs.Lines.{label_of, HasWord};

use crate::label::Label;
use isa_model::{Cmp, Instr, RegNo};
use std::marker::Model;

/// What a line has: a label, which stands before the next word; an instruction; a branch or a jump to a label; or a word that is
/// given.
#[derive(Debug, Drop)]
pub enum Item {
    At(Label),
    Does(Instr),
    Branches {
        op: Cmp,
        rs1: RegNo,
        rs2: RegNo,
        to: Label,
    },
    Jumps {
        rd: RegNo,
        to: Label,
    },
    Word(u32),
}

/// A line of the kernel's text. Its instruction is one of the instruction set: each number is in the range of its field.
#[derive(Debug, Drop)]
pub struct Line {
    pub item: Item,
}

impl Model for Line {
    ghost use Rattle.core_model.specs.KernelText.{Line as KernelLine};

    ghost Value = { KernelLine };

    ghost use Rattle.switch_emit.specs.Lines.{line_of, IsEncodable};

    ghost view = { λ l. line_of l.item };

    ghost invariant = { λ l. IsEncodable l.item };
}

impl Line {
    /// A label, which stands before the next word.
    pub fn at(label: Label) -> Line
        ensures line { result ≡ At (label_of label) }
    {
        Line {
            item: Item::At(label),
        }
    }

    /// An instruction.
    pub fn does(instr: Instr) -> Line
        requires instruction { IsInstr instr }
        ensures line { result ≡ Does instr }
    {
        Line {
            item: Item::Does(instr),
        }
    }

    /// A branch to a label.
    pub fn branches(op: Cmp, rs1: RegNo, rs2: RegNo, to: Label) -> Line
        requires rs1 { rs1 < 32 }
        requires rs2 { rs2 < 32 }
        ensures line { result ≡ Branches op rs1 rs2 (label_of to) }
    {
        Line {
            item: Item::Branches { op, rs1, rs2, to },
        }
    }

    /// A jump to a label.
    pub fn jumps(rd: RegNo, to: Label) -> Line
        requires rd { rd < 32 }
        ensures line { result ≡ Jumps rd (label_of to) }
    {
        Line {
            item: Item::Jumps { rd, to },
        }
    }

    /// A word that is given.
    pub fn word(word: u32) -> Line
        ensures line { result ≡ Word word }
    {
        Line {
            item: Item::Word(word),
        }
    }

    /// The label, where the line is one; else it has a word.
    pub fn label(&self) -> Option<Label>
        ensures label { IfSome result (λ label. self.now ≡ At (label_of label)) }
        ensures word { IfNone result (HasWord self.now) }
    {
        match self.item {
            Item::At(label) => Some(label),
            Item::Does(_) => None,
            Item::Branches { .. } => None,
            Item::Jumps { .. } => None,
            Item::Word(_) => None,
        }
    }
}
