//! A text: lines in a row, and their words.

ghost use Rattle.std.specs.Prelude.{◌≡◌, ◌<◌, ◌≤◌, [], ◌∷◌, ◌++◌, map, length, option_to_list, IfOk, OnOk};
ghost use Rattle.isa_model.specs.Bits.{IsInBits};
ghost use Rattle.isa_model.specs.Encoding.{IsEven};
ghost use Rattle.core_model.specs.KernelText.{Word};
ghost use Rattle.core_model.specs.KernelWords.{words_before, distance, words_from, words_of};
ghost use Rattle.switch_emit.specs.Lines.{label_of};

use crate::label::Label;
use crate::line::{Item, Line};
use isa_model::{Instr, Words};
use rv_decode::encode;
use std::alloc::{AllocError, Global};
use std::marker::Model;

/// Lines in a row, which contracts see as a list.
#[derive(Debug, Drop)]
pub struct Text {
    lines: Vec<Line>,
}

impl Model for Text {
    ghost use Rattle.std.specs.Prelude.{List};
    ghost use Rattle.core_model.specs.KernelText.{Line as KernelLine};

    ghost Value = { List KernelLine };

    ghost view = { λ t. t.lines.items };
}

impl Text {
    /// A text without lines.
    pub fn new(alloc: Global) -> Text
        ensures lines { result ≡ [] }
    {
        Text {
            lines: Vec::new(alloc),
        }
    }

    /// Appends lines.
    pub fn append<const N: usize>(&mut self, lines: [Line; N]) -> Result<(), AllocError>
        ensures lines { OnOk result (self.new ≡ self.old ++ lines.entry) }
    {
        let alloc = *self.lines.allocator();
        let mut lines = Vec::from_array(alloc, lines)?;
        self.lines.append(&mut lines)
    }

    /// Appends words that are given, a line for each.
    pub fn append_words(&mut self, words: &[u32]) -> Result<(), AllocError>
        ensures lines { OnOk result (self.new ≡ self.old ++ map Word words.now) }
    {
        for word in words {
            self.lines.push(Line::word(*word))?;
        }
        Ok(())
    }

    /// How many words stand before a label; all, where the text doesn't have it.
    pub fn words_before(&self, label: Label) -> usize
        ensures count { result ≡ words_before (label_of label) self.now }
        ensures bound { result ≤ length self.now }
    {
        let mut count = 0;
        for line in &self.lines {
            match line.label() {
                Some(other) if other == label => return count,
                Some(_) => {}
                None => count += 1,
            }
        }
        count
    }

    /// The distance in bytes to a label from a word before which `at` words stand.
    fn distance(&self, at: usize, to: Label) -> i32
        requires short { length self.now < 1024 }
        requires near { at < 1024 }
        ensures distance { result ≡ distance self.now at (label_of to) }
        ensures range { IsInBits 12 result }
        ensures even { IsEven result }
    {
        (4 * self.words_before(to)) as i32 - (4 * at) as i32
    }

    /// The word of a line before which `at` words stand; None for a label.
    fn encoded(&self, line: &Line, at: usize) -> Option<u32>
        requires short { length self.now < 1024 }
        requires near { at < 1024 }
        ensures word { option_to_list result ≡ words_from self.now at (line.now ∷ []) }
    {
        match line.item {
            Item::At(_) => None,
            Item::Does(instr) => Some(encode(instr)),
            Item::Branches { op, rs1, rs2, to } => {
                let off = self.distance(at, to);
                Some(encode(Instr::Branch { op, rs1, rs2, off }))
            }
            Item::Jumps { rd, to } => {
                let off = self.distance(at, to);
                Some(encode(Instr::Jal { rd, off }))
            }
            Item::Word(word) => Some(word),
        }
    }

    /// The words of the text. In fewer than 1,024 lines a branch reaches every label.
    pub fn words(&self) -> Result<Words, AllocError>
        requires short { length self.now < 1024 }
        ensures words { IfOk result (λ w. w ≡ words_of self.now) }
    {
        let alloc = *self.lines.allocator();
        let mut words = Vec::new(alloc);
        for line in &self.lines {
            if let Some(word) = self.encoded(line, words.len()) {
                words.push(word)?;
            }
        }
        Ok(Words::new(words))
    }
}
