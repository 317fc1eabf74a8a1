//! Whose writes they are, and their tags.

ghost use Rattle.std.specs.Prelude.{◌≡◌, [], ◌∷◌, option_map};
ghost use Rattle.hart_model.specs.Taint.{mixture_of, machine_tag};
ghost use Rattle.hart_model.specs.MachineStep.{tag_of_word, operand_tag, operand_values};
ghost use Rattle.rv_effect.specs.View.{operand_of, flow_of, operands_of};
ghost use Rattle.hart_state.specs.WriteView.{write_of};
ghost use Rattle.hart_state.specs.WriterView.{operand_cells_of, tag_by, reaches_data};

use crate::write_list::Write;
use hart_model::{Cell, Tag};
use rv_effect::{Flow, Operand, Operands};

/// The cells of the operands of an instruction.
#[derive(Clone, Copy)]
pub struct OperandCells {
    pub rs1: Cell,
    pub rs2: Cell,
    pub word: Option<Cell>,
    pub old_csr: Cell,
}

/// Who writes: the instruction of a task that is in user mode, as its step of this number, counted from 1; or one in machine mode,
/// with these operands.
#[derive(Clone, Copy)]
pub enum Writer {
    User { task: u32, step: u32 },
    Machine(OperandCells),
}

/// The tag of a mixture of two.
fn mixture(first: &Tag, second: &Tag) -> Tag
    ensures tag { result ≡ mixture_of (first.now ∷ second.now ∷ []) }
{
    match (first, second) {
        (Tag::Public, Tag::Public) => Tag::Public,
        _ => Tag::Many,
    }
}

/// The tag of a value that is computed from one of this tag.
fn computed(tag: &Tag) -> Tag
    ensures tag { result ≡ mixture_of (tag.now ∷ []) }
{
    match tag {
        Tag::Public => Tag::Public,
        _ => Tag::Many,
    }
}

/// The tag of a memory word; public where there is none.
fn word_tag(word: &Option<Cell>) -> Tag
    ensures tag { result ≡ tag_of_word word.now }
{
    match word {
        Some(cell) => cell.tag,
        None => Tag::Public,
    }
}

/// The value of a memory word.
fn word_value(word: &Option<Cell>) -> Option<u32>
    ensures value { result ≡ option_map (λ cell. cell.value) word.now }
{
    match word {
        Some(cell) => Some(cell.value),
        None => None,
    }
}

impl OperandCells {
    /// The values.
    pub(crate) fn values(&self) -> Operands
        ensures values { operands_of result ≡ operand_values (operand_cells_of self.now) }
    {
        Operands {
            rs1: self.rs1.value,
            rs2: self.rs2.value,
            word: word_value(&self.word),
            old_csr: self.old_csr.value,
        }
    }

    /// The tag of an operand.
    fn source_tag(&self, source: Operand) -> Tag
        ensures tag { result ≡ operand_tag (operand_cells_of self.now) (operand_of source) }
    {
        match source {
            Operand::Rs1 => self.rs1.tag,
            Operand::Rs2 => self.rs2.tag,
            Operand::Word => word_tag(&self.word),
            Operand::OldCsr => self.old_csr.tag,
        }
    }

    /// The tag of a value by what flows into it: a move carries the tag, and what is computed is public where all operands are, else
    /// of many.
    pub(crate) fn flow_tag(&self, flow: Flow) -> Tag
        ensures tag { result ≡ machine_tag (operand_tag (operand_cells_of self.now)) (flow_of flow) }
    {
        match flow {
            Flow::Constant => Tag::Public,
            Flow::Moved(source) => self.source_tag(source),
            Flow::Computed(source) => computed(&self.source_tag(source)),
            Flow::Combined(first, second) => {
                mixture(&self.source_tag(first), &self.source_tag(second))
            }
        }
    }
}

impl Writer {
    /// Whether its writes reach the data of what is held, and not its slot alone.
    pub(crate) fn reaches_data(&self) -> bool
        ensures test { result ≡ reaches_data self.now }
    {
        matches!(self, Writer::User { .. })
    }

    /// The tag of a write.
    pub(crate) fn tag(&self, write: &Write) -> Tag
        ensures tag { result ≡ tag_by self.now (write_of write.now) }
    {
        match self {
            Writer::User { task, step } => Tag::Of {
                task: *task,
                step: *step,
                latch: write.to,
            },
            Writer::Machine(cells) => cells.flow_tag(write.flow),
        }
    }
}
