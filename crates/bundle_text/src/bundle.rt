//! What a bundle says, and why a text is refused.

ghost use Rattle.std.specs.Prelude.{◌≡◌};

pub use core_model::World;
use core_model::{EventRun, Items, OrderRun, Plan};
use isa_model::Words;
use std::alloc::{AllocError, AllocFailed};
use std::convert::From;

/// A line of text, without the bytes that end it.
pub type Line = Items<u8>;

/// The code of a task.
#[derive(Debug, Drop)]
pub enum Code {
    /// Words of instructions, in the order of their addresses.
    Words(Words),
    /// Lines of assembler text, in their order.
    Text {
        /// The number of the first of them in the bundle's text, where lines are numbered from 1.
        first_line: u32,
        /// The lines.
        lines: Items<Line>,
    },
}

/// A task as a bundle states it.
#[derive(Debug, Drop)]
pub struct TaskText {
    /// How many instructions it executes at most, 1 to 100,000.
    pub fuel: u32,
    /// How many words its output has at most, 0 to 4,096.
    pub out_max: u32,
    /// How many data words it has, 0 to 1,024.
    pub data_len: u32,
    /// Its band, 0 or 1. Tasks of band 0 go first.
    pub band: u32,
    /// The words that it may take as its input.
    pub tape: Words,
    /// Its code.
    pub code: Code,
}

/// When the timer of a hart rings.
#[derive(Debug, Drop)]
pub struct PlanText {
    /// The hart's number, 0 to 7.
    pub hart: u32,
    /// Its quanta, each 0 to 4,096, and its tail, 1 to 4,096.
    pub plan: Plan,
}

/// What the core runs.
#[derive(Debug, Drop)]
pub struct Bundle {
    /// How many slots the core has for contexts, 1 to 8.
    pub slots: u32,
    /// The plans, of which a hart has at most one.
    pub plans: Items<PlanText>,
    /// The tasks.
    pub tasks: Items<TaskText>,
    /// The worlds, all with as many words.
    pub worlds: Items<World>,
    /// The events of the core, in runs.
    pub events: Items<EventRun>,
    /// The order of the harts' queue actions, in runs.
    pub order: Items<OrderRun>,
}

/// Why a line of a bundle is refused, in the order in which the reasons are tried.
#[derive(Clone, Copy, Debug, PartialEq, Eq)]
pub enum BundleKind {
    /// A byte that isn't of text: neither printable ASCII nor a tab nor a CR.
    NotText,
    /// The first token is no word that begins a line.
    UnknownWord,
    /// Its word can't stand here.
    Misplaced,
    /// The number of tokens is wrong, or a fixed word is missing, or a world has another length than the first.
    Operands,
    /// A token isn't of its form.
    BadNumber,
    /// A number of its form is outside its range.
    OutOfRange,
    /// A second plan for a hart.
    Repeated,
    /// The text ends before its slots or inside a task.
    Missing,
    /// Memory ran out.
    Memory,
}

impl From<AllocError> for BundleKind {
    ghost use Rattle.bundle_text.specs.declared.bundle.BundleKind.TheVariants.{Memory};

    ghost from_gives = { λ _ kind. kind ≡ Memory };

    fn from(_: AllocError) -> BundleKind {
        BundleKind::Memory
    }
}

impl<T: Drop> From<AllocFailed<T>> for BundleKind {
    ghost use Rattle.bundle_text.specs.declared.bundle.BundleKind.TheVariants.{Memory};

    ghost from_gives = { λ _ kind. kind ≡ Memory };

    fn from(_: AllocFailed<T>) -> BundleKind {
        BundleKind::Memory
    }
}

/// The refusal of a text.
#[derive(Clone, Copy, Debug, PartialEq, Eq)]
pub struct BundleFault {
    /// The line that is refused, from 1; where lines are missing the number of lines plus 1, and where memory ran out 0.
    pub line: u32,
    /// Why it is refused.
    pub kind: BundleKind,
}
