//! A machine whose values are terms.

use crate::latches::Latches;
use isa_model::EndKind;

/// The latches, the pc, the length of the output, the number of tape words that were taken, and the kind of the end.
#[derive(Drop)]
pub struct Machine {
    pub latches: Latches,
    pub pc: u32,
    pub output: usize,
    pub tape_at: usize,
    pub end: Option<EndKind>,
}
