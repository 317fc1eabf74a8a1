//! The assembler over whole listings, and the disassembler. A listing is a list of lines, each with any number of labels and at
//! most one instruction; `asm_line` reads one of them. A label stands for the place of the next word, and may be named before
//! it stands. The limits of a listing, and the kinds of its faults with their order, are this project's own.
#![tactic(auto)]

mod assembling;
mod disassembling;
mod fault;
mod linking;
mod listing;
mod places;

pub use asm_line::AsmKind;
pub use assembling::{Assembled, assemble};
pub use disassembling::{disassemble, word_line};
pub use fault::AsmFault;
