//! One line of an assembler text: its labels, and the instruction that stands on it. The words and their operands are those of
//! the manual's assembly syntax (unprivileged manual, "RV32/64G Instruction Set Listings" and "RISC-V Assembly Programmer's
//! Handbook"), and `specs/Table.antt` lists them. Which of the manual's pseudo-instructions there are is this project's own.
#![tactic(auto)]

mod fields;
mod items;
pub mod laws;
pub mod line;
mod mnemonic;
mod names;
mod numbers;
mod pieces;
mod reading;

pub use line::{AsmKind, Item, Label, Labels, Line};
pub use reading::read_line;
