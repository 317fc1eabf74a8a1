//! Instructions and their words: from a word to its instruction and back (unprivileged manual, "RV32I Base Integer
//! Instruction Set", "M" and "Zicsr"; privileged manual, "Trap-Return Instructions"). The instructions themselves, and the table
//! of bit patterns that the contracts speak of, are those of `isa_model`.
#![tactic(auto)]

mod decoding;
mod encoding;
mod fields;
mod formats;
pub mod names;
mod text;

pub use decoding::decode;
pub use encoding::encode;
pub use isa_model::{Alu, Cmp, CsrOp, Instr, LoadKind, RegNo, StoreKind};
pub use text::{instr_text, word_text};
