//! The kernel's code as words (this project's own): its text by mnemonics, and the words computed from it. Each call but the laws
//! takes memory.
#![tactic(auto)]

mod code;
mod kernel_text;
mod label;
pub mod laws;
mod line;
mod mnemonics;
mod naive_text;
mod text;

pub use code::{KernelCode, PART_MAX, kernel_code, link, naive_code};
pub use isa_model::Words;
