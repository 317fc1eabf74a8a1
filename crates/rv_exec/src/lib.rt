//! The arithmetic of the instructions: the unit's operations, the comparisons of branches, and the part of a memory word that a
//! load takes or a store replaces. None of it takes memory.
#![tactic(auto)]

mod compare;
mod memory;
mod multiply;
mod operate;

pub use compare::taken;
pub use isa_model::{Alu, Cmp, LoadKind, StoreKind};
pub use memory::{extract, load_aligned, merge, store_aligned};
pub use multiply::is_of_multiplier;
pub use operate::alu;
