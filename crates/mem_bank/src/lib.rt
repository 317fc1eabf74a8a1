//! A bank of memory: words in a row, each a cell.
#![tactic(auto)]

mod bank;

pub use bank::Bank;
pub use hart_model::{Cell, Tag};
