//! A task on a hart of its own, an instruction at a time and to its end: the run to which every other run of the task is
//! compared.
#![tactic(auto)]

mod data;
mod executing;
mod latches;
mod machine;
pub mod marks;
mod operands;
mod output;
pub mod running;
mod services;

pub use isa_model::{Control, Deed, End, EndKind, Latch, Task, Words};
pub use marks::Mark;
pub use running::{Alone, Ended, run_alone};
