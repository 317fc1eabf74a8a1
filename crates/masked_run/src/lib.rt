//! The run of a task on all its tapes at once: values are terms over the words of the tape, control is numbers.
#![tactic(auto)]

mod branches;
mod executing;
mod folding;
mod forms;
mod jumps;
pub mod latches;
pub mod machine;
pub mod running;
mod services;

pub use latches::Latches;
pub use machine::Machine;
