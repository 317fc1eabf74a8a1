//! The control and status registers of a hart, its traps, their return and its interrupts (privileged manual, "Machine-Level
//! CSRs"). None of it takes memory.
#![tactic(auto)]

mod csrs;
mod fields;

pub use csrs::Csrs;
pub use hart_model::{Cell, Tag};
pub use mem_protect::{Mode, Pmp};
