//! Physical memory protection with four entries (privileged manual, "Physical Memory Protection"): which accesses user mode may
//! do. None of it takes memory.
#![tactic(auto)]

mod config;
mod pmp;
mod region;

pub use hart_model::{Access, Mode};
pub use pmp::Pmp;
