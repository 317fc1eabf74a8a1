//! The steps of one hart by itself, with the ticks of its plan, up to its next queue action. No call takes memory.
#![tactic(auto)]

mod advancing;
pub mod laws;
mod stepping;

pub use advancing::advance;
pub use stepping::step_paced;
