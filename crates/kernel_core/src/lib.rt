//! Many harts over one queue, and what holds of them after every list of events.
#![tactic(auto)]

mod board_step;
mod boot;
mod counted;
mod kernel;
pub mod laws;
mod over;
pub mod parts;
pub mod queue_action;
mod reporting;
mod run;
mod seat;
pub mod snapshot;
mod whole_core;

pub use boot::board_at_boot;
pub use kernel::Kernel;
pub use parts::{Paces, Parts};
pub use reporting::snapshot_of_parts;
pub use snapshot::{Snapshot, TaskState};
pub use whole_core::Core;
