//! What an entry of the log says of a task: the values of the task's undisturbed run that its why names. And the verdict on a task in the
//! worlds of its secret: whether its undisturbed runs tell anything of it.
#![tactic(auto)]

pub mod certifying;
mod columns;
pub mod course;
mod effects;
pub mod groups;
mod latch_list;
pub mod rows;
pub mod shown;
mod table;
pub mod trails;
pub mod walk;

pub use certifying::{Survey, certify, survey_of, verdict_of};
pub use core_model::World;
pub use course::{Course, Passed};
pub use groups::Group;
pub use hart_model::{Probe, Side, Why};
pub use isa_model::{Latch, Task, Words};
pub use probing_laws::{CertFault, Verdict};
pub use rows::Row;
pub use shown::{Shown, explain};
pub use trails::{Trail, explain_by};
pub use walk::Walk;
