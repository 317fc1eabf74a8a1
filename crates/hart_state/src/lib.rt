//! An emulated hart: one step of it is that of the machine, and each write of a latch makes its entry in the log. None of it takes
//! memory.
#![tactic(auto)]

mod answering;
mod cells;
mod hart;
mod machine;
mod ports;
mod reach;
mod registers;
mod resting;
mod stepping;
mod user;
mod user_operands;
mod write_list;
mod writer;
mod writing;

pub use context_slot::Context;
pub use hart::Hart;
pub use hart_model::{Cell, Did, Mode, QueueCall, Tag};
pub use isa_model::Latch;
pub use probe_log::Keeper;
pub use resting_hart::Rest;
