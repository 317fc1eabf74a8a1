//! A task with how far it has come, and a context, which is such a task in a slot: it stands for its task at its count. Only what
//! makes a body and the words of a slot take memory.
#![tactic(auto)]

mod body;
mod context;
mod done;
mod index;
pub mod laws;
mod output;
mod words;

pub use body::Body;
pub use context::Context;
pub use done::Done;
pub use hart_model::{Cell, Tag};
pub use isa_model::{End, Task, Words};
pub use words::{SlotWords, slot_words};
