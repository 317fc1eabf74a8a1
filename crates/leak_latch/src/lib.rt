//! What a write of a latch shows: the entry that it makes in the log, with what explains its two values. And latches: their order,
//! their kinds, and their names in texts. Only [`latch_text`] takes memory.
#![tactic(auto)]

mod entry;
mod order;
mod text;

pub use entry::probe_of;
pub use hart_model::{Cell, Mode, Probe, Side, Tag, Why};
pub use isa_model::Latch;
pub use order::{latch_before, latch_kind};
pub use text::latch_text;
