//! Routines of one's own: which words save a task and which restore one, by rules on what is known of the words that they move. The
//! definitions are in `specs/`, and the laws say that words which break no rule save and restore, and that the kernel's own do so.
#![tactic(auto)]

pub mod content;
pub mod laws;

pub use content::Content;
pub use laws::{accepted_routines_do, own_parts_are_accepted};
