//! The queue of tasks under a lock's one value: a board with its actions, each exactly its definition on the board's lists. Only boot,
//! [`Board::again`] and the calls that reserve take memory.
#![tactic(auto)]

mod board;
mod entry;
mod kind;
pub mod laws;
mod moves;
mod ready;

pub use board::Board;
pub use context_slot::{Body, Context, Done};
pub use core_model::Home;
pub use kind::Kind;
