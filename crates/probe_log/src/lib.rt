//! Where the entries of a log go: keepers, which stand for a list of entries. A tally keeps counts alone; a packed log keeps the entries
//! as words, and a full log keeps them as they are. Only making a log takes memory.
#![tactic(auto)]

mod full;
mod header;
mod keeper;
pub mod laws;
mod packed;
mod packing;
mod reader;
mod tally;
mod unpacking;

pub use full::Full;
pub use hart_model::{Probe, Why};
pub use isa_model::Latch;
pub use keeper::Keeper;
pub use packed::Packed;
pub use reader::Reader;
pub use tally::Tally;
