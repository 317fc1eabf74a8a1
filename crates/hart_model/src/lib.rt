//! One hart: the values that its definitions speak of. `specs/` has its storage, how tags follow a write, why a write is
//! explained, physical memory protection, control and status registers, traps, contexts, device ports, and its step in both modes.
#![tactic(auto)]

pub mod access;
pub mod calls;
pub mod laws;
pub mod place;
pub mod place_laws;
pub mod port;
pub mod probe;
pub mod region;
pub mod tag;
pub mod user_laws;
pub mod wedge_laws;
pub mod why_laws;

pub use access::Access;
pub use calls::{Did, QueueCall};
pub use place::Place;
pub use port::Port;
pub use probe::{Probe, Side, Why};
pub use region::{AddressMatching, Region};
pub use tag::{Cell, Mode, Tag};
