//! The edge between the program and the outside: bytes come from a [`Source`] and go to a [`Sink`],
//! and a [`Gate`] is called before each queue action of a hart. Sources and sinks count their
//! faults, so that a caller can show that a fault was theirs. Contracts also see what a source has given
//! and a sink has taken so far, which every one of them tells, that over standard input or output too.
#![tactic(auto)]

pub mod memory;
mod past;
pub mod std_edge;
pub mod traits;
pub mod whole;

pub use memory::{MemSink, MemSource};
pub use std_edge::{StdSink, StdSource};
pub use traits::{Failed, FreeGate, Gate, Sink, Source};
pub use whole::{ReadEnd, WriteEnd, read_all, write_all};
