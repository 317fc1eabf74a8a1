//! Bundles of masked tasks from a number (this project's own), as inputs of any size that need no file. A task takes the shares of two
//! words from its tape, and goes through a chain of gates on shares: the first word goes through the chain, and each gate takes the second
//! one. Each And takes a mask from the tape. At the end both shares of the result are put out. `specs/Generator.antt` says what is drawn,
//! in which order, and `specs/Code.antt` which code the gates have. `chain_laws` proves that each task puts out shares of what its gates
//! compute, which is `specs/Chain.antt`. That a task may be probed safely is not claimed.
#![tactic(auto)]

mod code;
mod draws;
mod gate;
mod generator;

pub use gate::Gate;
pub use generator::generate;
