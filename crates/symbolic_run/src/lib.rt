//! What a checker of kernel code computes: a run over cells of which only the kind is known, through straight code and along paths with
//! branches, jumps, CSRs and device ports. The definitions are in `specs/`, and the laws say that a hart does what such a run says.
#![tactic(auto)]

pub mod laws;

pub use laws::{paths_lead, runs_are_paths, steps_are_taken};
