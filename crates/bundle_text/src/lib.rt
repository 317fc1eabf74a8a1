//! Bundles as text: what the core is to run. `specs/Grammar.antt` has the sections of a text and `specs/Form.antt` its lines, tokens and
//! numbers, both by productions; `specs/Lines.antt` says line by line what a text says and where it first breaks the form.
#![tactic(auto)]

pub mod bundle;
mod draft;
pub mod laws;
mod numbers;
mod operands;
mod pieces;
mod places;
mod reading;
mod text_block;
mod writing;

pub use bundle::{Bundle, BundleFault, BundleKind, Code, Line, PlanText, TaskText, World};
pub use core_model::Items;
pub use reading::read_bundle;
pub use text_block::text_lines;
pub use writing::write_bundle;
