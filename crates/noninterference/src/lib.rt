//! What two cores of alike bundles have in common: all that is public. The proofs in `proofs/`: steps in machine mode (`Machine..`) and in
//! user mode (`User..`, `Control..`) of harts that are alike, ways of two harts through the kernel's code (`Both..`), and what every event
//! keeps of two cores (`AlikeBoards`, `AlikeCores`).
#![tactic(auto)]

pub mod laws;

pub use laws::{alike_logs_agree, emitted_is_alike, own_parts_do};
