//! Expressions over the words of a tape, as terms in a list in which each stands after its operands; and which words of the tape a
//! term hangs on.
#![tactic(auto)]

pub mod column;
pub mod identities;
pub mod laws;
pub mod pool;
pub mod term;
pub mod terms;

pub use column::{Column, columns};
pub use isa_model::Alu;
pub use laws::{terms_unfold, unread_is_apart, values_are_words};
pub use pool::Pool;
pub use term::Term;
pub use terms::Terms;
