//! The checker of routines of one's own: whether words may stand in place of the kernel's save part and restore part, and if not,
//! the first rule that they break and where.
#![tactic(auto)]

mod check;
mod checked;
mod division;
mod ends;
mod forms;
mod laws;
mod registers;
mod rule;
mod storage;
mod words;
mod write_list;

pub use check::check_routine;
pub use checked::Checked;
pub use laws::{answers_are_exact, parts_make_routines};
pub use rule::{Rule, RuleFault};
