//! The check by which what is seen of a tape is shown to tell nothing of its secrets.
#![tactic(auto)]

pub mod check;
#[cfg(test)]
mod chi_tests;
pub mod form;
pub mod forms;
pub mod laws;
pub mod roles;
pub mod search;
#[cfg(test)]
mod tests;

pub use check::is_shown;
pub use form::Form;
pub use forms::Forms;
pub use roles::count_secrets;
