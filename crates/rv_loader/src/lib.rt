//! From a bundle to what a core is made of: the code of each task becomes words, the tasks get their places and the harts their
//! plans, and all is judged by the limits. `specs/Loading.antt` says what a bundle loads as, and `specs/Refusals.antt` why one is
//! refused, and in which order the reasons are tried. All of it is this project's own.
#![tactic(auto)]

mod coding;
mod fault;
mod laws;
mod limits;
mod loading;
mod placing;

pub use coding::code_words;
pub use core_model::Loaded;
pub use fault::{LoadFault, What};
pub use laws::{loading_is_sound, loads_exactly_valid, plans_are_of_lines, refusals_are_so};
pub use loading::load;
