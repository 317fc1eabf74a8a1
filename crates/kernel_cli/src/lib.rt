//! The top call: the words of the command line, a source and a sink in; bytes and a status out.
//!
//! The words spell a command (`specs/Commands.antt`), and the command is a work (`specs/Works.antt`), by what it takes: a bundle, lines of code,
//! the bundle of a number, or a bundle on threads. All below goes by the work. `specs/AnswerOf.antt` says which answer each work has over which
//! bytes, and over what it finds beside them; `specs/TopCall.antt` what the top call promises for each status. Each kind of work has its answers
//! in one file of code and one of definitions:
//!
//! - `bundles` (`specs/Bundles.antt`): tasks alone (`tasks`), listings, the core by the bundle's list of events (`scripts`) and by its order
//!   (`replays`), and the verdict on a task (`verdicts`). `script` and `replay H` count the entries of the log, and `script probes`,
//!   `replay H probes` and `explain` keep them, as long as there is room for those of the next event.
//! - `lints` (`specs/Lints.antt`): a routine of one's own, and the bundle of a number with it.
//! - `generated` (`specs/Generated.antt`): the bundle of a number, and its run on one hart (`drills`).
//! - `runs` (`specs/Runs.antt`): the order that harts make on threads.
//!
//! What holds of a core that is run is in `specs/Soundness.antt`, and what it means that a task is certified in `specs/Security.antt`.
#![tactic(auto)]

mod answer;
mod bundles;
pub mod command;
mod drills;
mod generated;
pub mod laws;
mod lints;
mod refusals;
mod replays;
mod runs;
mod scripts;
pub mod status;
mod tasks;
mod top;
mod verdicts;
pub mod work;

pub use command::{Command, read_words};
pub use status::{Status, status_number};
pub use top::{msktask, one_thread, run_harts};
