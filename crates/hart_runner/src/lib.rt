//! The harts of a bundle on threads: a worker for each hart, which steps it by itself and takes turns at the board for its queue actions. What
//! all of them do together is the coarse run of one legal order, the order of their turns.
#![tactic(auto)]

mod board;
mod closing;
mod finished;
mod opening;
mod own_hart;
mod place;
mod receipt;
mod remains;
mod threads;
mod turning;
mod unfinished;
mod work;

pub use board::CoreBoard;
pub use finished::Finished;
pub use receipt::{Cause, Receipt};
pub use threads::run_threads;
pub use unfinished::Unfinished;
pub use work::worker;
