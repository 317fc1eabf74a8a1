// A ticket lock, generic in what it holds, whose order of turns a proof can name.
//
// The seats of the lock take turns in the order of their tickets. A turn ends with an entry in one
// order of seat numbers, or without. The order exists in the proofs alone: the value that the lock
// holds stands for it, by a relation that the value's type chooses, and each seat's pass knows how
// much of it the seat has seen.
#![tactic(auto)]

mod lifetime;
mod passes;
mod plays;
mod rule;
mod seat_view;
mod turn_taking;
mod turned;
mod turns;

pub use passes::{Held, Pass};
pub use turned::Turned;
pub use turns::Turns;
