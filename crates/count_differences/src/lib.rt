//! Lists in order, and the least item that stands in two of them in different numbers.
#![tactic(auto)]

pub mod differences;

pub use differences::{least_difference, least_of};
