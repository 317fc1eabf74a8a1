//! Rows of what no contract says and no command shows: the results of arithmetic as the manual has them, rules of protection and
//! control registers, calls that have memory, and the words of a log. Everything here is a test.
#![tactic(auto)]

#[cfg(test)]
mod arithmetic;
#[cfg(test)]
mod control;
#[cfg(test)]
mod packed;
#[cfg(test)]
mod runs;
#[cfg(test)]
mod seats;
#[cfg(test)]
mod several;
