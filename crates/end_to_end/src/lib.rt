//! Worked examples of the commands that run no core, over the top call: tasks alone, listings, verdicts, bundles from a number, routines of
//! one's own, what is refused, and bundles that are broken at each byte; and edges that fail, under each command that needs no threads. Everything here is a
//! test.
#![tactic(auto)]

#[cfg(test)]
mod alone;
#[cfg(test)]
mod broken;
#[cfg(test)]
mod edges;
#[cfg(test)]
mod generated;
#[cfg(test)]
mod harness;
#[cfg(test)]
mod limits;
#[cfg(test)]
mod lints;
#[cfg(test)]
mod listings;
#[cfg(test)]
mod refusals;
#[cfg(test)]
mod verdicts;
