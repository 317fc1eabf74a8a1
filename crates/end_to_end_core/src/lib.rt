//! Worked examples of cores: scripts, orders, harts on threads, bands, tasks that do what none may, edges that fail under `run`, and what
//! logs show. Everything here is a test.
#![tactic(auto)]

#[cfg(test)]
mod bands;
#[cfg(test)]
mod drills;
#[cfg(test)]
mod edges;
#[cfg(test)]
mod harness;
#[cfg(test)]
mod hostile;
#[cfg(test)]
mod logs;
#[cfg(test)]
mod replays;
#[cfg(test)]
mod runs;
#[cfg(test)]
mod scripts;
