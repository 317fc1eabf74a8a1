//! Rows of texts that no command writes, of the edge over std's readers and writers, and of bundles that are loaded for fewer harts than
//! the commands do. Everything here is a test.
#![tactic(auto)]

#[cfg(test)]
mod loading;
#[cfg(test)]
mod texts;
