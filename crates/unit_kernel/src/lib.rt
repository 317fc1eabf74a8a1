//! A hart driven by hand, without a queue, and the kernel's words beside the text that they are made of. Everything here is a test.
#![tactic(auto)]

#[cfg(test)]
mod hart;
#[cfg(test)]
mod kernel;
