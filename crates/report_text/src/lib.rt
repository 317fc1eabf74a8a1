//! The texts of reports and listings. Each line ends with a line feed.
#![tactic(auto)]

mod alone;
mod append;
mod asm_listing;
mod explanations;
mod log_listing;
mod snapshot_report;
mod texts;
mod verdicts;
mod verdicts_two;

pub use alone::alone_report;
pub use asm_listing::asm_text;
pub use explanations::explain_text;
pub use log_listing::listing;
pub use snapshot_report::{order_line, report};
pub use verdicts::{cert_fault_text, verdict_text};
pub use verdicts_two::{two_fault_text, verdict_two_text};
