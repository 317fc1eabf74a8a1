//! What a report tells. The definition is in `specs/`, the proof in `proofs/`: where decimal digits end (`Digits`), that the text of runs is
//! that of one list of runs (`RunsOnce`), that a report is that of one order (`OrderOnce`), that legal orders are of
//! bytes (`OfRuns`), and that nothing is counted as unexplained (`Explained`).
#![tactic(auto)]

pub mod laws;

pub use laws::{no_entry_is_unexplained, reports_tell_orders, run_reports_tell_orders};
