//! What a worker has.

use hart_state::Hart;
use probe_log::Tally;
use timer_plan::Pace;

/// A worker's own: its hart, how far the hart is in its plan, and the counts of the hart's entries of the log.
#[derive(Drop)]
pub(crate) struct OwnHart {
    pub(crate) hart: Hart,
    pub(crate) pace: Pace,
    pub(crate) tally: Tally,
}
