//! The places of workers.

use crate::board::CoreBoard;
use crate::receipt::Receipt;
use hart_state::Hart;
use probe_log::Tally;
use timer_plan::Pace;
use turn_lock::Pass;

/// What a worker begins with.
#[derive(Drop)]
pub(crate) struct Start {
    pub(crate) pace: Pace,
    pub(crate) pass: Pass<CoreBoard>,
}

/// What a worker ends with.
#[derive(Drop)]
pub(crate) struct Ended {
    pub(crate) hart: Hart,
    pub(crate) tally: Tally,
    pub(crate) pass: Pass<CoreBoard>,
    pub(crate) receipt: Receipt,
}

/// A worker's place, which is there before the worker begins, so that its end takes no memory.
#[derive(Drop)]
pub(crate) struct Place {
    pub(crate) number: u32,
    pub(crate) start: Option<Start>,
    pub(crate) ended: Option<Ended>,
}
