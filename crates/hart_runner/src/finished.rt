//! What a run by threads ends with.

use crate::receipt::Receipt;
use core_model::Items;
use kernel_core::Snapshot;

/// A run in which all tasks have ended.
#[derive(Drop)]
pub struct Finished {
    /// The core after the run, with the order of all queue actions and the counts of the whole log.
    pub snapshot: Snapshot,
    /// How each hart's worker ended, in the order of the harts' numbers.
    pub receipts: Items<Receipt>,
}
