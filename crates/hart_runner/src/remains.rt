//! What the workers leave.

use crate::receipt::Receipt;
use core_model::Items;
use hart_state::Hart;
use probe_log::Tally;
use ready_queue::Board;

/// What the workers leave when all have ended: the board, and of each worker, in the order of the harts' numbers, its hart, the counts of the
/// hart's entries, and its receipt.
#[derive(Drop)]
pub(crate) struct Remains {
    pub(crate) board: Board,
    pub(crate) harts: Items<Hart>,
    pub(crate) tallies: Items<Tally>,
    pub(crate) receipts: Items<Receipt>,
}
