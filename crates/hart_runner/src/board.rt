//! The board that the workers share.

use core_model::Loaded;
use ready_queue::Board;
use std::snapshot::Snapshot;
use turn_lock::Turned;

/// A board under the lock. It stands for a loaded bundle and an order: the order is legal, and the board is that of the coarse run of this
/// order.
#[derive(Drop)]
pub struct CoreBoard(pub Board);

impl Turned for CoreBoard {
    type Frame = Snapshot<Loaded>;

    ghost use Rattle.hart_runner.specs.CoreBoards.{IsBoardOf};

    ghost stands = { λ b frame order. IsBoardOf frame.value b.0 order };
}
