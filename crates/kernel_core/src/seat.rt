//! What a core keeps beside each of its harts.

ghost use Rattle.std.specs.Prelude.{◌≡◌};
ghost use Rattle.kernel_core.specs.Seats.{stopped_by};

use core_model::Action;
use std::marker::Model;
use timer_plan::Pace;

/// The pace of a hart, and whether the hart has found nothing.
#[derive(Debug, Drop)]
pub(crate) struct Seat {
    pub(crate) pace: Pace,
    pub(crate) stopped: bool,
}

impl Model for Seat {
    ghost use Rattle.kernel_core.specs.Seats.{SeatValue};

    ghost Value = { SeatValue };

    ghost view = { λ s. record { pace = s.pace; has_stopped = s.stopped } };
}

/// Whether a hart has found nothing, after a step that made this action.
pub(crate) fn stopped_after(action: &Option<Action>, stopped: bool) -> bool
    ensures stopped { result ≡ stopped_by action.now stopped }
{
    match action {
        Some(Action::Empty) => true,
        Some(Action::Took(_)) | Some(Action::GaveReady(_)) | Some(Action::GaveDone(_)) | None => {
            stopped
        }
    }
}
