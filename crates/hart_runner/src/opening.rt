//! The places of the workers, before they begin.

ghost use Rattle.std.specs.Prelude.{◌≡◌, vec_len, IfOk};
ghost use Rattle.core_model.specs.Loaded.{IsLoaded};
ghost use Rattle.turn_lock.specs.Passes.{AreNewPasses, lock_frame};
ghost use Rattle.hart_runner.specs.Places.{AreReadyPlaces};
ghost use Rattle.hart_runner.specs.Rooms.{HasRoomFor};

use crate::board::CoreBoard;
use crate::place::{Place, Start};
use crate::receipt::Receipt;
use core_model::Loaded;
use hart_state::Hart;
use probe_log::Tally;
use std::alloc::{AllocError, Global};
use timer_plan::Pace;
use turn_lock::{Pass, Turns};

/// The place of each hart, with the pace of its plan and its pass.
pub(crate) fn places(
    alloc: Global,
    lock: &Turns<CoreBoard>,
    loaded: &Loaded,
    passes: Vec<Pass<CoreBoard>>,
) -> Result<Vec<Place>, AllocError>
    requires loaded { IsLoaded loaded.now }
    requires frame { (lock_frame lock.now).value ≡ loaded.now }
    requires count { vec_len passes ≡ loaded.now.harts }
    requires passes { AreNewPasses lock.now passes.items }
    ensures count { IfOk result (λ places. vec_len places ≡ loaded.now.harts) }
    ensures ready { IfOk result (λ places. AreReadyPlaces lock.now places.items) }
{
    let plans = loaded.plans.as_slice();
    let mut places = Vec::with_capacity(alloc, passes.len())?;
    let mut number = 0u32;
    for pass in passes {
        let pace = Pace::new(plans[number as usize].copy(alloc)?);
        places.push_reserved(Place {
            number,
            start: Some(Start { pace, pass }),
            ended: None,
        });
        number += 1;
    }
    Ok(places)
}

/// Memory for what the workers leave, which is taken before they begin.
#[derive(Drop)]
pub(crate) struct Rooms {
    pub(crate) harts: Vec<Hart>,
    pub(crate) tallies: Vec<Tally>,
    pub(crate) passes: Vec<Pass<CoreBoard>>,
    pub(crate) receipts: Vec<Receipt>,
}

/// Empty lists with memory for so many workers.
pub(crate) fn empty_rooms(alloc: Global, count: usize) -> Result<Rooms, AllocError>
    ensures room { IfOk result (HasRoomFor count) }
{
    Ok(Rooms {
        harts: Vec::with_capacity(alloc, count)?,
        tallies: Vec::with_capacity(alloc, count)?,
        passes: Vec::with_capacity(alloc, count)?,
        receipts: Vec::with_capacity(alloc, count)?,
    })
}
