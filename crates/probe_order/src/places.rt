//! The latch writes of a course.

ghost use Rattle.std.specs.Prelude.{◌≡◌, ◌++◌, ◌≤◌, IfOk, OnOk, length, map};
ghost use Rattle.isa_model.specs.Limits.{max_fuel};
ghost use Rattle.probe_inspect.specs.Course.{latches_at};
ghost use Rattle.probe_order.specs.Places.{place_of, places_in};

use isa_model::Latch;
use probe_inspect::Course;
use std::alloc::{AllocError, Global};

/// A latch write: the number of the instruction, from 0, and the latch.
#[derive(Clone, Copy)]
pub(crate) struct Place {
    pub step: u32,
    pub latch: Latch,
}

/// Adds the latches that an instruction writes.
fn add_places(places: &mut Vec<Place>, step: u32, latches: &[Latch]) -> Result<(), AllocError>
    ensures added { OnOk result (places.new.items ≡ places.old.items ++ map (place_of step) latches.now) }
{
    for latch in latches {
        places.push(Place {
            step,
            latch: *latch,
        })?;
    }
    Ok(())
}

/// The latch writes of a course, in their order: as many as each row has.
pub(crate) fn places_of(alloc: Global, course: &Course) -> Result<Vec<Place>, AllocError>
    requires short { length course.now.steps ≤ max_fuel }
    ensures places { IfOk result (λ places. places.items ≡ places_in (latches_at course.now) (length course.now.steps)) }
{
    let mut places = Vec::with_capacity(alloc, course.places)?;
    let steps = course.steps.as_slice();
    for step in 0..steps.len() {
        add_places(&mut places, step as u32, steps[step].latches.as_slice())?;
    }
    Ok(places)
}
