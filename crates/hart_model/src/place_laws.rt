//! A law about places and latches: it is the contract of a function that does nothing.

ghost use Rattle.hart_model.specs.PlaceLaws.{PlacesHaveLatches};

/// Each place of a hart that holds nothing or a valid task has a latch of its own, by which it is found again. A latch that has a place
/// is the latch of this place.
pub fn places_have_latches()
    ensures law { PlacesHaveLatches }
{}
