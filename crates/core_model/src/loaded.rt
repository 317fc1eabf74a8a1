//! What a core is made of (this project's own).

use crate::event::{EventRun, OrderRun};
use crate::items::Items;
use crate::plan::Plan;
use crate::world::World;
use isa_model::Task;

/// A bundle whose code is words, whose tasks are at their places, and whose harts have a plan each. `specs/Loaded.antt` says within
/// which limits it is.
#[derive(Debug, Drop)]
pub struct Loaded {
    /// The number of harts, 1 to 8.
    pub harts: u32,
    /// How many slots there are for contexts, 1 to 8.
    pub slots: u32,
    /// The plan of each hart, in the order of their numbers.
    pub plans: Items<Plan>,
    /// The tasks in the order of their numbers, 1 to 32 of them.
    pub tasks: Items<Task>,
    /// The band of each task, 0 or 1. The ready tasks of band 0 are taken first.
    pub bands: Items<u32>,
    /// The worlds, at most 65,536, all with as many words.
    pub worlds: Items<World>,
    /// The events of the core in runs, at most 1,048,576 events.
    pub events: Items<EventRun>,
    /// The order of the harts' queue actions in runs, at most 1,048,576 actions.
    pub order: Items<OrderRun>,
}
