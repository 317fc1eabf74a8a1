//! Many harts: the values that the definitions of `specs/` speak of. So far these are the plans of timers, the events of a core and
//! the runs that texts say them in, queue actions, worlds, homes of tasks, and what a core is made of; and in `specs/` the board with
//! its actions, the kernel's text, the core after events or an order, what explains an entry of its log, what holds of every core, and
//! which bundles are alike.
#![tactic(auto)]

pub mod action;
pub mod event;
pub mod home;
pub mod items;
mod laws;
pub mod loaded;
pub mod plan;
pub mod world;

pub use action::Action;
pub use event::{Event, EventRun, OrderRun};
pub use home::Home;
pub use items::Items;
pub use laws::{
    actions_conserve, bands_go_in_order, counts_are_lengths, tasks_are_apart, tasks_begin_own,
};
pub use loaded::Loaded;
pub use plan::{Plan, Quanta};
pub use world::World;
