//! When a hart's timer ticks, and runs of events and of orders as text. Only [`order_text`] takes memory.
#![tactic(auto)]

pub mod laws;
mod order;
mod pace;
mod token;

pub use core_model::{Event, EventRun, OrderRun, Plan, Quanta};
pub use order::order_text;
pub use pace::Pace;
pub use token::{TokenFault, event_run, order_run};
