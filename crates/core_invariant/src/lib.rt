//! What holds of a core after every list of events. The definitions that this rests on are in `specs/`, the proofs in `proofs/`: the
//! steps of a hart in user mode (`User..`), the ways from a trap through the kernel's code to a give (`Ready..`, `Done..`), the gives,
//! takes and returns, and from what each hart does (`EachHart`) what every event keeps (`Composition`).
#![tactic(auto)]

pub mod laws;

pub use laws::{
    bands_always_go_first, core_stays_sound, each_task_has_one_home, emitted_is_kernel,
    no_hart_wedges, outputs_stay_beginnings,
};
