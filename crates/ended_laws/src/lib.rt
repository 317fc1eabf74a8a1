//! What holds where all harts of a coarse run have found nothing: then all tasks have ended. The definitions are in `specs/`, the proofs in
//! `proofs/`: as many contexts are ready or out as there are slots, as long as a task waits (`SlotsUsed`), what an entry makes of its own hart
//! (`OneEntry`), what each entry keeps (`Quiet`), how a hart stops (`Stopping`), and the orders of one hart alone (`OneHart`).
#![tactic(auto)]

pub mod laws;

pub use laws::{
    empty_takes_stop, legal_orders_name_harts, lone_orders_are_one, lone_orders_end_all,
    orders_are_on_boards, slots_stay_used, stopped_runs_are_over, stopped_runs_end_empty,
};
