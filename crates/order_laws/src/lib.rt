//! What holds of coarse runs: of the core along an order of queue actions, and of each hart's share of it. The definitions are in `specs/`, the
//! proofs in `proofs/`: the entries of one event (`Named`, `OneEvent`), the events of an order (`AsEvents`), the shares of the harts
//! (`Shares`, `WholeShares`), a hart's own steps (`OwnSteps`, `OwnWay`, `FewSteps`), where it gets to without ticks (`..Arrive..`) and in user
//! mode (`UserReach`), so that it comes to its next action (`EachTurn`) and each entry lowers the potential (`Bound`, `LegalOrders`), runs in
//! the middle of their entries (`OneStep`, `Stepped`), orders that are judged entry by entry (`Judged`), and the orders of alike bundles
//! (`AlikeActions`, `AlikeRuns`).
#![tactic(auto)]

pub mod laws;

pub use laws::{
    alike_bundles_run_alike, boards_tell_orders, coarse_runs_are_kept, coarse_states_are_cores,
    each_entry_acts, entries_are_few, entries_lower_the_potential, harts_come_to_actions,
    legal_orders_are_bounded, orders_are_judged, shares_make_up_logs, shares_stay,
    steps_come_to_actions,
};
