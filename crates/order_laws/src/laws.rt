//! Laws of coarse runs: each is the contract of a function that does nothing.

ghost use Rattle.order_laws.specs.Judging.{OrdersAreJudged};
ghost use Rattle.order_laws.specs.Laws.{CoarseStatesAreCores, SharesStay, SharesMakeUpLogs, CoarseRunsAreKept, EachEntryActs, EntriesAreFew, BoardsTellOrders, EntriesLowerThePotential, LegalOrdersAreBounded, HartsComeToActions, AlikeBundlesRunAlike, StepsComeToActions};

/// The core between the entries of an order is the one that the order's events leave, so that all that holds of a core after a list of events
/// holds of it.
pub fn coarse_states_are_cores()
    ensures cores { CoarseStatesAreCores }
{}

/// Entries of other harts leave a hart's share of a coarse run as it is: the hart, its pace, and its entries of the log depend on the order
/// only up to the hart's own last entry.
pub fn shares_stay()
    ensures shares { SharesStay }
{}

/// After every list of events each entry of the log names exactly one of the harts of the bundle. So however entries are counted, the counts
/// of the harts' shares add up to the count of the whole log.
pub fn shares_make_up_logs()
    ensures shares { SharesMakeUpLogs }
{}

/// A coarse run is kept at boot, and along every legal order from wherever it is kept: its core is kept, and each hart that has not found
/// nothing stands where it does between two of its queue actions.
pub fn coarse_runs_are_kept()
    ensures kept { CoarseRunsAreKept }
{}

/// Every legal entry of a coarse run that is kept makes a queue action, by no more than 5,000 steps, and the board's order grows by its hart.
pub fn each_entry_acts()
    ensures acts { EachEntryActs }
{}

/// Every legal entry of a coarse run that is kept adds at most 30,000 entries to the log.
pub fn entries_are_few()
    ensures few { EntriesAreFew }
{}

/// The order of the board after a legal order is that order, so that a board stands for one order at most.
pub fn boards_tell_orders()
    ensures order { BoardsTellOrders }
{}

/// Every legal entry of a coarse run that is kept lowers its potential, so that a legal order from there has no more entries than that. The
/// potential is two for each listed quantum that is left or was drawn for a context that is out, for each instruction that the fuel of a task
/// has left (had left when it was taken, where it is out), for its used fuel and for each pending timer, and one for each hart that holds
/// nothing and goes on. At boot it is the bound of the bundle.
pub fn entries_lower_the_potential()
    ensures lower { EntriesLowerThePotential }
{}

/// A legal order of a loaded bundle has no more entries than the bound of the bundle: twice the sum of the listed quanta, the fuels and the
/// number of tasks, and the number of harts.
pub fn legal_orders_are_bounded()
    ensures bounded { LegalOrdersAreBounded }
{}

/// Each hart of a coarse run that is kept comes to its next queue action by its own steps alone, unless it has found nothing: they are the
/// steps of its entry, whatever the others do, and they make so few entries of the log that with the action's there are no more than 30,000.
pub fn harts_come_to_actions()
    ensures come { HartsComeToActions }
{}

/// With every kernel whose save part and restore part do alike on harts that are alike, two alike bundles stand for the same events by every
/// order. The order is legal for both or for neither, and their coarse logs agree publicly.
pub fn alike_bundles_run_alike()
    ensures alike { AlikeBundlesRunAlike }
{}

/// Wherever the harts of a core are in their steps under their plans, each that has not found nothing comes on to its queue action by no more
/// than 5,000 steps, and adds at most 30,000 entries to the log until then.
pub fn steps_come_to_actions()
    ensures come { StepsComeToActions }
{}

/// The run by an order, with or without a log that is kept, runs all of it exactly where the order is legal and the log has room for it. The
/// first entry that isn't legal ends it at its place, and the first one that the log has no room for ends it, whichever is met first.
pub fn orders_are_judged()
    ensures judged { OrdersAreJudged }
{}
