//! Laws of runs in which all harts have found nothing: each is the contract of a function that does nothing.

ghost use Rattle.ended_laws.specs.Ending.{EmptyTakesStop, LegalOrdersNameHarts, SlotsStayUsed, StoppedRunsAreOver, StoppedRunsEndEmpty};
ghost use Rattle.ended_laws.specs.LoneOrders.{LoneOrdersAreOne, LoneOrdersEndAll, OrdersAreOnBoards};

/// After every list of events as many contexts are ready or out as there are slots, unless no task waits. So no slot is left free while a
/// task waits for one.
pub fn slots_stay_used()
    ensures used { SlotsStayUsed }
{}

/// After a legal order after which every hart has found nothing, no task waits, no context is ready, none is out, and each task has ended.
pub fn stopped_runs_are_over()
    ensures over { StoppedRunsAreOver }
{}

/// The last entry of such an order is a take that finds nothing.
pub fn stopped_runs_end_empty()
    ensures last { StoppedRunsEndEmpty }
{}

/// A hart that has made an empty take in a legal order has found nothing for good: so says the pace that it has after the order.
pub fn empty_takes_stop()
    ensures stop { EmptyTakesStop }
{}

/// The entries of a legal order are numbers of harts of the bundle.
pub fn legal_orders_name_harts()
    ensures harts { LegalOrdersNameHarts }
{}

/// Under every code and for every bundle at most one legal order names hart 0 alone and lets it find nothing.
pub fn lone_orders_are_one()
    ensures one { LoneOrdersAreOne }
{}

/// Such an order of a bundle for one hart ends all tasks.
pub fn lone_orders_end_all()
    ensures ended { LoneOrdersEndAll }
{}

/// Two legal orders that leave boards with one order are one order.
pub fn orders_are_on_boards()
    ensures orders { OrdersAreOnBoards }
{}
