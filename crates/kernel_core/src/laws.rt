//! Laws about the definitions of `specs/`: each is the contract of a function that does nothing.

ghost use Rattle.kernel_core.specs.Laws.{OrdersGrow, EntriesAreSteps, ToldIsStepped};

/// A core that goes by the plans and is told one hart's steps up to its next queue action after those of an order was told the order with this
/// hart at its end.
pub fn orders_grow()
    ensures grow { OrdersGrow }
{}

/// The steps of an entry are its hart's next step, and where this made no action the steps of the entry after it.
pub fn entries_are_steps()
    ensures steps { EntriesAreSteps }
{}

/// The core of what was told, with steps more, is the core after these steps, and their entries stand at the end of its log.
pub fn told_is_stepped()
    ensures told { ToldIsStepped }
{}
