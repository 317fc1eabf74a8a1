//! Laws of reports: each is the contract of a function that does nothing.

ghost use Rattle.report_laws.specs.Laws.{NoEntryIsUnexplained, ReportsTellOrders, RunReportsTellOrders};

/// A report spells its order in one way only: two snapshots that have the same report name the same harts in the same order, one for each
/// queue action. Each hart's number is a byte, and there are fewer than 2^64 queue actions.
pub fn reports_tell_orders()
    ensures orders { ReportsTellOrders }
{}

/// The report of a run spells its order: two legal orders of one loaded bundle whose cores have the same report are one order.
pub fn run_reports_tell_orders()
    ensures orders { RunReportsTellOrders }
{}

/// The last number of the line `probes` is 0 in every report of a kernel's core, after whatever events.
pub fn no_entry_is_unexplained()
    ensures none { NoEntryIsUnexplained }
{}
