//! Laws of the cores that run a kernel: each is the contract of a function that does nothing.

ghost use Rattle.core_invariant.specs.BandOrder.{BandsAlwaysGoFirst};
ghost use Rattle.core_invariant.specs.Laws.{CoreStaysSound, OutputsStayBeginnings, EachTaskHasOneHome, NoHartWedges, EmittedIsKernel};

/// After every list of events a core of a loaded bundle is sound: each task has one home, and no slot or hart two tasks; each ready
/// context stands for its task; a hart in user mode is where the task's undisturbed run is; an ended task has the count, the output and
/// the end of its whole run; and every entry of the log is explained.
pub fn core_stays_sound()
    ensures sound { CoreStaysSound }
{}

/// After every list of events the output of each task, wherever it is, is a beginning of its output in its undisturbed run.
pub fn outputs_stay_beginnings()
    ensures outputs { OutputsStayBeginnings }
{}

/// After every list of events each task stands in exactly one list of the board, and its home tells which.
pub fn each_task_has_one_home()
    ensures homes { EachTaskHasOneHome }
{}

/// After every list of events, under whatever code, whatever is ready stands in the list of its task's band, and the next event takes a task
/// of band 1 only where no task of band 0 is ready.
pub fn bands_always_go_first()
    ensures bands { BandsAlwaysGoFirst }
{}

/// After every list of events no hart is wedged: its next step goes on or comes to a queue action. So no instruction of a kernel's code
/// raises an exception, and each of its accesses reaches something.
pub fn no_hart_wedges()
    ensures never { NoHartWedges }
{}

/// The kernel's own save part saves, and its own restore part restores.
pub fn emitted_is_kernel()
    ensures kernel { EmittedIsKernel }
{}
