//! Laws about steps in user mode: each is the contract of a function that does nothing. In both a hart is in user mode, under the boot
//! configuration and the bounds of a valid task, with the pc, the registers and the data words of the task's run alone, and no
//! interrupt is due.

ghost use Rattle.hart_model.specs.UserLaws.{UserStepIsRunAlone, UserStepWritesOwn};

/// A step does exactly what the run alone does by one instruction, whatever the instruction and whatever fault it makes: it has the
/// same effect, and it goes on at the same pc with the same registers and data words, or faults by the same cause, or calls the same
/// service.
pub fn user_step_is_run_alone()
    ensures law { UserStepIsRunAlone }
{}

/// Every latch that a step writes has then the value that the run alone has after the instruction, and the tag of the task's next step
/// and of this latch; every other one stays. Each write makes one entry, in order, from the cell before the instruction.
pub fn user_step_writes_own()
    ensures law { UserStepWritesOwn }
{}
