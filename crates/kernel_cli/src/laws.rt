//! Laws about the definitions of `specs/`: each is the contract of a function that does nothing.

ghost use Rattle.std.specs.Prelude.{◌≡◌, ◌↔◌, ℕ, List, Some};
ghost use Rattle.kernel_cli.specs.Commands.{SpellsCommand, command_of};
ghost use Rattle.kernel_cli.specs.DrillLaws.{DrillOrdersAreOne, DrillsEndAll};
ghost use Rattle.kernel_cli.specs.Scripts.{LogIsFullExactly};
ghost use Rattle.kernel_cli.specs.RunLaws.{RunTextsTellOrders};
ghost use Rattle.kernel_cli.specs.Soundness.{AreKernelsSound, AreCoresSound, AreGeneratedCoresSound, AreLintedCoresSound};
ghost use Rattle.kernel_cli.specs.Security.{SecureTasksStaySecure};
ghost use Rattle.kernel_cli.specs.TopCall.{AreWorksSound};
ghost use Rattle.kernel_cli.specs.declared.command.Command.{Command};

use core_invariant::{
    core_stays_sound, each_task_has_one_home, emitted_is_kernel, no_hart_wedges,
    outputs_stay_beginnings,
};
use noninterference::emitted_is_alike;
use order_laws::alike_bundles_run_alike;
use probing_laws::{security_by_two_transfers, security_transfers, two_worlds_agree};
use report_laws::run_reports_tell_orders;
use routine_laws::accepted_routines_do;
use rv_loader::loading_is_sound;

/// The function that decides the words gives exactly the command that they spell.
pub fn commands_are_decided()
    ensures decided { (words : List (List ℕ)) (command : Command) → (command_of words ≡ Some command) ↔ SpellsCommand words command }
{}

/// The log is full exactly where some beginning of the bundle's events, short of all of them, has a log of more than 999,994 entries.
pub fn log_is_full_exactly()
    ensures full { LogIsFullExactly }
{}

/// The core of every bundle that is loaded is sound after every list of events, under every kernel whose parts do alike on harts that are alike:
/// each task has exactly one home in it, what a task has put out is a beginning of its output alone, no hart is wedged, and bundles that are
/// alike leave logs that agree publicly, and run alike by every order.
pub fn kernels_are_sound()
    ensures sound { AreKernelsSound }
{
    core_stays_sound();
    outputs_stay_beginnings();
    each_task_has_one_home();
    no_hart_wedges();
    two_worlds_agree();
    alike_bundles_run_alike();
}

/// So is the core of every bundle that bytes are read as and that loads for some number of harts from 1 to 8, under the kernel of this project.
pub fn cores_are_sound()
    ensures sound { AreCoresSound }
{
    loading_is_sound();
    kernels_are_sound();
    emitted_is_kernel();
    emitted_is_alike();
}

/// A task that is secure by one probe in its run alone, or by two, in the worlds of whatever bundle bytes are read as and that loads for some
/// number of harts from 1 to 8, is so in every core that runs it: beside any other tasks and after every list of events.
pub fn secure_tasks_stay_secure()
    ensures secure { SecureTasksStaySecure }
{
    loading_is_sound();
    security_transfers();
    security_by_two_transfers();
    emitted_is_kernel();
    emitted_is_alike();
}

/// The core of the bundle of every number is sound too, with at most 32 tasks and loaded for one hart.
pub fn generated_cores_are_sound()
    ensures sound { AreGeneratedCoresSound }
{
    loading_is_sound();
    kernels_are_sound();
    emitted_is_kernel();
    emitted_is_alike();
}

/// So is it under the kernel that has the two parts of any accepted words in place of its own.
pub fn linted_cores_are_sound()
    ensures sound { AreLintedCoresSound }
{
    loading_is_sound();
    kernels_are_sound();
    accepted_routines_do();
}

/// So is the core of every work of words, whatever bytes the source has.
pub fn works_are_sound()
    ensures sound { AreWorksSound }
{
    cores_are_sound();
    generated_cores_are_sound();
    linted_cores_are_sound();
}

/// The text of a run on threads tells its order: two orders that harts may make of a loaded bundle and that have one text are one order.
pub fn run_texts_tell_orders()
    ensures orders { RunTextsTellOrders }
{
    run_reports_tell_orders();
    emitted_is_kernel();
}

/// A bundle has one order of hart 0 alone at most that lets hart 0 find nothing. So there is one text of a drill.
pub fn drill_orders_are_one()
    ensures one { DrillOrdersAreOne }
{}

/// After the order of a drill all tasks have ended, under every kernel.
pub fn drills_end_all()
    ensures ended { DrillsEndAll }
{
    loading_is_sound();
}
