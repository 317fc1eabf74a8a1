//! The services of a task (this project's own): each is one instruction.

ghost use Rattle.isa_model.specs.declared.latch.Latch.{Latch};
ghost use Rattle.isa_model.specs.declared.task.Task.{Task};
ghost use Rattle.isa_model.specs.Alone.{AloneState, after_out, after_in, after_call};
ghost use Rattle.std.specs.Prelude.{◌≡◌, ◌+◌, ◌^◌, ◌<◌, OnSome, slice_get};
ghost use Rattle.alone_run.specs.StandsFor.{StandsFor, Leaves};

use crate::machine::Machine;
use isa_model::{Deed, End, EndKind, Task};

/// Appends a word to the output, or ends the task where the output has its maximum.
fn put_out(machine: &mut Machine, word: u32) -> Deed
    ensures left { (T : Task) (s : AloneState) → StandsFor T s machine.old → Leaves T (after_out T word s) result machine.new }
{
    if machine.output.append(word) {
        machine.return_from(1)
    } else {
        machine.finish(End::OutFull, EndKind::OutFull)
    }
}

/// The tape word at an index.
fn tape_word(task: &Task, at: usize) -> Option<u32>
    ensures word { result ≡ slice_get task.now.tape at }
    ensures next { OnSome result (at + 1 < 2 ^ 64) }
{
    task.tape.as_slice().get(at).copied()
}

/// Takes the next word of the tape into a0, or ends the task where there is none.
fn take_in(task: &Task, machine: &mut Machine) -> Deed
    ensures left { (s : AloneState) → StandsFor task.now s machine.old →
        Leaves task.now (after_in (slice_get task.now.tape s.tape_at) s) result machine.new }
{
    match tape_word(task, machine.tape_at) {
        Some(word) => {
            machine.latches.write_a0(word);
            machine.tape_at += 1;
            machine.return_from(2)
        }
        None => machine.finish(End::TapeEnd, EndKind::TapeEnd),
    }
}

/// The service of a number, with its argument.
fn serve(task: &Task, machine: &mut Machine, number: u32, argument: u32) -> Deed
    ensures left { (s : AloneState) → StandsFor task.now s machine.old →
        Leaves task.now (after_call task.now number argument s) result machine.new }
{
    match number {
        0 => machine.finish(End::Exited(argument), EndKind::Exited),
        1 => put_out(machine, argument),
        2 => take_in(task, machine),
        3 => machine.return_from(3),
        other => machine.finish(End::BadCall(other), EndKind::BadCall(other)),
    }
}

/// The call of the environment: a7 has the number of the service, and a0 its argument.
pub(crate) fn call(task: &Task, machine: &mut Machine) -> Deed
    ensures left { (s : AloneState) → StandsFor task.now s machine.old →
        Leaves task.now (after_call task.now (s.value (Latch.Reg 17)) (s.value (Latch.Reg 10)) s) result machine.new }
{
    let number = machine.latches.regs[17];
    let argument = machine.latches.regs[10];
    serve(task, machine, number, argument)
}
