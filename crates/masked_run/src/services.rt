//! The services of a task.

ghost use Rattle.std.specs.Prelude.{◌≡◌, ℕ, ◌<◌, Bool, true, false, List, length, get_or, slice_get, IfSome, IfOk};
ghost use Rattle.isa_model.specs.declared.latch.Latch.{Latch};
ghost use Rattle.isa_model.specs.declared.task.Task.{Task};
ghost use Rattle.isa_model.specs.Alone.{AloneState, after_end, after_service, after_out, after_in, after_call};
ghost use Rattle.isa_model.specs.Control.{kind_of};
ghost use Rattle.isa_model.specs.declared.ends.End.{End};
ghost use Rattle.tape_terms.specs.Values.{value_of, Keeps};
ghost use Rattle.masked_run.specs.Places.{term_at, AreIn};
ghost use Rattle.masked_run.specs.Standing.{Steps, IsTapeOf};

use crate::machine::Machine;
use isa_model::{EndKind, Task};
use std::alloc::AllocError;
use tape_terms::Pool;

/// Goes on after a service.
fn return_from(pool: &Pool, machine: &mut Machine)
    requires places { AreIn pool.now (term_at machine.old.latches) }
    ensures done { (T : Task) (fixed : List Bool) → Steps T fixed (λ U s. (after_service 3 s).state) pool.now machine.old pool.now machine.new }
{
    machine.pc = machine.pc.wrapping_add(4);
}

/// Ends the run.
fn finish(pool: &Pool, machine: &mut Machine, kind: EndKind)
    requires places { AreIn pool.now (term_at machine.old.latches) }
    ensures done { (T : Task) (fixed : List Bool) (end : AloneState → End) → ((s : AloneState) → kind_of (end s) ≡ kind) →
        Steps T fixed (λ U s. (after_end (end s) kind s).state) pool.now machine.old pool.now machine.new }
{
    machine.end = Some(kind);
}

/// Appends a word to the output, or ends the run where the output has its maximum.
fn put_out(task: &Task, pool: &Pool, machine: &mut Machine)
    requires places { AreIn pool.now (term_at machine.old.latches) }
    ensures done { (fixed : List Bool) → Steps task.now fixed (λ U s. (after_out U (s.value (Latch.Reg 10)) s).state) pool.now machine.old pool.now machine.new }
{
    if machine.output < task.out_max as usize {
        machine.output += 1;
        machine.pc = machine.pc.wrapping_add(4);
    } else {
        machine.end = Some(EndKind::OutFull);
    }
}

/// Whether a place of the tape is fixed.
fn is_fixed(fixed: &[bool], place: usize) -> bool
    ensures value { result ≡ get_or fixed.now place false }
{
    if place < fixed.len() {
        fixed[place]
    } else {
        false
    }
}

/// The term of the word at a place of the tape: a constant where the place is fixed.
fn tape_term(
    task: &Task,
    fixed: &[bool],
    pool: &mut Pool,
    place: usize,
) -> Result<usize, AllocError>
    requires inside { place < length task.now.tape }
    ensures place { IfOk result (λ i. i < length pool.new) }
    ensures value { IfOk result (λ i. (tape : List ℕ) → IsTapeOf task.now fixed.now tape → value_of pool.new tape i ≡ get_or tape place 0) }
    ensures others { Keeps pool.old pool.new }
{
    if is_fixed(fixed, place) {
        let word = task.tape.as_slice()[place];
        return pool.constant(word);
    }
    pool.word(place)
}

/// Takes the next word of the tape into a0, or ends the run where there is none.
fn take_in(
    task: &Task,
    fixed: &[bool],
    pool: &mut Pool,
    machine: &mut Machine,
) -> Result<(), AllocError>
    requires places { AreIn pool.old (term_at machine.old.latches) }
    ensures done { IfOk result (λ u. Steps task.now fixed.now (λ U s. (after_in (slice_get U.tape s.tape_at) s).state) pool.old machine.old pool.new machine.new) }
{
    if machine.tape_at < task.tape.len() {
        let term = tape_term(task, fixed, pool, machine.tape_at)?;
        machine.latches.write_a0(term);
        machine.tape_at += 1;
        machine.pc = machine.pc.wrapping_add(4);
    } else {
        machine.end = Some(EndKind::TapeEnd);
    }
    Ok(())
}

/// The service of a number.
pub(crate) fn serve(
    task: &Task,
    fixed: &[bool],
    pool: &mut Pool,
    machine: &mut Machine,
    number: u32,
) -> Result<(), AllocError>
    requires places { AreIn pool.old (term_at machine.old.latches) }
    ensures done { IfOk result (λ u. Steps task.now fixed.now (λ U s. (after_call U number (s.value (Latch.Reg 10)) s).state) pool.old machine.old pool.new machine.new) }
{
    match number {
        0 => finish(pool, machine, EndKind::Exited),
        1 => put_out(task, pool, machine),
        2 => return take_in(task, fixed, pool, machine),
        3 => return_from(pool, machine),
        other => finish(pool, machine, EndKind::BadCall(other)),
    }
    Ok(())
}
