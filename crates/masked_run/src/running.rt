//! The run on all tapes, an instruction at a time.

ghost use Rattle.std.specs.Prelude.{◌≡◌, ℕ, ◌+◌, Bool, true, None, List, IfOk};
ghost use Rattle.isa_model.specs.Alone.{AloneState, fuel_checked_state};
ghost use Rattle.tape_terms.specs.declared.term.Term.{Term};
ghost use Rattle.tape_terms.specs.Values.{Keeps};
ghost use Rattle.masked_run.specs.Standing.{Stands, StandsFor, with_tape};

use crate::executing::execute;
use crate::latches::Latches;
use crate::machine::Machine;
use isa_model::{EndKind, Task};
use std::alloc::AllocError;
use tape_terms::Pool;

/// The run before its first instruction: all values are 0.
pub fn start(task: &Task, pool: &mut Pool) -> Result<Machine, AllocError>
    ensures stands { IfOk result (λ m. (fixed : List Bool) → Stands task.now fixed 0 pool.new m) }
    ensures running { IfOk result (λ m. m.end ≡ None) }
{
    let term = pool.constant(0)?;
    Ok(Machine {
        latches: Latches::new(term),
        pc: task.code_at,
        output: 0,
        tape_at: 0,
        end: None,
    })
}

/// Ends the run where the fuel is used.
fn check_fuel(task: &Task, machine: &mut Machine, count: u64)
    ensures checked { (terms : List Term) (tape : List ℕ) (s : AloneState) → StandsFor terms tape s machine.old →
        StandsFor terms tape (fuel_checked_state (with_tape task.now tape) count s) machine.new }
    ensures latches { machine.new.latches ≡ machine.old.latches }
{
    match machine.end {
        Some(_) => {}
        None => {
            if count == u64::from(task.fuel) {
                machine.end = Some(EndKind::OutOfSteps);
            }
        }
    }
}

/// One instruction more: false where the control isn't seen to be the same on all tapes, or the form isn't built.
pub fn advance(
    task: &Task,
    fixed: &[bool],
    pool: &mut Pool,
    machine: &mut Machine,
    count: u32,
) -> Result<bool, AllocError>
    requires running { machine.old.end ≡ None }
    requires stands { Stands task.now fixed.now count pool.old machine.old }
    ensures stands { IfOk result (λ known. known ≡ true → Stands task.now fixed.now (count + 1) pool.new machine.new) }
    ensures keeps { IfOk result (λ known. known ≡ true → Keeps pool.old pool.new) }
{
    if !execute(task, fixed, pool, machine)? {
        return Ok(false);
    }
    check_fuel(task, machine, u64::from(count) + 1);
    Ok(true)
}
