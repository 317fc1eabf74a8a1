//! The run alone, an instruction at a time and whole.

ghost use Rattle.std.specs.Prelude.{◌≡◌, ◌+◌, ◌<◌, ◌≤◌, ◌^◌, IfSome, IfNone, IfOk, IsSome, None, false, ℕ, slice_index};
ghost use Rattle.isa_model.specs.declared.task.Task.{Task};
ghost use Rattle.isa_model.specs.TaskPlaces.{IsValidTask};
ghost use Rattle.isa_model.specs.Alone.{AloneState, alone_at, fuel_checked_state};
ghost use Rattle.isa_model.specs.AloneValue.{alone_value};
ghost use Rattle.isa_model.specs.Control.{control_at};
ghost use Rattle.alone_run.specs.LatchValues.{Holds, has_latch};
ghost use Rattle.alone_run.specs.StandsFor.{StandsFor};
ghost use Rattle.alone_run.specs.IsAt.{IsAt};
ghost use Rattle.alone_run.specs.Marks.{IsMarkOf};
ghost use Rattle.alone_run.specs.Whole.{IsEndOf};

use crate::data::Data;
use crate::executing::execute;
use crate::latches::Latches;
use crate::machine::Machine;
use crate::marks::Mark;
use crate::output::Output;
use isa_model::{Control, End, Latch, Task, Words};
use std::alloc::{AllocError, Global};
use std::marker::Model;

/// A task on a hart of its own, without kernel and other tasks. Contracts see the task and how many instructions were executed.
///
/// It holds the task, four bytes for each latch and data word, and the room of the whole output.
#[derive(Drop)]
pub struct Alone {
    task: Task,
    machine: Machine,
    count: u32,
}

impl Model for Alone {
    ghost use Rattle.alone_run.specs.RunPosition.{RunPosition};

    ghost Value = { RunPosition };

    ghost use Rattle.alone_run.specs.IsAt.{IsAt};

    ghost view = { λ a. record { task = a.task; count = a.count } };

    ghost invariant = { λ a. IsAt a.task a.count a.machine };
}

/// Ends a machine whose fuel is used, where nothing else has ended it. It stands out of line, so that a run has only a comparison for it.
#[inline(never)]
fn run_out(machine: &mut Machine)
    ensures after { (T : Task) (s : AloneState) → StandsFor T s machine.old → StandsFor T (fuel_checked_state T T.fuel s) machine.new }
{
    if machine.end.is_none() {
        machine.end = Some(End::OutOfSteps);
    }
}

/// Used fuel ends a machine that nothing else has ended.
fn use_up(fuel: u32, count: u32, machine: &mut Machine)
    ensures after { (T : Task) (s : AloneState) → T.fuel ≡ fuel → StandsFor T s machine.old →
        StandsFor T (fuel_checked_state T count s) machine.new }
{
    if count == fuel {
        run_out(machine);
    }
}

/// One instruction of a machine at a count, and the end of used fuel.
fn advance(task: &Task, count: u32, machine: &mut Machine) -> Control
    requires at { IsAt task.now count machine.old }
    requires running { machine.old.end ≡ None }
    ensures control { result ≡ control_at task.now count }
    ensures at { IsAt task.now (count + 1) machine.new }
    ensures next { count + 1 < 2 ^ 32 }
    ensures within { count < task.now.fuel }
{
    let fuel = task.fuel;
    let pc = machine.pc;
    let deed = execute(task, machine);
    use_up(fuel, count + 1, machine);
    Control { pc, deed }
}

/// Registers that are all 0.
fn zeros() -> [u32; 32]
    ensures zero { (r : ℕ) → slice_index result r ≡ 0 }
{
    [0; 32]
}

/// The latches of a task before its first instruction.
fn first_latches(alloc: Global, task: &Task) -> Result<Latches, AllocError>
    requires valid { IsValidTask task.now }
    ensures zero { IfOk result (λ latches. Holds task.now latches (λ l. 0)) }
{
    Ok(Latches {
        regs: zeros(),
        port_a: 0,
        port_b: 0,
        res: 0,
        load: 0,
        store: 0,
        mul: 0,
        memory: Data::new(alloc, task.data_at, task.data_len)?,
    })
}

impl Alone {
    /// The task before its first instruction. It takes the room of all later output.
    pub fn start(alloc: Global, task: &Task) -> Result<Alone, AllocError>
        requires valid { IsValidTask task.now }
        ensures start { IfOk result (λ a. a ≡ record { task = task.now; count = 0 }) }
    {
        let machine = Machine {
            latches: first_latches(alloc, task)?,
            pc: task.code_at,
            output: Output::new(alloc, task.out_max)?,
            tape_at: 0,
            end: None,
        };
        Ok(Alone {
            task: task.copy(alloc)?,
            machine,
            count: 0,
        })
    }

    /// A mark of this run after the instructions so far. Errors: where memory ran out.
    pub fn mark(&self, alloc: Global) -> Result<Mark, AllocError>
        ensures mark { IfOk result (λ m. IsMarkOf self.now.task self.now.count m) }
    {
        Mark::of(alloc, &self.machine, self.count)
    }

    /// A task after as many instructions as a mark of its run says. It takes the room of all output. Errors: where memory ran out.
    pub fn resume(alloc: Global, task: &Task, mark: &Mark) -> Result<Alone, AllocError>
        requires mark { IsMarkOf task.now mark.now.count mark.now }
        ensures resumed { IfOk result (λ a. a ≡ record { task = task.now; count = mark.now.count }) }
    {
        Ok(Alone {
            task: task.copy(alloc)?,
            machine: mark.machine(alloc, task.out_max)?,
            count: mark.count,
        })
    }

    /// One instruction, and what others may see of it. None, with nothing changed, exactly where there is an end.
    pub fn step(&mut self) -> Option<Control>
        ensures some { IfSome result (λ control. (control ≡ control_at self.old.task self.old.count)
            × ((alone_at self.old.task self.old.count).end ≡ None)
            × (self.new ≡ record { task = self.old.task; count = self.old.count + 1 })) }
        ensures none { IfNone result (IsSome (alone_at self.old.task self.old.count).end × (self.new ≡ self.old)) }
        ensures within { IsSome result → self.old.count < self.old.task.fuel }
    {
        if self.machine.end.is_some() {
            return None;
        }
        let count = self.count;
        let control = advance(&self.task, count, &mut self.machine);
        self.count = count + 1;
        Some(control)
    }

    /// The value of a latch, and 0 for one that the task hasn't: x0, `mscratch`, and an address that isn't one of its data words.
    pub fn value(&self, latch: Latch) -> u32
        ensures value { result ≡ alone_value self.now.task self.now.count latch }
        ensures absent { has_latch self.now.task latch ≡ false → result ≡ 0 }
    {
        self.machine.latches.value(latch)
    }

    /// The address of the next instruction, or of the one that ended the task; after used fuel the address of the next one.
    pub fn pc(&self) -> u32
        ensures pc { result ≡ (alone_at self.now.task self.now.count).pc }
    {
        self.machine.pc
    }

    /// How many instructions were executed, at most the fuel.
    pub fn count(&self) -> u32
        ensures count { result ≡ self.now.count }
        ensures within { result ≤ self.now.task.fuel }
    {
        self.count
    }

    /// The output so far.
    pub fn output(&self) -> &[u32]
        ensures output { result.now ≡ (alone_at self.now.task self.now.count).output }
    {
        self.machine.output.as_slice()
    }

    /// The end, if there is one.
    pub fn ended(&self) -> Option<End>
        ensures end { result ≡ (alone_at self.now.task self.now.count).end }
    {
        self.machine.end
    }
}

/// How a task ended, after how many instructions and with what output.
#[derive(Debug, Drop)]
pub struct Ended {
    pub end: End,
    pub count: u32,
    pub output: Words,
}

/// Runs a task alone to its end.
pub fn run_alone(alloc: Global, task: &Task) -> Result<Ended, AllocError>
    requires valid { IsValidTask task.now }
    ensures end { IfOk result (λ e. IsEndOf task.now e) }
{
    let mut alone = Alone::start(alloc, task)?;
    while let Some(_control) = alone.step() {}
    let output = Words::new(Vec::from_slice(alloc, alone.output())?);
    match alone.ended() {
        Some(end) => Ok(Ended {
            end,
            count: alone.count(),
            output,
        }),
        None => unreachable!(),
    }
}
