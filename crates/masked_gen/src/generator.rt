//! Bundles from a number.

ghost use Rattle.std.specs.Prelude.{◌≡◌, [], ◌∷◌, IfOk};
ghost use Rattle.bundle_text.specs.Range.{IsWritable};
ghost use Rattle.bundle_text.specs.Text.{text_of, ReadsBack};
ghost use Rattle.masked_gen.specs.Draws.{drawn, draws};
ghost use Rattle.masked_gen.specs.Generator.{task_draw, generated};

use crate::code::code_of;
use crate::draws::{draw_gates, draw_masks, draw_shares};
use bundle_text::{Bundle, Code, PlanText, TaskText};
use core_model::{Items, Plan, Quanta};
use isa_model::Words;
use rand_core::SeedableRng;
use rand_pcg::Pcg32;
use std::alloc::{AllocError, Global};

/// Draws a task.
fn draw_task(alloc: Global, rng: &mut Pcg32) -> Result<TaskText, AllocError>
    ensures drawn { IfOk result (λ task. task_draw rng.old ≡ drawn task rng.new) }
{
    let gates = draw_gates(alloc, rng)?;
    let mut tape = draw_shares(alloc, rng)?;
    let mut masks = draw_masks(alloc, gates.as_slice(), rng)?;
    tape.append(&mut masks)?;
    let lines = code_of(alloc, gates.as_slice())?;
    Ok(TaskText {
        fuel: 1000,
        out_max: 2,
        data_len: 0,
        band: 0,
        tape: Words::new(tape),
        code: Code::Text {
            first_line: 0,
            lines,
        },
    })
}

/// Draws so many tasks.
fn draw_tasks(alloc: Global, count: u32, rng: &mut Pcg32) -> Result<Items<TaskText>, AllocError>
    ensures drawn { IfOk result (λ tasks. draws count task_draw rng.old ≡ drawn tasks rng.new) }
{
    let mut tasks = Items::empty(alloc);
    for _ in 0..count {
        tasks.push(draw_task(alloc, rng)?)?;
    }
    Ok(tasks)
}

/// The plan of the first hart.
fn plans(alloc: Global) -> Result<Items<PlanText>, AllocError>
    ensures plans { IfOk result (λ plans. plans ≡ record { hart = 0; plan = record { quanta = []; tail = 5 } } ∷ []) }
{
    let mut plans = Items::empty(alloc);
    plans.push(PlanText {
        hart: 0,
        plan: Plan {
            quanta: Quanta::new(Vec::new(alloc)),
            tail: 5,
        },
    })?;
    Ok(plans)
}

/// The bundle of so many masked tasks that a number gives: the same one for the same numbers. With 1 to 32 tasks it can be loaded.
/// `AllocError` is want of memory.
///
/// It takes time linear in the number of tasks.
pub fn generate(alloc: Global, seed: u64, tasks: u32) -> Result<Bundle, AllocError>
    ensures bundle { IfOk result (λ bundle. bundle ≡ generated seed tasks) }

    // It may be written, and what is written reads as it is, but for the numbers of the lines at which code begins.
    ensures writable { IfOk result IsWritable }
    ensures reads_back { IfOk result (λ bundle. ReadsBack (text_of bundle) bundle) }
{
    let mut rng = Pcg32::seed_from_u64(seed);
    Ok(Bundle {
        slots: 4,
        plans: plans(alloc)?,
        tasks: draw_tasks(alloc, tasks, &mut rng)?,
        worlds: Items::empty(alloc),
        events: Items::empty(alloc),
        order: Items::empty(alloc),
    })
}
