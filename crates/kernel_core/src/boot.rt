//! A core at boot.

ghost use Rattle.std.specs.Prelude.{◌≡◌, ◌≤◌, ◌%◌, length, map, IfOk};
ghost use Rattle.std.specs.List.{AllByRecursion};
ghost use Rattle.isa_model.specs.TaskPlaces.{IsValidTask};
ghost use Rattle.core_model.specs.Board.{boot_board};
ghost use Rattle.core_model.specs.Core.{bodies_from, harts_from};
ghost use Rattle.core_model.specs.Loaded.{IsLoaded};
ghost use Rattle.core_invariant.specs.KernelStates.{emitted_parts};
ghost use Rattle.kernel_core.specs.History.{IsCoreOf, history_at_boot};
ghost use Rattle.kernel_core.specs.Seats.{boot_seat};
ghost use Rattle.kernel_core.specs.PacedHistory.{IsPacedCoreOf, paced_at_boot};

use crate::counted::Counted;
use crate::kernel::Kernel;
use crate::run::Run;
use crate::seat::Seat;
use crate::whole_core::Core;
use core_model::{Loaded, Plan};
use hart_state::Hart;
use isa_model::Task;
use probe_log::Keeper;
use ready_queue::{Board, Body};
use std::alloc::{AllocError, Global};
use timer_plan::Pace;

/// How many actions more than it is booted for a core's order has room for: takes ask for it.
pub(crate) const BEYOND: u64 = 10;

/// The bodies of tasks at their start, numbered from 0 on.
fn bodies(alloc: Global, tasks: &[Task]) -> Result<Vec<Body>, AllocError>
    requires valid { AllByRecursion IsValidTask tasks.now }
    requires few { length tasks.now ≤ 32 }
    ensures bodies { IfOk result (λ bodies. bodies.items ≡ bodies_from 0 tasks.now) }
{
    let mut bodies = Vec::new(alloc);
    let mut number = 0;
    let mut rest = tasks;
    while let [first, others @ ..] = rest {
        bodies.push(Body::fresh(alloc, number, first)?)?;
        number += 1;
        rest = others;
    }
    Ok(bodies)
}

/// So many harts at boot, at the kernel's take.
fn harts(alloc: Global, count: u32, take: u32) -> Result<Vec<Hart>, AllocError>
    requires few { count ≤ 8 }
    requires aligned { take % 4 ≡ 0 }
    ensures harts { IfOk result (λ harts. harts.items ≡ harts_from 0 count take) }
{
    let mut harts = Vec::new(alloc);
    let mut number = 0;
    while number < count {
        harts.push(Hart::boot(number, take))?;
        number += 1;
    }
    Ok(harts)
}

/// The seats of harts at boot: each has the pace of its plan.
fn seats(alloc: Global, plans: &[Plan]) -> Result<Vec<Seat>, AllocError>
    ensures seats { IfOk result (λ seats. seats.items ≡ map boot_seat plans.now) }
{
    let mut seats = Vec::new(alloc);
    let mut rest = plans;
    while let [first, others @ ..] = rest {
        let pace = Pace::new(first.copy(alloc)?);
        seats.push(Seat {
            pace,
            stopped: false,
        })?;
        rest = others;
    }
    Ok(seats)
}

/// The board of a loaded bundle at boot. `AllocError` is want of memory.
pub fn board_at_boot(alloc: Global, loaded: &Loaded) -> Result<Board, AllocError>
    requires loaded { IsLoaded loaded.now }
    ensures lists { IfOk result (λ board. board.lists ≡ boot_board loaded.now.slots (bodies_from 0 loaded.now.tasks) loaded.now.bands) }
{
    let bodies = bodies(alloc, loaded.tasks.as_slice())?;
    let bands = Vec::from_slice(alloc, loaded.bands.as_slice())?;
    Board::boot(alloc, loaded.slots, bodies, bands)
}

impl<K: Keeper> Core<K> {
    /// A core at boot, whose harts execute this kernel, with room for so many queue actions. Nothing after this takes memory. The keeper is
    /// kept as it is. `AllocError` is want of memory.
    pub fn boot_with(
        alloc: Global,
        loaded: &Loaded,
        keeper: K,
        actions: u64,
        kernel: Kernel,
    ) -> Result<Core<K>, AllocError>
        requires loaded { IsLoaded loaded.now }
        ensures told { IfOk result (λ core. IsCoreOf (history_at_boot loaded.now kernel) core) }
        ensures paced { IfOk result (λ core. IsPacedCoreOf (paced_at_boot loaded.now kernel) core) }
        ensures keeper { IfOk result (λ core. core.log.keeper ≡ keeper) }
        ensures actions { IfOk result (λ core. core.run.actions ≡ actions) }
    {
        if actions > u64::MAX - BEYOND {
            return Err(AllocError);
        }
        let mut board = board_at_boot(alloc, loaded)?;
        board.reserve(actions + BEYOND)?;
        let harts = harts(alloc, loaded.harts, kernel.code().take)?;
        let seats = seats(alloc, loaded.plans.as_slice())?;
        Ok(Core {
            run: Run {
                board,
                harts,
                kernel,
                actions,
            },
            tasks: loaded.tasks.len() as u32,
            log: Counted::new(keeper),
            seats,
            is_paced: true,
        })
    }

    /// A core at boot with the kernel of this project, as [`Core::boot_with`] makes it.
    pub fn boot(
        alloc: Global,
        loaded: &Loaded,
        keeper: K,
        actions: u64,
    ) -> Result<Core<K>, AllocError>
        requires loaded { IsLoaded loaded.now }
        ensures told { IfOk result (λ core. IsCoreOf (history_at_boot loaded.now emitted_parts) core) }
        ensures paced { IfOk result (λ core. IsPacedCoreOf (paced_at_boot loaded.now emitted_parts) core) }
        ensures keeper { IfOk result (λ core. core.log.keeper ≡ keeper) }
        ensures actions { IfOk result (λ core. core.run.actions ≡ actions) }
    {
        let kernel = Kernel::emitted(alloc)?;
        Core::boot_with(alloc, loaded, keeper, actions, kernel)
    }
}
