//! A core made of parts.

ghost use Rattle.std.specs.Prelude.{◌≡◌, ◌+◌, length, IfOk};
ghost use Rattle.core_model.specs.Loaded.{IsWithinLimits};
ghost use Rattle.resume_laws.specs.Parts.{AreRightParts};
ghost use Rattle.timer_plan.specs.Pace.{pace_of};
ghost use Rattle.kernel_core.specs.History.{IsCoreOf, history_over};
ghost use Rattle.kernel_core.specs.PacedHistory.{IsPacedCoreOf};
ghost use Rattle.kernel_core.specs.Parts.{IsPaceLeft, ArePacesLeft, AreSeatsOver, drawn_by_left, is_past_take, paced_over};

use crate::boot::BEYOND;
use crate::counted::Counted;
use crate::kernel::Kernel;
use crate::parts::{Paces, Parts};
use crate::run::Run;
use crate::seat::Seat;
use crate::whole_core::Core;
use core_model::{Loaded, Plan};
use hart_state::Hart;
use probe_log::Keeper;
use std::alloc::{AllocError, Global};
use timer_plan::Pace;

/// Where a hart rests that has found nothing: past an empty take, and in the idle loop.
const PAST_TAKE: u32 = 0x1328;

const IDLE: u32 = 0x1454;

/// Whether a hart that rests has found nothing.
fn has_found_nothing(hart: &Hart) -> bool
    ensures test { result ≡ is_past_take hart.now }
{
    hart.pc() == PAST_TAKE || hart.pc() == IDLE
}

/// The pace of a plan of which these quanta are left.
fn pace_with_left(alloc: Global, plan: &Plan, left: &Pace) -> Result<Pace, AllocError>
    requires left { IsPaceLeft plan.now left.now }
    ensures pace { IfOk result (λ pace. pace ≡ pace_of plan.now (drawn_by_left plan.now left.now) 0) }
{
    let drawn = plan.quanta.as_slice().len() - left.left().len();
    let mut pace = Pace::new(plan.copy(alloc)?);
    for _taken in 0..drawn {
        pace.took();
    }
    Ok(pace)
}

/// The seats of harts that rest.
fn seats_over(
    alloc: Global,
    plans: &[Plan],
    paces: &Paces,
    harts: &[Hart],
) -> Result<Vec<Seat>, AllocError>
    requires paces { ArePacesLeft plans.now paces.now }
    requires harts { length harts.now ≡ length plans.now }
    ensures seats { IfOk result (λ seats. AreSeatsOver plans.now paces.now harts.now seats.items) }
{
    let mut seats = Vec::new(alloc);
    for number in 0..harts.len() {
        match paces.get(number) {
            Some(left) => {
                let pace = pace_with_left(alloc, &plans[number], left)?;
                let stopped = has_found_nothing(&harts[number]);
                seats.push(Seat { pace, stopped })?;
            }
            None => unreachable!(),
        }
    }
    Ok(seats)
}

impl<K: Keeper> Core<K> {
    /// A core made of such parts as [`Core::part`] gives, under the kernel of this project, with room for so many queue actions from then on.
    /// It has the parts' board and harts. Each hart is as far in its plan as its pace tells by what is left of it, and one past an empty take
    /// has found nothing. The bundle's bound of queue actions isn't asked for. Nothing after this takes memory. The keeper is kept as it is.
    /// `AllocError` is want of memory.
    pub fn over(
        alloc: Global,
        loaded: &Loaded,
        parts: Parts,
        keeper: K,
        actions: u64,
    ) -> Result<Core<K>, AllocError>
        requires within { IsWithinLimits loaded.now }
        requires parts { AreRightParts loaded.now parts.board.lists parts.harts }
        requires paces { ArePacesLeft loaded.now.plans parts.paces }
        ensures told { IfOk result (λ core. IsCoreOf (history_over loaded.now parts.board.lists parts.harts) core) }
        ensures paced { IfOk result (λ core. IsPacedCoreOf (paced_over loaded.now parts.board.lists parts.harts parts.paces) core) }
        ensures keeper { IfOk result (λ core. core.log.keeper ≡ keeper) }
        ensures actions { IfOk result (λ core. core.run.actions ≡ length parts.board.lists.order + actions) }
    {
        let Parts {
            mut board,
            harts,
            paces,
        } = parts;
        let made = board.order().len() as u64;
        if actions > u64::MAX - BEYOND - made {
            return Err(AllocError);
        }
        board.reserve(actions + BEYOND)?;
        let seats = seats_over(alloc, loaded.plans.as_slice(), &paces, harts.as_slice())?;
        Ok(Core {
            run: Run {
                board,
                harts: harts.into_vec(),
                kernel: Kernel::emitted(alloc)?,
                actions: made + actions,
            },
            tasks: loaded.tasks.len() as u32,
            log: Counted::new(keeper),
            seats,
            is_paced: true,
        })
    }
}
