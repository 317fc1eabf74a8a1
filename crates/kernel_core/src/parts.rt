//! A core taken apart.

ghost use Rattle.std.specs.Prelude.{◌≡◌, ◌≢◌, ◌↔◌, ◌++◌, ◌∷◌, [], length, All, slice_get, option_map, is_ok, if◌then◌else◌, IsNone, IsTrue, IsErr, IfOk, IfErr};
ghost use Rattle.hart_model.specs.HartState.{HartState};
ghost use Rattle.core_invariant.specs.KernelStates.{emitted_parts};
ghost use Rattle.resume_laws.specs.Parts.{AreRightParts};
ghost use Rattle.kernel_core.specs.History.{History, IsCoreOf};
ghost use Rattle.kernel_core.specs.PacedHistory.{PacedHistory, IsPacedCoreOf};
ghost use Rattle.kernel_core.specs.Parts.{ArePartsOf, ArePacesLeft};

use crate::run::Run;
use crate::seat::Seat;
use crate::whole_core::Core;
use core_model::Items;
use hart_state::Hart;
use probe_log::Keeper;
use ready_queue::Board;
use std::alloc::{AllocError, Global};
use std::marker::Model;
use timer_plan::Pace;

/// The paces of harts in the order of their numbers, which contracts see as a list.
#[derive(Debug, Drop)]
pub struct Paces {
    seats: Vec<Seat>,
}

impl Model for Paces {
    ghost use Rattle.std.specs.Prelude.{List};
    ghost use Rattle.timer_plan.specs.Pace.{PaceState};
    ghost use Rattle.kernel_core.specs.Seats.{paces_of};

    ghost Value = { List PaceState };

    ghost view = { λ p. paces_of p.seats.items };
}

impl Paces {
    /// No paces.
    pub fn empty(alloc: Global) -> Paces
        ensures paces { result ≡ [] }
    {
        Paces {
            seats: Vec::new(alloc),
        }
    }

    /// Puts a pace at the end. `AllocError` is want of memory, and then nothing is changed.
    pub fn push(&mut self, pace: Pace) -> Result<(), AllocError>
        ensures paces { self.new ≡ (if is_ok result then self.old ++ pace ∷ [] else self.old) }
    {
        let seat = Seat {
            pace,
            stopped: false,
        };
        self.seats.push(seat)?;
        Ok(())
    }

    /// The pace of the hart of this number; None exactly where there is none.
    pub fn get(&self, hart: usize) -> Option<&Pace>
        ensures pace { option_map (λ pace. pace.now) result ≡ slice_get self.now hart }
    {
        match self.seats.get(hart) {
            Some(seat) => Some(&seat.pace),
            None => None,
        }
    }

    /// How many there are.
    pub fn len(&self) -> usize
        ensures length { result ≡ length self.now }
    {
        self.seats.len()
    }
}

/// A core with nothing out, taken apart.
#[derive(Debug, Drop)]
pub struct Parts {
    /// Its board, on which nothing is out.
    pub board: Board,
    /// Its harts in the order of their numbers, each of which rests.
    pub harts: Items<Hart>,
    /// The pace of each hart.
    pub paces: Paces,
}

/// Whether none of these harts holds a context.
fn hold_nothing(harts: &[Hart]) -> bool
    ensures test { IsTrue result ↔ All (λ (h : HartState). IsNone h.held) harts.now }
{
    harts.iter().all(|hart| hart.held().is_none())
}

impl Run {
    /// Whether nothing is out.
    fn has_nothing_out(&self) -> bool
        ensures test { IsTrue result ↔ (self.now.board.lists.out ≡ []) }
    {
        hold_nothing(self.harts.as_slice())
    }
}

impl<K: Keeper> Core<K> {
    /// Takes the core apart: its own board, harts and paces. Errors: the core as it was, exactly where a task is out. Under the kernel of this
    /// project each of its harts rests, and a core may be made of the parts again. Takes no memory.
    pub fn part(self) -> Result<Parts, Core<K>>
        ensures parts { IfOk result (ArePartsOf self) }
        ensures same { IfErr result (λ core. core ≡ self) }
        ensures exactly { IsErr result ↔ (self.run.board.lists.out ≢ []) }
        ensures right { (t : History) → t.kernel ≡ emitted_parts → IsCoreOf t self
            → IfOk result (λ parts. AreRightParts t.loaded parts.board.lists parts.harts) }
        ensures left { (t : PacedHistory) → IsPacedCoreOf t self → IfOk result (λ parts. ArePacesLeft t.history.loaded.plans parts.paces) }
    {
        if !self.run.has_nothing_out() {
            return Err(self);
        }
        let Core {
            run,
            tasks: _,
            log: _,
            seats,
            is_paced: _,
        } = self;
        let Run {
            board,
            harts,
            kernel: _,
            actions: _,
        } = run;
        Ok(Parts {
            board,
            harts: Items::new(harts),
            paces: Paces { seats },
        })
    }
}
