//! What an instruction in machine mode finds beside its registers.

ghost use Rattle.std.specs.Prelude.{◌≡◌, Option};
ghost use Rattle.hart_model.specs.Context.{ContextState};
ghost use Rattle.hart_model.specs.MachineStep.{target_of as target_of_address, finds_nothing as finds_nothing_of, load_by_port as load_by_answer, store_by_port as store_by_answer, load_reach as load_reach_of, store_reach as store_reach_of, csr_reach as csr_reach_of, enters_nothing as enters_nothing_by, reach_of as reach_of_instr, operand_cells as operand_cells_by};
ghost use Rattle.hart_model.specs.HartState.{bases_of};
ghost use Rattle.hart_state.specs.PortView.{answer_of, IsPossibleAnswer};
ghost use Rattle.hart_state.specs.WriterView.{operand_cells_of};
ghost use Rattle.hart_state.specs.ReachView.{target_value, reach_value, IsTargetThere, IsPossibleReach};

use crate::hart::{Hart, blank};
use crate::ports::{Answer, Side, is_public, port_at, port_load, port_store};
use crate::registers::previous_mode;
use crate::writer::OperandCells;
use hart_model::{Cell, Mode, Place, Port, QueueCall};
use isa_model::{Instr, Latch, LoadKind, StoreKind};
use rv_effect::{address_of, first_register, second_register};

/// What an address is to machine mode.
#[derive(Clone, Copy)]
pub enum Target {
    AtPlace(Place),
    AtPort(Port),
    Nowhere,
}

/// What an instruction finds: the memory word, the old cell of the CSR and the side effect of a port; or the queue has to answer; or
/// the hart is wedged.
#[derive(Clone, Copy)]
pub enum Reach {
    Finds {
        word: Option<Cell>,
        old_csr: Cell,
        side: Side,
    },
    NeedsQueue {
        call: QueueCall,
        word: Option<Cell>,
    },
    Refused,
}

/// What an instruction finds that needs nothing of this.
fn finds_nothing() -> Reach
    ensures reach { reach_value result ≡ finds_nothing_of }
    ensures possible { (held : Option ContextState) → IsPossibleReach held result }
{
    Reach::Finds {
        word: None,
        old_csr: blank(),
        side: Side::Nothing,
    }
}

/// What a load finds at a port.
fn load_by_port(answer: Answer) -> Reach
    ensures reach { reach_value result ≡ load_by_answer (answer_of answer) }
    ensures possible { (held : Option ContextState) → IsPossibleAnswer held answer → IsPossibleReach held result }
{
    match answer {
        Answer::Passes(cell, side) => Reach::Finds {
            word: Some(cell),
            old_csr: blank(),
            side,
        },
        Answer::AsksQueue(call) => Reach::NeedsQueue { call, word: None },
        Answer::Refuses => Reach::Refused,
    }
}

/// What a store finds at a port.
fn store_by_port(stored: &Cell, answer: Answer) -> Reach
    ensures reach { reach_value result ≡ store_by_answer stored.now (answer_of answer) }
    ensures possible { (held : Option ContextState) → IsPossibleAnswer held answer → IsPossibleReach held result }
{
    match answer {
        Answer::Passes(cell, side) => Reach::Finds {
            word: Some(cell),
            old_csr: blank(),
            side,
        },
        Answer::AsksQueue(call) => Reach::NeedsQueue {
            call,
            word: Some(*stored),
        },
        Answer::Refuses => Reach::Refused,
    }
}

/// What a CSR instruction finds.
fn csr_reach(old: Option<Cell>) -> Reach
    ensures reach { reach_value result ≡ csr_reach_of old }
    ensures possible { (held : Option ContextState) → IsPossibleReach held result }
{
    match old {
        None => Reach::Refused,
        Some(old_csr) => Reach::Finds {
            word: None,
            old_csr,
            side: Side::Nothing,
        },
    }
}

impl Hart {
    /// What an address is to machine mode.
    fn target_at(&self, at: u32) -> Target
        ensures target { target_value result ≡ target_of_address self.now.held at }
        ensures there { IsTargetThere (bases_of self.now.held) result }
    {
        match self.place(false, &Latch::Mem(at / 4 * 4)) {
            Some(place) => Target::AtPlace(place),
            None => match port_at(at) {
                Some(port) => Target::AtPort(port),
                None => Target::Nowhere,
            },
        }
    }

    /// What a load finds.
    fn load_reach(&self, kind: LoadKind, target: &Target) -> Reach
        requires there { IsTargetThere (bases_of self.now.held) target.now }
        ensures reach { reach_value result ≡ load_reach_of self.now kind (target_value target.now) }
        ensures possible { IsPossibleReach self.now.held result }
    {
        match target {
            Target::AtPlace(place) => Reach::Finds {
                word: Some(self.cell_at(place)),
                old_csr: blank(),
                side: Side::Nothing,
            },
            Target::AtPort(port) => match kind {
                LoadKind::W => load_by_port(port_load(*port, &self.held)),
                _ => Reach::Refused,
            },
            Target::Nowhere => Reach::Refused,
        }
    }

    /// What a store finds.
    fn store_reach(&self, kind: StoreKind, stored: &Cell, target: &Target) -> Reach
        requires there { IsTargetThere (bases_of self.now.held) target.now }
        ensures reach { reach_value result ≡ store_reach_of self.now kind stored.now (target_value target.now) }
        ensures possible { IsPossibleReach self.now.held result }
    {
        match target {
            Target::AtPlace(place) => Reach::Finds {
                word: Some(self.cell_at(place)),
                old_csr: blank(),
                side: Side::Nothing,
            },
            Target::AtPort(port) => match kind {
                StoreKind::W => store_by_port(stored, port_store(*port, stored, &self.held)),
                _ => Reach::Refused,
            },
            Target::Nowhere => Reach::Refused,
        }
    }

    /// Whether MRET would enter user mode while nothing is held.
    fn enters_nothing(&self) -> bool
        ensures test { result ≡ enters_nothing_by self.now.csrs.previous self.now.held }
    {
        match previous_mode(&self.csrs) {
            Mode::User => self.held.is_none(),
            Mode::Machine => false,
        }
    }

    /// What an instruction finds beside its registers.
    pub(crate) fn reach_of(&self, instr: &Instr) -> Reach
        ensures reach { reach_value result ≡ reach_of_instr self.now instr.now }
        ensures possible { IsPossibleReach self.now.held result }
    {
        match instr {
            Instr::Load { kind, rs1, imm, .. } => {
                let at = address_of(self.register(*rs1).value, *imm);
                self.load_reach(*kind, &self.target_at(at))
            }
            Instr::Store {
                kind,
                rs2,
                rs1,
                imm,
            } => {
                let at = address_of(self.register(*rs1).value, *imm);
                let stored = self.register(*rs2);
                self.store_reach(*kind, &stored, &self.target_at(at))
            }
            Instr::Csr { csr, .. } => csr_reach(self.csrs.read(*csr)),
            Instr::CsrImm { csr, .. } => csr_reach(self.csrs.read(*csr)),
            Instr::Jalr { rs1, .. } => {
                if is_public(&self.register(*rs1).tag) {
                    finds_nothing()
                } else {
                    Reach::Refused
                }
            }
            Instr::Mret => {
                if self.enters_nothing() {
                    Reach::Refused
                } else {
                    finds_nothing()
                }
            }
            _ => finds_nothing(),
        }
    }

    /// The cells of the operands of an instruction. It is inlined, so that they are put where they are used.
    #[inline(always)]
    pub(crate) fn operand_cells(
        &self,
        instr: &Instr,
        word: Option<Cell>,
        old_csr: Cell,
    ) -> OperandCells
        ensures cells { operand_cells_of result ≡ operand_cells_by self.now instr.now word old_csr }
    {
        OperandCells {
            rs1: self.register(first_register(instr)),
            rs2: self.register(second_register(instr)),
            word,
            old_csr,
        }
    }
}
