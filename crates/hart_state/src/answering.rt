//! The answers to queue actions.

ghost use Rattle.std.specs.Prelude.{◌≡◌, ◌≤◌, ◌+◌, List, ◌++◌, ◌%◌, Some, None, IsSome, length};
ghost use Rattle.isa_model.specs.Encoding.{IsInstr};
ghost use Rattle.hart_model.specs.declared.probe.Probe.{Probe as LogEntry};
ghost use Rattle.hart_model.specs.HartStep.{hart_step, loaded_writes, take_cell as take_cell_of};
ghost use Rattle.hart_model.specs.MachineStep.{load_rd, machine_instr_step, machine_step};
ghost use Rattle.hart_model.specs.Writes.{after_writes};
ghost use Rattle.hart_state.specs.Asked.{HasAsked, AsksTake, AsksGive, after_take, after_give};

use crate::hart::{Hart, blank};
use crate::machine::kernel_word;
use crate::ports::public;
use crate::reach::Reach;
use crate::writer::{OperandCells, Writer};
use context_slot::Context;
use hart_model::{Cell, Mode, Place};
use isa_model::{Instr, RegNo};
use probe_log::Keeper;
use rv_decode::decode;
use rv_effect::{Effect, effect_of, next_address, zero_register};

/// What an instruction has begun with that the queue has to answer: its operands and its effect until then, the register that a load
/// goes to, and where it goes on.
#[derive(Drop)]
pub struct Asked {
    pub cells: OperandCells,
    pub effect: Effect,
    pub rd: RegNo,
    pub next: u32,
}

/// The register that a load goes to, and x0 for other forms.
fn load_register(instr: &Instr) -> RegNo
    ensures number { result ≡ load_rd instr.now }
{
    match instr {
        Instr::Load { rd, .. } => *rd,
        _ => zero_register(),
    }
}

/// What the load of a take gives.
fn take_cell(got: &Option<Context>) -> Cell
    ensures cell { result ≡ take_cell_of got.now }
{
    match got {
        None => public(0),
        Some(context) => public(context.slot_address()),
    }
}

impl Hart {
    /// What an instruction asks of the queue, if it does.
    fn asked_by_instr(&self, instr: &Instr) -> Option<Asked>
        requires valid { IsInstr instr.now }
        ensures asked { HasAsked self.now (machine_instr_step self.now instr.now) result }
    {
        match self.reach_of(instr) {
            Reach::NeedsQueue { call: _, word } => {
                let cells = self.operand_cells(instr, word, blank());
                let effect = effect_of(instr, self.pc, &cells.values());
                Some(Asked {
                    cells,
                    effect,
                    rd: load_register(instr),
                    next: next_address(self.pc),
                })
            }
            Reach::Finds { .. } => None,
            Reach::Refused => None,
        }
    }

    /// What the kernel's instruction at the pc asks of the queue, if it does.
    #[tactic(auto, unfolding(hart_model::specs::MachineStep::machine_step))]
    fn asked_by_kernel(&self, code: &[u32]) -> Option<Asked>
        ensures asked { HasAsked self.now (machine_step code.now self.now) result }
    {
        match kernel_word(code, self.pc) {
            None => None,
            Some(word) => match decode(word) {
                None => None,
                Some(instr) => self.asked_by_instr(&instr),
            },
        }
    }

    /// What the step asks of the queue, if it does. No step in user mode does.
    fn asked(&self, code: &[u32]) -> Option<Asked>
        ensures asked { HasAsked self.now (hart_step code.now self.now) result }
    {
        match self.csrs.mode() {
            Mode::User => None,
            Mode::Machine => self.asked_by_kernel(code),
        }
    }

    /// The writes of a loaded word: the latch of the last load, and the register, unless it is x0.
    fn write_loaded<K: Keeper>(&mut self, rd: RegNo, cell: &Cell, keeper: &mut K)
        requires room { 2 ≤ K.room_of keeper.old }
        ensures hart { self.new ≡ (after_writes (loaded_writes rd cell.now) self.old).hart }
        ensures log { (log : List LogEntry) → K.stands keeper.old log → K.stands keeper.new (log ++ (after_writes (loaded_writes rd cell.now) self.old).probes) }
        ensures room { K.room_of keeper.new + length (after_writes (loaded_writes rd cell.now) self.old).probes ≡ K.room_of keeper.old }
    {
        self.write(&Place::Load, cell, keeper);
        if rd.num() != 0 {
            self.write(&Place::Reg(rd), cell, keeper);
        }
    }

    /// The answer to a take that the step asks for: what was got is held, and the load gives the address of its slot, or 0 where nothing
    /// was got. The writes are those of the load. It takes the words of the kernel's code, as `step` does.
    pub fn answer_take<K: Keeper>(&mut self, code: &[u32], got: Option<Context>, keeper: &mut K)
        requires asks { AsksTake (hart_step code.now self.old) }
        requires room { 6 ≤ K.room_of keeper.old }
        ensures hart { self.new ≡ (after_take (hart_step code.now self.old) got self.old).hart }
        ensures log { (log : List LogEntry) → K.stands keeper.old log →
            K.stands keeper.new (log ++ (after_take (hart_step code.now self.old) got self.old).probes) }
        ensures room { K.room_of keeper.new + length (after_take (hart_step code.now self.old) got self.old).probes ≡ K.room_of keeper.old }
    {
        match self.asked(code) {
            None => unreachable!(),
            Some(asked) => {
                let cell = take_cell(&got);
                let writer = Writer::Machine(asked.cells);
                self.write_all(&writer, &asked.effect.writes, keeper);
                self.write_loaded(asked.rd, &cell, keeper);
                self.held = got;
                self.pc = asked.next;
            }
        }
    }

    /// The answer to a give that the step asks for: what was held comes out, and nothing is held. The writes are those of the store. It
    /// takes the words of the kernel's code, as `step` does.
    pub fn give<K: Keeper>(&mut self, code: &[u32], keeper: &mut K) -> Context
        requires asks { AsksGive (hart_step code.now self.old) }
        requires room { 6 ≤ K.room_of keeper.old }
        ensures given { self.old.held ≡ Some result }
        ensures hart { self.new ≡ (after_give (hart_step code.now self.old) self.old).hart }
        ensures log { (log : List LogEntry) → K.stands keeper.old log →
            K.stands keeper.new (log ++ (after_give (hart_step code.now self.old) self.old).probes) }
        ensures room { K.room_of keeper.new + length (after_give (hart_step code.now self.old) self.old).probes ≡ K.room_of keeper.old }
    {
        match self.asked(code) {
            None => unreachable!(),
            Some(asked) => {
                let writer = Writer::Machine(asked.cells);
                self.write_all(&writer, &asked.effect.writes, keeper);
                self.let_go(asked.next)
            }
        }
    }

    /// What is held comes out, and the hart goes on.
    fn let_go(&mut self, next: u32) -> Context
        requires aligned { next % 4 ≡ 0 }
        requires holds { IsSome self.old.held }
        ensures given { self.old.held ≡ Some result }
        ensures hart { self.new ≡ record self.old { pc = next; held = None } }
    {
        self.pc = next;
        match self.held.take() {
            Some(context) => context,
            None => unreachable!(),
        }
    }
}
