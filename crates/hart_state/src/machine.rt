//! A step in machine mode.

ghost use Rattle.std.specs.Prelude.{◌≡◌, ◌≤◌, ◌+◌, ◌%◌, List, ◌++◌, length, is_some, unwrap_or};
ghost use Rattle.isa_model.specs.Encoding.{IsInstr};
ghost use Rattle.hart_model.specs.declared.probe.Probe.{Probe as LogEntry};
ghost use Rattle.hart_model.specs.MachineStep.{kernel_word_at, csrs_after_effect, after_side, by_csrs, after_mret, by_next, machine_instr_step as instr_step_of, machine_step as machine_step_of};
ghost use Rattle.hart_model.specs.StepResult.{did_of, hart_after, probes_of};
ghost use Rattle.isa_model.specs.Effect.{GoesAligned};
ghost use Rattle.rv_effect.specs.View.{optional_csr_write_of, next_of};
ghost use Rattle.rv_effect.specs.EffectView.{effect_value};
ghost use Rattle.hart_state.specs.WriterView.{operand_cells_of};
ghost use Rattle.hart_state.specs.PortView.{side_of, IsPossible};

use crate::hart::Hart;
use crate::ports::Side;
use crate::reach::Reach;
use crate::writer::{OperandCells, Writer};
use hart_model::{Cell, Did};
use isa_model::Instr;
use probe_log::Keeper;
use rv_decode::decode;
use rv_effect::{CsrWrite, Effect, Next, effect_of};

/// Where the kernel's code stands.
const KERNEL_ADDRESS: u32 = 0x1000;

/// The kernel's word that an address lies in.
pub(crate) fn kernel_word(code: &[u32], at: u32) -> Option<u32>
    ensures word { result ≡ kernel_word_at code.now at }
{
    if at < KERNEL_ADDRESS {
        return None;
    }
    let index = (at - KERNEL_ADDRESS) / 4;
    code.get(index as usize).copied()
}

impl Hart {
    /// Writes the CSR of an effect, if it writes one; false, with nothing changed, where that is refused.
    fn write_csr(&mut self, cells: &OperandCells, write: &Option<CsrWrite>) -> bool
        ensures accepted { result ≡ is_some (csrs_after_effect self.old.csrs (operand_cells_of cells.now) (optional_csr_write_of write.now)) }
        ensures hart { self.new ≡ record self.old { csrs = unwrap_or (csrs_after_effect self.old.csrs (operand_cells_of cells.now) (optional_csr_write_of write.now)) self.old.csrs } }
    {
        match write {
            None => true,
            Some(write) => {
                let cell = Cell {
                    value: write.value,
                    tag: cells.flow_tag(write.flow),
                };
                self.csrs.write(write.csr, cell)
            }
        }
    }

    /// The side effect of a port.
    fn act(&mut self, side: Side)
        requires possible { IsPossible self.old.held side }
        ensures hart { self.new ≡ after_side (side_of side) self.old }
    {
        match side {
            Side::ClearsTimer => self.csrs.ack(),
            Side::Nothing => {}
            Side::Outputs(word) => match &mut self.held {
                Some(context) => context.push_output(word),
                None => {}
            },
            Side::AdvancesTape => match &mut self.held {
                Some(context) => context.advance_tape(),
                None => {}
            },
            Side::Ends(end) => match &mut self.held {
                Some(context) => context.set_end(end),
                None => {}
            },
        }
    }

    /// An instruction that goes on: the CSR, the writes, the side effect and the pc.
    fn go_on<K: Keeper>(
        &mut self,
        cells: &OperandCells,
        side: Side,
        effect: &Effect,
        pc: u32,
        keeper: &mut K,
    ) -> Did
        requires aligned { pc % 4 ≡ 0 }
        requires possible { IsPossible self.old.held side }
        requires room { 6 ≤ K.room_of keeper.old }
        ensures did { let o = operand_cells_of cells.now in let e = effect_value effect.now in
            result ≡ did_of (by_csrs self.old o (side_of side) e pc (csrs_after_effect self.old.csrs o e.csr)) }
        ensures hart { let o = operand_cells_of cells.now in let e = effect_value effect.now in
            self.new ≡ hart_after self.old (by_csrs self.old o (side_of side) e pc (csrs_after_effect self.old.csrs o e.csr)) }
        ensures log { let o = operand_cells_of cells.now in let e = effect_value effect.now in
            (log : List LogEntry) → K.stands keeper.old log →
            K.stands keeper.new (log ++ probes_of (by_csrs self.old o (side_of side) e pc (csrs_after_effect self.old.csrs o e.csr))) }
        ensures room { let o = operand_cells_of cells.now in let e = effect_value effect.now in
            K.room_of keeper.new + length (probes_of (by_csrs self.old o (side_of side) e pc (csrs_after_effect self.old.csrs o e.csr))) ≡ K.room_of keeper.old }
    {
        if !self.write_csr(cells, &effect.csr) {
            return Did::Wedged;
        }
        let writer = Writer::Machine(*cells);
        self.write_all(&writer, &effect.writes, keeper);
        self.act(side);
        self.pc = pc;
        Did::Ran
    }

    /// The return from a trap.
    fn return_from_trap(&mut self) -> Did
        ensures did { result ≡ Did.Ran }
        ensures hart { self.new ≡ hart_after self.old (after_mret self.old) }
    {
        self.pc = self.csrs.mret();
        Did::Ran
    }

    /// An effect in machine mode. Where it would raise an exception the hart is wedged.
    fn perform<K: Keeper>(
        &mut self,
        cells: &OperandCells,
        side: Side,
        effect: &Effect,
        keeper: &mut K,
    ) -> Did
        requires aligned { GoesAligned (next_of effect.now.next) }
        requires possible { IsPossible self.old.held side }
        requires room { 6 ≤ K.room_of keeper.old }
        ensures did { let o = operand_cells_of cells.now in let e = effect_value effect.now in
            result ≡ did_of (by_next self.old o (side_of side) e e.next) }
        ensures hart { let o = operand_cells_of cells.now in let e = effect_value effect.now in
            self.new ≡ hart_after self.old (by_next self.old o (side_of side) e e.next) }
        ensures log { let o = operand_cells_of cells.now in let e = effect_value effect.now in
            (log : List LogEntry) → K.stands keeper.old log → K.stands keeper.new (log ++ probes_of (by_next self.old o (side_of side) e e.next)) }
        ensures room { let o = operand_cells_of cells.now in let e = effect_value effect.now in
            K.room_of keeper.new + length (probes_of (by_next self.old o (side_of side) e e.next)) ≡ K.room_of keeper.old }
    {
        match effect.next {
            Next::Goes(pc) => self.go_on(cells, side, effect, pc, keeper),
            Next::Raises(_) => Did::Wedged,
            Next::Calls => Did::Wedged,
            Next::Returns => self.return_from_trap(),
        }
    }

    /// An instruction in machine mode.
    fn machine_instr_step<K: Keeper>(&mut self, instr: &Instr, keeper: &mut K) -> Did
        requires valid { IsInstr instr.now }
        requires room { 6 ≤ K.room_of keeper.old }
        ensures did { result ≡ did_of (instr_step_of self.old instr.now) }
        ensures hart { self.new ≡ hart_after self.old (instr_step_of self.old instr.now) }
        ensures log { (log : List LogEntry) → K.stands keeper.old log → K.stands keeper.new (log ++ probes_of (instr_step_of self.old instr.now)) }
        ensures room { K.room_of keeper.new + length (probes_of (instr_step_of self.old instr.now)) ≡ K.room_of keeper.old }
    {
        match self.reach_of(instr) {
            Reach::Refused => Did::Wedged,
            Reach::NeedsQueue { call, word: _ } => Did::Wants(call),
            Reach::Finds {
                word,
                old_csr,
                side,
            } => {
                let cells = self.operand_cells(instr, word, old_csr);
                let effect = effect_of(instr, self.pc, &cells.values());
                self.perform(&cells, side, &effect, keeper)
            }
        }
    }

    /// A step in machine mode: the instruction of the kernel's word at the pc.
    #[tactic(auto, unfolding(hart_model::specs::MachineStep::machine_step))]
    pub(crate) fn machine_step<K: Keeper>(&mut self, code: &[u32], keeper: &mut K) -> Did
        requires room { 6 ≤ K.room_of keeper.old }
        ensures did { result ≡ did_of (machine_step_of code.now self.old) }
        ensures hart { self.new ≡ hart_after self.old (machine_step_of code.now self.old) }
        ensures log { (log : List LogEntry) → K.stands keeper.old log → K.stands keeper.new (log ++ probes_of (machine_step_of code.now self.old)) }
        ensures room { K.room_of keeper.new + length (probes_of (machine_step_of code.now self.old)) ≡ K.room_of keeper.old }
    {
        match kernel_word(code, self.pc) {
            None => Did::Wedged,
            Some(word) => match decode(word) {
                None => Did::Wedged,
                Some(instr) => self.machine_instr_step(&instr, keeper),
            },
        }
    }
}
