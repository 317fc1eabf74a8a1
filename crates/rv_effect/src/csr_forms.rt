//! The effect of CSR instructions, and of each instruction by its form.

ghost use Rattle.std.specs.Prelude.{◌≡◌, ◌%◌, ◌==◌, [], ◌∷◌, ◌&&◌, not, Some, None, if◌then◌else◌};
ghost use Rattle.isa_model.specs.declared.instr.Instr.{Instr};
ghost use Rattle.isa_model.specs.declared.latch.Latch.TheVariants.{PortA, Res, Scr};
ghost use Rattle.isa_model.specs.Encoding.{IsInstr};
ghost use Rattle.isa_model.specs.Arithmetic.{csr_result as csr_result_of};
ghost use Rattle.isa_model.specs.Effect.{Constant, Moved, Rs1, to, csr_effect as effect_of_csr, csr_flow as csr_flow_of, is_csr_written as is_csr_written_by, is_mscratch as is_mscratch_of, effect_of as effect_of_instr, GoesAligned};
ghost use Rattle.rv_effect.specs.View.{flow_of, next_of, optional_csr_write_of, operands_of, port_write, before_res, after_res, res_write};
ghost use Rattle.rv_effect.specs.EffectView.{effect_value};

use crate::effect::{CsrWrite, Effect, Next, Operands};
use crate::flow::{Flow, Operand};
use crate::forms::{
    add_upper_to_pc, branch, jump_by, jump_indirect, load, load_upper, next_address, no_effect,
    operate, operate_immediate, store,
};
use crate::writes::{RegisterWrite, Traced, UnitWrite, Writes};
use isa_model::{CsrOp, Instr, RegNo};

const MSCRATCH: u16 = 0x340;

/// What a CSR instruction makes of the old value and its operand.
fn csr_result(op: CsrOp, old: u32, operand: u32) -> u32
    ensures value { result ≡ csr_result_of op old operand }
{
    match op {
        CsrOp::Rw => operand,
        CsrOp::Rs => old | operand,
        CsrOp::Rc => old & !operand,
    }
}

/// Whether a CSR instruction writes, by the number of its register or its immediate.
fn is_csr_written(op: CsrOp, number: u32) -> bool
    ensures test { result ≡ is_csr_written_by op number }
{
    match op {
        CsrOp::Rw => true,
        _ => number != 0,
    }
}

/// Where the new value comes from that a register is an operand of.
fn register_flow(op: CsrOp) -> Flow
    ensures flow { flow_of result ≡ csr_flow_of op (Rs1 ∷ []) (Moved Rs1) }
{
    match op {
        CsrOp::Rw => Flow::Moved(Operand::Rs1),
        _ => Flow::Combined(Operand::OldCsr, Operand::Rs1),
    }
}

/// Where the new value comes from that an immediate is an operand of.
fn immediate_flow(op: CsrOp) -> Flow
    ensures flow { flow_of result ≡ csr_flow_of op [] Constant }
{
    match op {
        CsrOp::Rw => Flow::Constant,
        _ => Flow::Computed(Operand::OldCsr),
    }
}

/// The new value of a CSR, with where it comes from, if it is written.
#[derive(Clone, Copy)]
struct Change {
    csr: u16,
    is_written: bool,
    new: Traced,
}

/// Whether a CSR is the latch `mscratch`.
fn is_mscratch(csr: u16) -> bool
    ensures test { result ≡ is_mscratch_of csr }
{
    csr == MSCRATCH
}

/// The write of a CSR other than `mscratch`, if it is written.
fn other_write(change: &Change) -> Option<CsrWrite>
    ensures write { optional_csr_write_of result ≡ (if change.now.is_written && not (is_mscratch_of change.now.csr) then Some (record { csr = change.now.csr; value = change.now.new.value; flow = flow_of change.now.new.flow }) else None) }
{
    if change.is_written && !is_mscratch(change.csr) {
        Some(CsrWrite {
            csr: change.csr,
            value: change.new.value,
            flow: change.new.flow,
        })
    } else {
        None
    }
}

/// The write of `mscratch`, if it is written.
fn scratch_write(change: &Change) -> UnitWrite
    ensures before { before_res result ≡ [] }
    ensures after { after_res result ≡ (if change.now.is_written && is_mscratch_of change.now.csr then to Scr change.now.new.value (flow_of change.now.new.flow) else []) }
{
    if change.is_written && is_mscratch(change.csr) {
        UnitWrite::Scratches(change.new)
    } else {
        UnitWrite::Nothing
    }
}

/// The write of the old value into the result, unless rd is x0.
fn old_result(rd: RegNo, old: Traced) -> Option<Traced>
    ensures write { res_write result ≡ (if rd == 0 then [] else to Res old.value (flow_of old.flow)) }
{
    if rd.num() == 0 { None } else { Some(old) }
}

/// A CSR instruction after the write of the first port: the result and rd take the old value.
fn change_csr(port_a: Option<u32>, rd: RegNo, old: u32, change: &Change, pc: u32) -> Effect
    ensures effect { effect_value result ≡ effect_of_csr (port_write PortA (Moved Rs1) port_a) rd change.now.csr pc old change.now.is_written change.now.new.value (flow_of change.now.new.flow) }
{
    let old = Traced {
        value: old,
        flow: Flow::Moved(Operand::OldCsr),
    };
    let writes = Writes {
        port_a,
        port_b: None,
        res: old_result(rd, old),
        unit: scratch_write(change),
        register: Some(RegisterWrite { rd, value: old }),
    };
    Effect {
        writes,
        csr: other_write(change),
        next: Next::Goes(next_address(pc)),
    }
}

/// A CSR instruction on a register.
fn change_by_register(op: CsrOp, rd: RegNo, rs1: RegNo, csr: u16, pc: u32, o: &Operands) -> Effect
    ensures effect { effect_value result ≡ effect_of_instr (Instr.Csr op rd rs1 csr) pc (operands_of o.now) }
{
    let change = Change {
        csr,
        is_written: is_csr_written(op, u32::from(rs1.num())),
        new: Traced {
            value: csr_result(op, o.old_csr, o.rs1),
            flow: register_flow(op),
        },
    };
    change_csr(Some(o.rs1), rd, o.old_csr, &change, pc)
}

/// A CSR instruction on an immediate.
fn change_by_immediate(op: CsrOp, rd: RegNo, uimm: u8, csr: u16, pc: u32, o: &Operands) -> Effect
    ensures effect { effect_value result ≡ effect_of_instr (Instr.CsrImm op rd uimm csr) pc (operands_of o.now) }
{
    let operand = u32::from(uimm);
    let change = Change {
        csr,
        is_written: is_csr_written(op, operand),
        new: Traced {
            value: csr_result(op, o.old_csr, operand),
            flow: immediate_flow(op),
        },
    };
    change_csr(None, rd, o.old_csr, &change, pc)
}

/// What an instruction at `pc` does by the values of its operands: the latches that it writes, in order, the CSR that it writes, and
/// what follows.
pub fn effect_anywhere(instr: &Instr, pc: u32, o: &Operands) -> Effect
    requires valid { IsInstr instr.now }
    ensures effect { effect_value result ≡ effect_of_instr instr.now pc (operands_of o.now) }
{
    match instr {
        Instr::Lui { rd, imm20 } => load_upper(*rd, *imm20, pc, o),
        Instr::Auipc { rd, imm20 } => add_upper_to_pc(*rd, *imm20, pc, o),
        Instr::Jal { rd, off } => jump_by(*rd, *off, pc, o),
        Instr::Jalr { rd, rs1, imm } => jump_indirect(*rd, *rs1, *imm, pc, o),
        Instr::Branch { op, rs1, rs2, off } => branch(*op, *rs1, *rs2, *off, pc, o),
        Instr::Load { kind, rd, rs1, imm } => load(*kind, *rd, *rs1, *imm, pc, o),
        Instr::Store {
            kind,
            rs2,
            rs1,
            imm,
        } => store(*kind, *rs2, *rs1, *imm, pc, o),
        Instr::AluImm { op, rd, rs1, imm } => operate_immediate(*op, *rd, *rs1, *imm, pc, o),
        Instr::AluReg { op, rd, rs1, rs2 } => operate(*op, *rd, *rs1, *rs2, pc, o),
        Instr::Fence { word: _ } => no_effect(Next::Goes(next_address(pc))),
        Instr::Ecall => no_effect(Next::Calls),
        Instr::Ebreak => no_effect(Next::Raises(3)),
        Instr::Mret => no_effect(Next::Returns),
        Instr::Csr { op, rd, rs1, csr } => change_by_register(*op, *rd, *rs1, *csr, pc, o),
        Instr::CsrImm { op, rd, uimm, csr } => change_by_immediate(*op, *rd, *uimm, *csr, pc, o),
    }
}

/// What an instruction does by the values of its operands at a `pc` that is a multiple of 4: it goes on at such an address.
pub fn effect_of(instr: &Instr, pc: u32, o: &Operands) -> Effect
    requires valid { IsInstr instr.now }
    requires aligned { pc % 4 ≡ 0 }
    ensures effect { effect_value result ≡ effect_of_instr instr.now pc (operands_of o.now) }
    ensures aligned { GoesAligned (next_of result.next) }
{
    effect_anywhere(instr, pc, o)
}
