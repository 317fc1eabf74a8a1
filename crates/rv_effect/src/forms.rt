//! The effect of each form of instruction: the latches that it writes, in order, and what follows. They are inlined: where a
//! machine takes one form, the compiler then knows which writes there are, and makes no struct of them.

ghost use Rattle.std.specs.Prelude.{◌≡◌, ◌+◌, ◌%◌, ◌^◌, ◌<◌, [], ◌∷◌, ◌++◌, Some, None};
ghost use Rattle.isa_model.specs.declared.instr.Instr.{Instr};
ghost use Rattle.isa_model.specs.declared.latch.Latch.TheVariants.{PortA, PortB, Res};
ghost use Rattle.isa_model.specs.Bits.{low_word, two_complement};
ghost use Rattle.isa_model.specs.Arithmetic.{load_size, store_size};
ghost use Rattle.isa_model.specs.Effect.{Constant, Moved, Mixed, Rs1, Rs2, does, to, multiplier, port_a, ports, result as result_writes, jump, load_word, store_word, loaded_flow as loaded_flow_of, stored_flow as stored_flow_of, address, effect_of};
ghost use Rattle.rv_effect.specs.View.{flow_of, next_of, operands_of, port_write, before_res, after_res, writes_of};
ghost use Rattle.rv_effect.specs.EffectView.{effect_value};

use crate::effect::{Effect, Next, Operands};
use crate::flow::{Flow, Operand};
use crate::operands::{address_of, immediate_bits};
use crate::writes::{RegisterWrite, Traced, UnitWrite, Writes};
use isa_model::{Alu, Cmp, LoadKind, RegNo, StoreKind};
use rv_exec::{alu, extract, is_of_multiplier, load_aligned, merge, store_aligned, taken};

/// Writes of latches alone, and what follows.
#[inline(always)]
fn latch_effect(writes: Writes, next: Next) -> Effect
    ensures effect { effect_value result ≡ does (writes_of writes) (next_of next) }
{
    Effect {
        writes,
        csr: None,
        next,
    }
}

/// No writes, and what follows.
pub fn no_effect(next: Next) -> Effect
    ensures effect { effect_value result ≡ does [] (next_of next) }
{
    latch_effect(Writes::none(), next)
}

/// The address of the instruction after the one at `pc`.
pub fn next_address(pc: u32) -> u32
    ensures address { result ≡ low_word (pc + 4) }
{
    pc.wrapping_add(4)
}

/// The target of a jump or a branch by an offset.
fn target_of(pc: u32, offset: i32) -> u32
    ensures target { result ≡ low_word (pc + two_complement 32 offset) }
{
    pc.wrapping_add(immediate_bits(offset))
}

/// A value for the result and rd, after those for the ports and by a unit, and the next instruction.
#[inline(always)]
fn give_result(
    port_a: Option<u32>,
    port_b: Option<u32>,
    unit: UnitWrite,
    rd: RegNo,
    value: Traced,
    pc: u32,
) -> Effect
    requires unit { after_res unit ≡ [] }
    ensures effect { effect_value result ≡ does (port_write PortA (Moved Rs1) port_a ++ (port_write PortB (Moved Rs2) port_b
        ++ (before_res unit ++ result_writes rd value.value (flow_of value.flow)))) (next_of (Next.Goes (low_word (pc + 4)))) }
{
    let writes = Writes {
        port_a,
        port_b,
        res: Some(value),
        unit,
        register: Some(RegisterWrite { rd, value }),
    };
    latch_effect(writes, Next::Goes(next_address(pc)))
}

/// A value that comes from no operand.
fn constant(value: u32) -> Traced
    ensures value { result ≡ record { value = value; flow = Flow.Constant } }
{
    Traced {
        value,
        flow: Flow::Constant,
    }
}

/// LUI: an upper immediate, in units of 4096.
#[inline(always)]
pub fn load_upper(rd: RegNo, imm20: u32, pc: u32, o: &Operands) -> Effect
    requires range { imm20 < 2 ^ 20 }
    ensures effect { effect_value result ≡ effect_of (Instr.Lui rd imm20) pc (operands_of o.now) }
{
    let value = constant(0x1000 * imm20);
    give_result(None, None, UnitWrite::Nothing, rd, value, pc)
}

/// AUIPC: an upper immediate, in units of 4096, added to the pc.
#[inline(always)]
pub fn add_upper_to_pc(rd: RegNo, imm20: u32, pc: u32, o: &Operands) -> Effect
    requires range { imm20 < 2 ^ 20 }
    ensures effect { effect_value result ≡ effect_of (Instr.Auipc rd imm20) pc (operands_of o.now) }
{
    let value = constant(pc.wrapping_add(0x1000 * imm20));
    give_result(None, None, UnitWrite::Nothing, rd, value, pc)
}

/// An operation on a register and an immediate.
#[inline(always)]
pub fn operate_immediate(op: Alu, rd: RegNo, rs1: RegNo, imm: i32, pc: u32, o: &Operands) -> Effect
    ensures effect { effect_value result ≡ effect_of (Instr.AluImm op rd rs1 imm) pc (operands_of o.now) }
{
    let value = Traced {
        value: alu(op, o.rs1, immediate_bits(imm)),
        flow: Flow::Computed(Operand::Rs1),
    };
    give_result(Some(o.rs1), None, UnitWrite::Nothing, rd, value, pc)
}

/// What the multiplier writes of the value of an operation.
#[inline(always)]
fn multiplied(op: Alu, value: u32) -> UnitWrite
    ensures before { before_res result ≡ multiplier op value (Mixed (Rs1 ∷ Rs2 ∷ [])) }
    ensures after { after_res result ≡ [] }
{
    if is_of_multiplier(op) {
        UnitWrite::Multiplies(value)
    } else {
        UnitWrite::Nothing
    }
}

/// An operation on two registers.
#[inline(always)]
pub fn operate(op: Alu, rd: RegNo, rs1: RegNo, rs2: RegNo, pc: u32, o: &Operands) -> Effect
    ensures effect { effect_value result ≡ effect_of (Instr.AluReg op rd rs1 rs2) pc (operands_of o.now) }
{
    let value = Traced {
        value: alu(op, o.rs1, o.rs2),
        flow: Flow::Combined(Operand::Rs1, Operand::Rs2),
    };
    let unit = multiplied(op, value.value);
    give_result(Some(o.rs1), Some(o.rs2), unit, rd, value, pc)
}

/// A jump after the write of the first port, with the address after it as the result and in rd; an exception where its target is no
/// multiple of 4.
#[inline(always)]
fn jump_to(port_a: Option<u32>, rd: RegNo, link: u32, target: u32) -> Effect
    ensures effect { effect_value result ≡ jump (port_write PortA (Moved Rs1) port_a) (result_writes rd link Constant) target }
{
    let early_writes = Writes {
        port_a,
        ..Writes::none()
    };
    if target % 4 != 0 {
        return latch_effect(early_writes, Next::Raises(0));
    }
    let value = constant(link);
    let writes = Writes {
        res: Some(value),
        register: Some(RegisterWrite { rd, value }),
        ..early_writes
    };
    latch_effect(writes, Next::Goes(target))
}

/// A jump by an offset.
#[inline(always)]
pub fn jump_by(rd: RegNo, off: i32, pc: u32, o: &Operands) -> Effect
    ensures effect { effect_value result ≡ effect_of (Instr.Jal rd off) pc (operands_of o.now) }
{
    jump_to(None, rd, next_address(pc), target_of(pc, off))
}

/// A jump to an address in a register plus an offset, without its lowest bit.
#[inline(always)]
pub fn jump_indirect(rd: RegNo, rs1: RegNo, imm: i32, pc: u32, o: &Operands) -> Effect
    ensures effect { effect_value result ≡ effect_of (Instr.Jalr rd rs1 imm) pc (operands_of o.now) }
{
    let target = address_of(o.rs1, imm) / 2 * 2;
    jump_to(Some(o.rs1), rd, next_address(pc), target)
}

/// The writes of both operand ports.
#[inline(always)]
fn both_ports(o: &Operands) -> Writes
    ensures writes { result ≡ record { port_a = Some o.now.rs1; port_b = Some o.now.rs2; res = None; unit = UnitWrite.Nothing; register = None } }
{
    Writes {
        port_a: Some(o.rs1),
        port_b: Some(o.rs2),
        ..Writes::none()
    }
}

/// A taken branch; an exception where its target is no multiple of 4.
#[inline(always)]
fn branch_to(target: u32, o: &Operands) -> Effect
    ensures effect { effect_value result ≡ jump (ports (operands_of o.now)) [] target }
{
    if target % 4 != 0 {
        latch_effect(both_ports(o), Next::Raises(0))
    } else {
        latch_effect(both_ports(o), Next::Goes(target))
    }
}

/// A branch by an offset where the comparison holds.
#[inline(always)]
pub fn branch(op: Cmp, rs1: RegNo, rs2: RegNo, off: i32, pc: u32, o: &Operands) -> Effect
    ensures effect { effect_value result ≡ effect_of (Instr.Branch op rs1 rs2 off) pc (operands_of o.now) }
{
    if taken(op, o.rs1, o.rs2) {
        branch_to(target_of(pc, off), o)
    } else {
        latch_effect(both_ports(o), Next::Goes(next_address(pc)))
    }
}

/// Where a loaded value comes from.
fn loaded_flow(kind: LoadKind) -> Flow
    ensures flow { flow_of result ≡ loaded_flow_of kind }
{
    match kind {
        LoadKind::W => Flow::Moved(Operand::Word),
        _ => Flow::Computed(Operand::Word),
    }
}

/// Where a stored word comes from.
fn stored_flow(kind: StoreKind) -> Flow
    ensures flow { flow_of result ≡ stored_flow_of kind }
{
    match kind {
        StoreKind::W => Flow::Moved(Operand::Rs2),
        _ => Flow::Combined(Operand::Word, Operand::Rs2),
    }
}

/// The write of an address into the result.
fn address_result(at: u32) -> Option<Traced>
    ensures value { result ≡ Some (record { value = at; flow = Flow.Computed Operand.Rs1 }) }
{
    Some(Traced {
        value: at,
        flow: Flow::Computed(Operand::Rs1),
    })
}

/// The writes that a load begins with: the first port and its address.
#[inline(always)]
fn load_early_writes(at: u32, o: &Operands) -> Writes
    ensures writes { result ≡ record { port_a = Some o.now.rs1; port_b = None; res = Some (record { value = at; flow = Flow.Computed Operand.Rs1 }); unit = UnitWrite.Nothing; register = None } }
{
    Writes {
        port_a: Some(o.rs1),
        res: address_result(at),
        ..Writes::none()
    }
}

/// What a load does with the word that it reached.
#[inline(always)]
fn give_loaded(kind: LoadKind, rd: RegNo, at: u32, pc: u32, o: &Operands) -> Effect
    requires aligned { at % load_size kind ≡ 0 }
    ensures effect { effect_value result ≡ load_word kind rd pc at (port_a (operands_of o.now) ++ to Res at (Mixed (Rs1 ∷ []))) o.now.word }
{
    match o.word {
        None => latch_effect(load_early_writes(at, o), Next::Raises(5)),
        Some(word) => {
            let value = Traced {
                value: extract(kind, word, at),
                flow: loaded_flow(kind),
            };
            let writes = Writes {
                unit: UnitWrite::Loads(word),
                register: Some(RegisterWrite { rd, value }),
                ..load_early_writes(at, o)
            };
            latch_effect(writes, Next::Goes(next_address(pc)))
        }
    }
}

/// A load from an address in a register plus an offset.
#[inline(always)]
pub fn load(kind: LoadKind, rd: RegNo, rs1: RegNo, imm: i32, pc: u32, o: &Operands) -> Effect
    ensures effect { effect_value result ≡ effect_of (Instr.Load kind rd rs1 imm) pc (operands_of o.now) }
{
    let at = address_of(o.rs1, imm);
    if load_aligned(kind, at) {
        give_loaded(kind, rd, at, pc, o)
    } else {
        latch_effect(load_early_writes(at, o), Next::Raises(4))
    }
}

/// The writes that a store begins with: both ports and its address.
#[inline(always)]
fn store_early_writes(at: u32, o: &Operands) -> Writes
    ensures writes { result ≡ record { port_a = Some o.now.rs1; port_b = Some o.now.rs2; res = Some (record { value = at; flow = Flow.Computed Operand.Rs1 }); unit = UnitWrite.Nothing; register = None } }
{
    Writes {
        res: address_result(at),
        ..both_ports(o)
    }
}

/// What a store does with the word that it reached.
#[inline(always)]
fn put_stored(kind: StoreKind, at: u32, pc: u32, o: &Operands) -> Effect
    requires aligned { at % store_size kind ≡ 0 }
    ensures effect { effect_value result ≡ store_word kind o.now.rs2 pc at (ports (operands_of o.now) ++ to Res at (Mixed (Rs1 ∷ []))) o.now.word }
{
    match o.word {
        None => latch_effect(store_early_writes(at, o), Next::Raises(7)),
        Some(word) => {
            let unit = UnitWrite::Stores {
                value: o.rs2,
                at,
                word: Traced {
                    value: merge(kind, word, at, o.rs2),
                    flow: stored_flow(kind),
                },
            };
            let writes = Writes {
                unit,
                ..store_early_writes(at, o)
            };
            latch_effect(writes, Next::Goes(next_address(pc)))
        }
    }
}

/// A store to an address in a register plus an offset.
#[inline(always)]
pub fn store(kind: StoreKind, rs2: RegNo, rs1: RegNo, imm: i32, pc: u32, o: &Operands) -> Effect
    ensures effect { effect_value result ≡ effect_of (Instr.Store kind rs2 rs1 imm) pc (operands_of o.now) }
{
    let at = address_of(o.rs1, imm);
    if store_aligned(kind, at) {
        put_stored(kind, at, pc, o)
    } else {
        latch_effect(store_early_writes(at, o), Next::Raises(6))
    }
}
