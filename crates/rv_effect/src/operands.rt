//! What an instruction takes: its registers, the sizes and the address of its access, and the words of a task that an address lies in.

ghost use Rattle.std.specs.Prelude.{◌≡◌};
ghost use Rattle.isa_model.specs.Bits.{two_complement};
ghost use Rattle.isa_model.specs.Arithmetic.{load_size as load_size_of, store_size as store_size_of};
ghost use Rattle.isa_model.specs.Effect.{address};
ghost use Rattle.isa_model.specs.Alone.{code_word_at, is_data_address as is_data_address_of, is_privileged as is_privileged_instr, rs1_of, rs2_of};

use isa_model::{Instr, LoadKind, RegNo, StoreKind, Task};

/// x0.
pub fn zero_register() -> RegNo
    ensures number { result ≡ 0 }
{
    match RegNo::new(0) {
        Some(register) => register,
        None => unreachable!(),
    }
}

/// The register rs1, and x0 for a form without it.
pub fn first_register(instr: &Instr) -> RegNo
    ensures number { result ≡ rs1_of instr.now }
{
    match instr {
        Instr::Jalr { rs1, .. } => *rs1,
        Instr::Branch { rs1, .. } => *rs1,
        Instr::Load { rs1, .. } => *rs1,
        Instr::Store { rs1, .. } => *rs1,
        Instr::AluImm { rs1, .. } => *rs1,
        Instr::AluReg { rs1, .. } => *rs1,
        Instr::Csr { rs1, .. } => *rs1,
        _ => zero_register(),
    }
}

/// The register rs2, and x0 for a form without it.
pub fn second_register(instr: &Instr) -> RegNo
    ensures number { result ≡ rs2_of instr.now }
{
    match instr {
        Instr::Branch { rs2, .. } => *rs2,
        Instr::Store { rs2, .. } => *rs2,
        Instr::AluReg { rs2, .. } => *rs2,
        _ => zero_register(),
    }
}

/// Whether an instruction is illegal in user mode.
pub fn is_privileged(instr: &Instr) -> bool
    ensures test { result ≡ is_privileged_instr instr.now }
{
    matches!(
        instr,
        Instr::Mret | Instr::Csr { .. } | Instr::CsrImm { .. }
    )
}

/// How many bytes a load moves.
pub fn load_size(kind: LoadKind) -> u32
    ensures size { result ≡ load_size_of kind }
{
    match kind {
        LoadKind::B | LoadKind::Bu => 1,
        LoadKind::H | LoadKind::Hu => 2,
        LoadKind::W => 4,
    }
}

/// How many bytes a store moves.
pub fn store_size(kind: StoreKind) -> u32
    ensures size { result ≡ store_size_of kind }
{
    match kind {
        StoreKind::B => 1,
        StoreKind::H => 2,
        StoreKind::W => 4,
    }
}

/// The code word that an address lies in.
pub fn code_word(task: &Task, at: u32) -> Option<u32>
    ensures word { result ≡ code_word_at task.now at }
{
    if at < task.code_at {
        return None;
    }
    let index = (at - task.code_at) / 4;
    task.code.as_slice().get(index as usize).copied()
}

/// Whether an address lies in the data.
pub fn is_data_address(task: &Task, at: u32) -> bool
    ensures test { result ≡ is_data_address_of task.now at }
{
    let end = u64::from(task.data_at) + 4 * u64::from(task.data_len);
    task.data_at <= at && u64::from(at) < end
}

/// The bits of an immediate, in two's complement.
pub fn immediate_bits(immediate: i32) -> u32
    ensures bits { result ≡ two_complement 32 immediate }
{
    immediate.cast_unsigned()
}

/// The address of a load, a store or an indirect jump.
pub fn address_of(base: u32, offset: i32) -> u32
    ensures address { result ≡ address base offset }
{
    base.wrapping_add(immediate_bits(offset))
}
