//! When two latches are one, the order of latches, and their kinds.

ghost use Rattle.std.specs.Prelude.{◌≡◌, ◌<◌};
ghost use Rattle.isa_model.specs.LatchOrder.{same_latch, latch_rank, is_before};
ghost use Rattle.hart_model.specs.Probes.{kind_of_latch};

use isa_model::Latch;

/// Whether these are one latch.
pub(crate) fn is_same(a: &Latch, b: &Latch) -> bool
    ensures test { result ≡ same_latch a.now b.now }
{
    *a == *b
}

/// The place of a latch in the order.
fn rank(latch: Latch) -> u64
    ensures value { result ≡ latch_rank latch }
{
    match latch {
        Latch::Reg(register) => u64::from(register.num()),
        Latch::PortA => 32,
        Latch::PortB => 33,
        Latch::Res => 34,
        Latch::Load => 35,
        Latch::Store => 36,
        Latch::Scr => 37,
        Latch::Mul => 38,
        Latch::Mem(at) => 39 + u64::from(at),
    }
}

/// Whether a latch comes before another in the order of latches (this project's own): registers by number, port A, port B, the
/// result, the last load, the last store, the scratch CSR, the multiplier, memory by address.
pub fn latch_before(a: Latch, b: Latch) -> bool
    ensures order { result ≡ is_before a b }
{
    rank(a) < rank(b)
}

/// The kind of a latch, by which a tally counts (this project's own): 0 for a register, 1 and 2 for ports A and B, 3 for the result
/// and for the multiplier, 4 for the last load, 5 for the last store, 6 for the scratch CSR, 7 for memory.
pub fn latch_kind(latch: Latch) -> u32
    ensures kind { result ≡ kind_of_latch latch }
    ensures small { result < 8 }
{
    match latch {
        Latch::Reg(_) => 0,
        Latch::PortA => 1,
        Latch::PortB => 2,
        Latch::Res | Latch::Mul => 3,
        Latch::Load => 4,
        Latch::Store => 5,
        Latch::Scr => 6,
        Latch::Mem(_) => 7,
    }
}
