//! The latches that an instruction writes.

ghost use Rattle.std.specs.Prelude.{◌≡◌, None};

use crate::flow::Flow;
use isa_model::RegNo;

/// A value, and where it comes from.
#[derive(Clone, Copy)]
pub struct Traced {
    /// The value.
    pub value: u32,
    /// Where it comes from.
    pub flow: Flow,
}

/// The write of a register; that of x0 is none.
#[derive(Clone, Copy)]
pub struct RegisterWrite {
    /// The register.
    pub rd: RegNo,
    /// Its new value.
    pub value: Traced,
}

/// What an instruction writes by a unit of its own.
#[derive(Clone, Copy)]
pub enum UnitWrite {
    /// It uses none.
    Nothing,
    /// The latch of the multiplier, by a value that is computed from rs1 and rs2.
    Multiplies(u32),
    /// The latch of the last load, by the memory word.
    Loads(u32),
    /// The latch of the last store, by the value of rs2, and then the memory word.
    Stores {
        /// The value of rs2.
        value: u32,
        /// An address in the memory word.
        at: u32,
        /// The new memory word.
        word: Traced,
    },
    /// The latch `mscratch`.
    Scratches(Traced),
}

/// The latches that an instruction writes, each at most once: first the operand ports, then the multiplier's latch, the result, the
/// latches and the word of a load or a store or `mscratch`, and last the register.
#[derive(Clone, Copy)]
pub struct Writes {
    /// The first operand port, by the value of rs1.
    pub port_a: Option<u32>,
    /// The second operand port, by the value of rs2.
    pub port_b: Option<u32>,
    /// The result of the arithmetic unit.
    pub res: Option<Traced>,
    /// What the multiplier, the memory or `mscratch` takes.
    pub unit: UnitWrite,
    /// The register.
    pub register: Option<RegisterWrite>,
}

impl Writes {
    /// No writes.
    #[inline(always)]
    pub(crate) fn none() -> Writes
        ensures writes { result ≡ record { port_a = None; port_b = None; res = None; unit = UnitWrite.Nothing; register = None } }
    {
        Writes {
            port_a: None,
            port_b: None,
            res: None,
            unit: UnitWrite::Nothing,
            register: None,
        }
    }
}
