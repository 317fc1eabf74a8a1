//! The terms of the latches.

ghost use Rattle.std.specs.Prelude.{◌≡◌};
ghost use Rattle.isa_model.specs.declared.latch.Latch.{Latch};
ghost use Rattle.isa_model.specs.Effect.{Constant, to_reg, result as result_writes};
ghost use Rattle.isa_model.specs.Alone.{with_value, values_after};

use isa_model::RegNo;

/// For each latch, the place of the term that denotes its value.
#[derive(Drop)]
pub struct Latches {
    pub regs: [usize; 32],
    pub port_a: usize,
    pub port_b: usize,
    pub res: usize,
    pub load: usize,
    pub store: usize,
    pub mul: usize,
    /// The term of what is 0 always.
    pub none: usize,
}

impl Latches {
    ghost use Rattle.masked_run.specs.Places.{term_at};

    /// All latches have this term.
    pub(crate) fn new(term: usize) -> Latches
        ensures terms { (l : Latch) → term_at result l ≡ term }
    {
        Latches {
            regs: [term; 32],
            port_a: term,
            port_b: term,
            res: term,
            load: term,
            store: term,
            mul: term,
            none: term,
        }
    }

    /// The term of a register.
    pub(crate) fn reg(&self, number: RegNo) -> usize
        ensures term { result ≡ term_at self.now (Latch.Reg number) }
    {
        self.regs[number.num() as usize]
    }

    /// Writes the first operand port.
    pub(crate) fn write_port_a(&mut self, term: usize)
        ensures terms { (l : Latch) → term_at self.new l ≡ with_value Latch.PortA term (term_at self.old) l }
    {
        self.port_a = term;
    }

    /// Writes the second operand port.
    pub(crate) fn write_port_b(&mut self, term: usize)
        ensures terms { (l : Latch) → term_at self.new l ≡ with_value Latch.PortB term (term_at self.old) l }
    {
        self.port_b = term;
    }

    /// Writes both ports.
    pub(crate) fn write_ports(&mut self, first: usize, second: usize)
        ensures terms { (l : Latch) → term_at self.new l ≡ with_value Latch.PortB second (with_value Latch.PortA first (term_at self.old)) l }
    {
        self.port_a = first;
        self.port_b = second;
    }

    /// Writes a0.
    pub(crate) fn write_a0(&mut self, term: usize)
        ensures terms { (l : Latch) → term_at self.new l ≡ with_value (Latch.Reg 10) term (term_at self.old) l }
    {
        self.regs[10] = term;
    }

    /// Writes the latch of the multiplier.
    pub(crate) fn write_mul(&mut self, term: usize)
        ensures terms { (l : Latch) → term_at self.new l ≡ with_value Latch.Mul term (term_at self.old) l }
    {
        self.mul = term;
    }

    /// Writes the result of the arithmetic unit.
    fn write_res(&mut self, term: usize)
        ensures terms { (l : Latch) → term_at self.new l ≡ with_value Latch.Res term (term_at self.old) l }
    {
        self.res = term;
    }

    /// Writes a register, but for x0.
    pub(crate) fn write_reg(&mut self, rd: RegNo, term: usize)
        ensures terms { (l : Latch) → term_at self.new l ≡ values_after (to_reg rd term Constant) (term_at self.old) l }
    {
        let number = rd.num();
        if number != 0 {
            self.regs[number as usize] = term;
        }
    }

    /// Writes the result and a register.
    pub(crate) fn write_result(&mut self, rd: RegNo, term: usize)
        ensures terms { (l : Latch) → term_at self.new l ≡ values_after (result_writes rd term Constant) (term_at self.old) l }
    {
        self.write_res(term);
        self.write_reg(rd, term);
    }
}
