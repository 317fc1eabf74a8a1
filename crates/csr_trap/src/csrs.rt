//! The registers, and what traps, their return and ticks do to them.

ghost use Rattle.std.specs.Prelude.{◌≡◌, ◌%◌, true, false, is_some, unwrap_or};
ghost use Rattle.hart_model.specs.Pmp.{boot_pmpcfg};
ghost use Rattle.hart_model.specs.Csrs.{boot_csrs, mstatus_value, mie_value, csr_cell, with_mstatus, with_mie, with_public_csr, with_csr};
ghost use Rattle.hart_model.specs.Traps.{csrs_after_trap, csrs_after_mret, takes_interrupts, interrupt_of};

use crate::fields::{bit, is_bit_set, legal_mode, mode_bits, public, word_address};
use hart_model::{Cell, Mode, Tag};
use mem_protect::Pmp;
use std::marker::Model;

const MSTATUS: u16 = 0x300;

const MIE: u16 = 0x304;

const MTVEC: u16 = 0x305;

const MSCRATCH: u16 = 0x340;

const MEPC: u16 = 0x341;

const MCAUSE: u16 = 0x342;

const MTVAL: u16 = 0x343;

const MIP: u16 = 0x344;

const PMPCFG0: u16 = 0x3a0;

const PMPADDR0: u16 = 0x3b0;

const PMPADDR3: u16 = 0x3b3;

const MHARTID: u16 = 0xf14;

/// Used fuel, as interrupt 16 (this project's own).
const FUEL_CAUSE: u32 = 0x8000_0010;
/// The machine timer, interrupt 7.
const TIMER_CAUSE: u32 = 0x8000_0007;

/// Where the kernel's code starts, to which traps go from boot on.
const BOOT_MTVEC: u32 = 0x1000;
/// Entry 1 is a range to read and fetch, entry 3 a range to read and write.
const BOOT_PMPCFG: u32 = 0x0b00_0d00;

/// The registers of one hart: its mode, its CSRs and its physical memory protection. `mscratch` is a latch, and the only CSR that
/// holds a cell with a tag.
#[derive(Debug, Drop)]
pub struct Csrs {
    hart: u32,
    mode: Mode,
    is_enabled: bool,
    was_enabled: bool,
    previous: Mode,
    is_timer_enabled: bool,
    is_fuel_enabled: bool,
    mtvec: u32,
    mscratch: Cell,
    mepc: u32,
    mcause: u32,
    is_timer_pending: bool,
    pmp: Pmp,
}

impl Model for Csrs {
    ghost use Rattle.std.specs.Prelude.{◌≡◌, ◌%◌};
    ghost use Rattle.hart_model.specs.Csrs.{CsrFile};

    ghost Value = { CsrFile };

    ghost view = { λ c. record {
      hart = c.hart;
      mode = c.mode;
      is_enabled = c.is_enabled;
      was_enabled = c.was_enabled;
      previous = c.previous;
      is_timer_enabled = c.is_timer_enabled;
      is_fuel_enabled = c.is_fuel_enabled;
      mtvec = c.mtvec;
      mscratch = c.mscratch;
      mepc = c.mepc;
      mcause = c.mcause;
      is_timer_pending = c.is_timer_pending;
      pmp = c.pmp;
    } };

    ghost invariant = { λ c. (c.mtvec % 4 ≡ 0) × (c.mepc % 4 ≡ 0) };
}

impl Csrs {
    /// The registers of the hart of this number at boot: machine mode, interrupts disabled, both of their bits in `mie` set,
    /// `mtvec` at the kernel's code, and the protection's entries 1 and 3 configured for code and data.
    pub fn new(hart: u32) -> Csrs
        ensures boot { result ≡ boot_csrs hart }
    {
        let mut pmp = Pmp::new();
        pmp.set_cfg(BOOT_PMPCFG);
        Csrs {
            hart,
            mode: Mode::Machine,
            is_enabled: false,
            was_enabled: false,
            previous: Mode::User,
            is_timer_enabled: true,
            is_fuel_enabled: true,
            mtvec: BOOT_MTVEC,
            mscratch: public(0),
            mepc: 0,
            mcause: 0,
            is_timer_pending: false,
            pmp,
        }
    }

    /// The registers of the hart of this number as at boot, but for these: `mscratch`, `mepc`, which is the address of a word, `mcause`,
    /// whether the timer is pending, and the four address words of the protection.
    pub fn again(
        hart: u32,
        mscratch: Cell,
        mepc: u32,
        mcause: u32,
        is_timer_pending: bool,
        bounds: [u32; 4],
    ) -> Csrs
        requires aligned { mepc % 4 ≡ 0 }
        ensures file { result ≡ record (boot_csrs hart) {
          mscratch = mscratch;
          mepc = mepc;
          mcause = mcause;
          is_timer_pending = is_timer_pending;
          pmp = record { cfg = boot_pmpcfg; addrs = bounds };
        } }
    {
        let mut csrs = Csrs::new(hart);
        csrs.mscratch = mscratch;
        csrs.mepc = mepc;
        csrs.mcause = mcause;
        csrs.is_timer_pending = is_timer_pending;
        csrs.pmp.set_addrs(bounds);
        csrs
    }

    /// The present mode.
    pub fn mode(&self) -> Mode
        ensures mode { result ≡ self.now.mode }
    {
        self.mode
    }

    /// The physical memory protection.
    pub fn pmp(&self) -> &Pmp
        ensures file { result.now ≡ self.now.pmp }
    {
        &self.pmp
    }

    /// `mepc`: where the last trap was taken, or what was written since.
    pub fn mepc(&self) -> u32
        ensures address { result ≡ self.now.mepc }
        ensures aligned { result % 4 ≡ 0 }
    {
        self.mepc
    }

    /// `mcause`: the cause of the last trap, or what was written since.
    pub fn mcause(&self) -> u32
        ensures cause { result ≡ self.now.mcause }
    {
        self.mcause
    }

    /// Whether the timer interrupt is pending.
    pub fn is_timer_pending(&self) -> bool
        ensures pending { result ≡ self.now.is_timer_pending }
    {
        self.is_timer_pending
    }

    /// `mstatus`: MIE bit 3, MPIE bit 7, MPP bits 12:11.
    fn mstatus(&self) -> u32
        ensures value { result ≡ mstatus_value self.now }
    {
        0x8 * bit(self.is_enabled) + 0x80 * bit(self.was_enabled) + 0x800 * mode_bits(self.previous)
    }

    /// `mie`: the timer bit 7, used fuel bit 16.
    fn mie(&self) -> u32
        ensures value { result ≡ mie_value self.now }
    {
        0x80 * bit(self.is_timer_enabled) + 0x1_0000 * bit(self.is_fuel_enabled)
    }

    /// What a read of the CSR of this number gives: its value with its tag, which is public for all but `mscratch`; None exactly
    /// where there is no such CSR.
    #[tactic(auto, unfolding(hart_model::specs::Csrs::csr_cell))]
    pub fn read(&self, no: u16) -> Option<Cell>
        ensures cell { result ≡ csr_cell self.now no }
    {
        match no {
            MSTATUS => Some(public(self.mstatus())),
            MIE => Some(public(self.mie())),
            MTVEC => Some(public(self.mtvec)),
            MSCRATCH => Some(self.mscratch),
            MEPC => Some(public(self.mepc)),
            MCAUSE => Some(public(self.mcause)),
            MTVAL => Some(public(0)),
            MIP => Some(public(0x80 * bit(self.is_timer_pending))),
            PMPCFG0 => Some(public(self.pmp.cfg())),
            PMPADDR0..=PMPADDR3 => Some(public(self.pmp.addr(u32::from(no - PMPADDR0)))),
            MHARTID => Some(public(self.hart)),
            _ => None,
        }
    }

    fn set_mstatus(&mut self, value: u32)
        ensures file { self.new ≡ with_mstatus self.old value }
    {
        self.is_enabled = is_bit_set(3, value);
        self.was_enabled = is_bit_set(7, value);
        self.previous = legal_mode(value >> 11 & 3);
    }

    fn set_mie(&mut self, value: u32)
        ensures file { self.new ≡ with_mie self.old value }
    {
        self.is_timer_enabled = is_bit_set(7, value);
        self.is_fuel_enabled = is_bit_set(16, value);
    }

    /// Writes a CSR other than `mscratch`; false, with nothing changed, where there is none or it is read only.
    fn write_public(&mut self, no: u16, value: u32) -> bool
        ensures accepted { result ≡ is_some (with_public_csr self.old no value) }
        ensures file { self.new ≡ unwrap_or (with_public_csr self.old no value) self.old }
    {
        match no {
            MSTATUS => self.set_mstatus(value),
            MIE => self.set_mie(value),
            MTVEC => self.mtvec = word_address(value),
            MEPC => self.mepc = word_address(value),
            MCAUSE => self.mcause = value,
            MTVAL | MIP => (),
            PMPCFG0 => self.pmp.set_cfg(value),
            PMPADDR0..=PMPADDR3 => self.pmp.set_addr(u32::from(no - PMPADDR0), value),
            _ => return false,
        }
        true
    }

    /// Writes the CSR of this number, whose value is made legal. False, with nothing changed, exactly where there is no such CSR,
    /// it is `mhartid`, or the cell is tagged and the CSR isn't `mscratch`.
    #[tactic(auto, unfolding(hart_model::specs::Csrs::with_csr))]
    pub fn write(&mut self, no: u16, cell: Cell) -> bool
        ensures accepted { result ≡ is_some (with_csr self.old no cell) }
        ensures file { self.new ≡ unwrap_or (with_csr self.old no cell) self.old }
    {
        if no == MSCRATCH {
            self.mscratch = cell;
            return true;
        }
        match cell.tag {
            Tag::Public => self.write_public(no, cell.value),
            _ => false,
        }
    }

    /// Takes a trap of this cause at this pc, which `mepc` keeps, into machine mode with interrupts disabled; answers the new pc,
    /// `mtvec` (privileged manual, "Machine Status Registers", "Machine Trap-Vector Base-Address Register").
    pub fn trap(&mut self, cause: u32, pc: u32) -> u32
        requires aligned { pc % 4 ≡ 0 }
        ensures file { self.new ≡ csrs_after_trap self.old cause pc }
        ensures pc { result ≡ self.old.mtvec }
        ensures aligned { result % 4 ≡ 0 }
    {
        self.previous = self.mode;
        self.mode = Mode::Machine;
        self.was_enabled = self.is_enabled;
        self.is_enabled = false;
        self.mepc = pc;
        self.mcause = cause;
        self.mtvec
    }

    /// Returns from a trap by MRET, to the mode and the interrupt enable from before it; answers the new pc, `mepc` (privileged
    /// manual, "Trap-Return Instructions").
    pub fn mret(&mut self) -> u32
        ensures file { self.new ≡ csrs_after_mret self.old }
        ensures pc { result ≡ self.old.mepc }
        ensures aligned { result % 4 ≡ 0 }
    {
        self.mode = self.previous;
        self.previous = Mode::User;
        self.is_enabled = self.was_enabled;
        self.was_enabled = true;
        self.mepc
    }

    /// Makes the timer interrupt pending.
    pub fn tick(&mut self)
        ensures file { self.new ≡ record self.old { is_timer_pending = true } }
    {
        self.is_timer_pending = true;
    }

    /// Clears the pending timer interrupt.
    pub fn ack(&mut self)
        ensures file { self.new ≡ record self.old { is_timer_pending = false } }
    {
        self.is_timer_pending = false;
    }

    /// Whether the mode and the interrupt enable let an interrupt be taken: always in user mode, and in machine mode where MIE is
    /// set (privileged manual, "Machine Interrupt Registers").
    fn takes_interrupts(&self) -> bool
        ensures answer { result ≡ takes_interrupts self.now.mode self.now.is_enabled }
    {
        match self.mode {
            Mode::User => true,
            Mode::Machine => self.is_enabled,
        }
    }

    /// The cause of the interrupt that is enabled and pending, used fuel before the timer; None exactly where there is none.
    pub fn interrupt(&self, fuel_out: bool) -> Option<u32>
        ensures cause { result ≡ interrupt_of self.now fuel_out }
    {
        if !self.takes_interrupts() {
            None
        } else if fuel_out && self.is_fuel_enabled {
            Some(FUEL_CAUSE)
        } else if self.is_timer_pending && self.is_timer_enabled {
            Some(TIMER_CAUSE)
        } else {
            None
        }
    }
}
