//! The four entries.

ghost use Rattle.std.specs.Prelude.{◌≡◌, ◌<◌, ◌&&◌, set};
ghost use Rattle.hart_model.specs.Pmp.{no_protection, addr_of, range_start, region_of, cfg_of, legal_pmpcfg, is_touched, is_covered, is_permitted, is_allowed};

use crate::config::{byte, is_permitted, legal_config, matching};
use crate::region::{is_covered, is_touched, power_of_two};
use hart_model::{Access, AddressMatching, Mode, Region};
use std::marker::Model;

/// The configuration word and the four address words. A written configuration is made legal.
#[derive(Debug, Drop)]
pub struct Pmp {
    cfg: u32,
    addrs: [u32; 4],
}

impl Model for Pmp {
    ghost use Rattle.hart_model.specs.Pmp.{PmpFile};

    ghost Value = { PmpFile };

    ghost view = { λ p. record { cfg = p.cfg; addrs = p.addrs } };
}

impl Pmp {
    /// Four entries that are off, with the address 0.
    pub fn new() -> Pmp
        ensures file { result ≡ no_protection }
    {
        Pmp {
            cfg: 0,
            addrs: [0; 4],
        }
    }

    /// The configuration word (privileged manual, "Physical Memory Protection CSRs"): a byte an entry, entry 0 in the lowest.
    pub fn cfg(&self) -> u32
        ensures word { result ≡ self.now.cfg }
    {
        self.cfg
    }

    /// Writes the configuration word. Of each byte R, W, X and A are kept, and W without R becomes neither.
    pub fn set_cfg(&mut self, word: u32)
        ensures file { self.new ≡ record self.old { cfg = legal_pmpcfg word } }
    {
        self.cfg = legal_config(word);
    }

    /// The address word of an entry: bits 33:2 of an address.
    pub fn addr(&self, i: u32) -> u32
        requires entry { i < 4 }
        ensures word { result ≡ addr_of self.now i }
    {
        self.addrs[i as usize]
    }

    /// Writes the address word of an entry.
    pub fn set_addr(&mut self, i: u32, word: u32)
        requires entry { i < 4 }
        ensures file { self.new ≡ record self.old { addrs = set self.old.addrs i word } }
    {
        self.addrs[i as usize] = word;
    }

    /// The four address words, entry 0 first.
    pub fn addrs(&self) -> [u32; 4]
        ensures words { result ≡ self.now.addrs }
    {
        self.addrs
    }

    /// Writes the four address words, entry 0 first.
    pub fn set_addrs(&mut self, words: [u32; 4])
        ensures file { self.new ≡ record self.old { addrs = words } }
    {
        self.addrs = words;
    }

    /// Where an entry begins whose range ends at its address: at the address of the entry below, and at 0 for entry 0.
    fn range_start(&self, i: u32) -> u64
        requires entry { i < 4 }
        ensures value { result ≡ range_start self.now i }
    {
        if i == 0 {
            0
        } else {
            4 * u64::from(self.addr(i - 1))
        }
    }

    /// The bytes that an entry covers.
    fn region(&self, i: u32) -> Region
        requires entry { i < 4 }
        ensures value { result ≡ region_of self.now i }
    {
        let at = 4 * u64::from(self.addr(i));
        match matching(byte(self.cfg, i)) {
            AddressMatching::Off => Region { low: 0, high: 0 },
            AddressMatching::Tor => Region {
                low: self.range_start(i),
                high: at,
            },
            AddressMatching::Na4 => Region {
                low: at,
                high: at + 4,
            },
            AddressMatching::Napot => power_of_two(self.addr(i)),
        }
    }

    /// Whether an entry matches any byte of an access.
    fn matches(&self, i: u32, addr: u32, size: u32) -> bool
        requires entry { i < 4 }
        ensures answer { result ≡ is_touched (region_of self.now i) addr size }
    {
        is_touched(self.region(i), addr, size)
    }

    /// Whether an entry matches all bytes of an access and permits it.
    fn permits(&self, i: u32, addr: u32, size: u32, kind: Access) -> bool
        requires entry { i < 4 }
        ensures answer { result ≡ (is_covered (region_of self.now i) addr size && is_permitted (cfg_of self.now i) kind) }
    {
        is_covered(self.region(i), addr, size) && is_permitted(byte(self.cfg, i), kind)
    }

    /// Whether an access of `size` bytes at an address may be done. In machine mode every one may. In user mode the lowest entry
    /// that matches any of its bytes decides: it has to match all of them and to permit the access; where none matches, it fails.
    pub fn allows(&self, mode: Mode, addr: u32, size: u32, kind: Access) -> bool
        ensures answer { result ≡ is_allowed mode self.now addr size kind }
    {
        match mode {
            Mode::Machine => true,
            Mode::User => self.allows_user(addr, size, kind),
        }
    }

    /// Whether user mode may do an access.
    fn allows_user(&self, addr: u32, size: u32, kind: Access) -> bool
        ensures answer { result ≡ is_allowed Mode.User self.now addr size kind }
    {
        for i in 0..4 {
            if self.matches(i, addr, size) {
                return self.permits(i, addr, size, kind);
            }
        }
        false
    }
}
