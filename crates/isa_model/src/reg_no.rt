//! The number of a register.

ghost use Rattle.std.specs.Prelude.{◌≡◌, ℕ, ◌<◌, ◌≤◌, IfSome, IfNone};

use std::marker::Model;

/// The number of a register, x0 to x31 (unprivileged manual, RV32I, "Programmers' Model"). Contracts see it as a number below 32.
#[derive(Clone, Copy, Debug, PartialEq, Eq)]
pub struct RegNo {
    no: u8,
}

impl Model for RegNo {
    ghost use Rattle.std.specs.Prelude.{ℕ, ◌<◌};

    ghost Value = { ℕ };

    ghost view = { λ r. r.no };

    ghost invariant = { λ r. r.no < 32 };

    ghost inverse = { λ n. record { no = n } };
}

impl RegNo {
    /// The register of this number; None exactly where the number is over 31.
    pub fn new(n: u8) -> Option<RegNo>
        ensures some { IfSome result (λ r. (r ≡ n) × (r < 32)) }
        ensures none { IfNone result (32 ≤ n) }
    {
        if n < 32 { Some(RegNo { no: n }) } else { None }
    }

    /// Its number, 0 to 31.
    pub fn num(self) -> u8
        ensures value { result ≡ self }
        ensures bound { result < 32 }
    {
        self.no
    }
}
