//! The integer registers x0 to x31 (RISC-V Unprivileged ISA 20191213, section 2.1).

ghost use Rattle.std.specs.Prelude.{◌≡◌, ◌+◌, ◌%◌, ◌<◌, ◌≤◌, IfSome, IfNone};

use std::marker::Model;

/// An integer register. A contract sees its number, which is below 32.
#[derive(Clone, Copy, Debug, PartialEq, Eq)]
pub struct Reg {
    number: u8,
}

impl Model for Reg {
    ghost use Rattle.std.specs.Prelude.{ℕ, ◌<◌};

    ghost Value = { ℕ };

    ghost view = { λ r. r.number };

    ghost invariant = { λ r. r.number < 32 };

    ghost inverse = { λ n. record { number = n } };
}

impl Reg {
    /// The register with this number, or None where there is none.
    pub fn new(number: u8) -> Option<Self>
        ensures some { IfSome result (λ reg. (reg ≡ number) × (number < 32)) }
        ensures none { IfNone result (32 ≤ number) }
    {
        if number < 32 {
            Some(Reg { number })
        } else {
            None
        }
    }

    /// The register that the low five bits name.
    pub fn from_low_bits(bits: u32) -> Self
        ensures { result ≡ bits % 32 }
    {
        Reg {
            number: (bits % 32) as u8,
        }
    }

    /// Its number, from 0 to 31.
    pub fn number(self) -> u8
        ensures number { result ≡ self }
        ensures below { result < 32 }
    {
        self.number
    }
}
