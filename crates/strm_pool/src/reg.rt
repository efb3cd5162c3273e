//! The names of registers, as checked numbers.
ghost use Rattle.std.specs.Prelude.{◌≡◌, ◌<◌};
ghost use Rattle.std.specs.Option.{SomeIff};
ghost use Rattle.strm_pool.specs.Limits.{most_registers};

use crate::limits::MOST_REGISTERS;
use std::marker::Model;

/// The name of a register, a to z, as its place in the alphabet from 0.
#[derive(Clone, Copy, Debug)]
pub struct Reg {
    place: u8,
}

impl Model for Reg {
    ghost use Rattle.std.specs.Prelude.{ℕ, ◌<◌};
    ghost use Rattle.strm_pool.specs.Limits.{most_registers};

    ghost Value = { ℕ };

    ghost view = { λ r. r.place };

    ghost invariant = { λ r. r.place < most_registers };

    ghost inverse = { λ n. record { place = n } };
}

impl Reg {
    /// Makes the name of the register with this place in the alphabet, or none above 25.
    pub fn new(place: u8) -> Option<Reg>
        ensures { SomeIff result (place < most_registers) place }
    {
        if usize::from(place) < MOST_REGISTERS {
            Some(Reg { place })
        } else {
            None
        }
    }

    /// Returns the register's place in the alphabet, from 0.
    pub fn index(self) -> usize
        ensures value { result ≡ self }
        ensures small { result < most_registers }
    {
        usize::from(self.place)
    }
}
