//! What a call names, which is checked before the call runs.
ghost use Rattle.std.specs.Prelude.{◌≡◌};
ghost use Rattle.strm_pool.specs.Names.{names_from};

use crate::reg::Reg;

/// The queue and the registers that a call names, each if any.
#[derive(Clone, Copy, Debug)]
pub struct Names {
    /// The queue's number.
    pub queue: Option<u8>,
    /// The first source: a register whose message the call uses.
    pub source: Option<Reg>,
    /// The second source.
    pub second: Option<Reg>,
    /// The destination: a register for a message that the call gives.
    pub destination: Option<Reg>,
}

impl Names {
    // The names that are given.
    pub(crate) fn of(
        queue: Option<u8>,
        source: Option<Reg>,
        second: Option<Reg>,
        destination: Option<Reg>,
    ) -> Names
        ensures { result ≡ names_from queue source second destination }
    {
        Names {
            queue,
            source,
            second,
            destination,
        }
    }
}
