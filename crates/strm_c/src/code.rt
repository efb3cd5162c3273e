//! The codes that calls of C return, by their numbers in strm.h.
ghost use Rattle.std.specs.Prelude.{◌≡◌};

use strm_named::Fault;
use strm_pool::{Refusal, Which};

/// Why a call stored no result. Nothing changed, except if `Nothing` is returned by a call that was done: `freeb` freed the
/// only block of a message, `getq` set the want-to-read mark of an empty queue, or `serve` took queues off the run list. Each
/// code has a number in strm.h, where 0 means done.
#[derive(Clone, Copy, Debug, PartialEq, Eq)]
pub enum Code {
    /// The pool refused the call. The code's number is that of the refusal.
    Refused(Refusal),
    /// The call was done, and there was nothing to return.
    Nothing,
    /// A name is not valid, or both names of `linkb` are of one message.
    Invalid,
    /// The handle is not open.
    NotOpen,
    /// A number is out of range, or there are more classes or queues than a pool can have.
    BadArgument,
    /// The handle is open already.
    IsOpen,
    /// Memory was refused.
    NoMemory,
    /// The configuration is not lawful; this is its first fault.
    BadConfig(Which),
}

impl Code {
    ghost use Rattle.strm_c.specs.Codes.{code_of, number_of};

    /// Returns the code's number in strm.h.
    pub fn number(self) -> i32
        ensures { result ≡ number_of self }
    {
        match self {
            Code::Refused(why) => i32::from(why.number()),
            Code::Nothing => -1,
            Code::Invalid => -2,
            Code::NotOpen => -3,
            Code::BadArgument => -4,
            Code::IsOpen => -5,
            Code::NoMemory => -6,
            Code::BadConfig(Which::Mblks) => -11,
            Code::BadConfig(Which::Classes) => -12,
            Code::BadConfig(Which::ClassSize) => -13,
            Code::BadConfig(Which::ClassTotal) => -14,
            Code::BadConfig(Which::Queues) => -15,
            Code::BadConfig(Which::Marks) => -16,
            Code::BadConfig(Which::Next) => -17,
            Code::BadConfig(Which::Bufcalls) => -18,
            Code::BadConfig(Which::FirstId) => -19,
        }
    }

    // The code of a fault of the named pool.
    pub(crate) fn of(fault: Fault) -> Code
        ensures { result ≡ code_of fault }
    {
        match fault {
            Fault::Invalid => Code::Invalid,
            Fault::Refused(why) => Code::Refused(why),
        }
    }
}
