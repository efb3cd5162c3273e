//! Why a run fails, and how the faults of its parts become its own.
ghost use Rattle.std.specs.Prelude.{◌≡◌};
ghost use Rattle.strm_run.specs.Told.{status_of};

use crate::input::ReadFault;
use crate::output::WriteFault;
use strm_pool::{NewFault, Refusal, Which};
use strm_script::{Fault, ParseFault};
use thiserror::Error;

/// Why a script has no text.
#[derive(Clone, Copy, Debug, PartialEq, Eq, Error)]
pub enum TextFault {
    /// The script has a fault.
    #[error("{0}")]
    Script(Fault),
    /// The script's configuration has a fault.
    #[error("bad config: {which}", which = .0.name())]
    Config(Which),
    /// Memory was refused, or a worker had no thread.
    #[error("memory")]
    Memory,
    /// Never returned: a worker's call was refused.
    #[error("refused {number} {name}", number = .0.number(), name = .0.name())]
    Refused(Refusal),
}

/// Why a run failed. After `Write`, a prefix of the text was written; after any other fault, nothing.
#[derive(Clone, Copy, Debug, PartialEq, Eq, Error)]
pub enum RunFault {
    /// The reader failed.
    #[error("read fault")]
    Read,
    /// The input is longer than it may be.
    #[error("input too long")]
    TooLong,
    /// The writer failed, or took no bytes.
    #[error("write fault")]
    Write,
    /// The script has a fault.
    #[error("{0}")]
    Script(Fault),
    /// The script's configuration has a fault.
    #[error("bad config: {which}", which = .0.name())]
    Config(Which),
    /// Memory was refused, or a worker had no thread.
    #[error("memory")]
    Memory,
    /// Never returned: a worker's call was refused.
    #[error("refused {number} {name}", number = .0.number(), name = .0.name())]
    Refused(Refusal),
}

impl RunFault {
    /// Returns the exit status of a program whose run has this fault.
    pub fn status(self) -> u8
        ensures { result ≡ status_of self }
    {
        match self {
            RunFault::Read | RunFault::Write | RunFault::TooLong => 1,
            RunFault::Script(_) | RunFault::Config(_) => 2,
            RunFault::Memory => 3,
            RunFault::Refused(_) => 4,
        }
    }
}

impl From<ParseFault> for TextFault {
    ghost use Rattle.strm_run.specs.Told.{text_fault_of_parse};

    ghost from_gives = { λ fault e. e ≡ text_fault_of_parse fault };

    fn from(fault: ParseFault) -> TextFault {
        match fault {
            ParseFault::Script(found) => TextFault::Script(found),
            ParseFault::Memory => TextFault::Memory,
        }
    }
}

impl From<NewFault> for TextFault {
    ghost use Rattle.strm_run.specs.Told.{text_fault_of_new};

    ghost from_gives = { λ fault e. e ≡ text_fault_of_new fault };

    fn from(fault: NewFault) -> TextFault {
        match fault {
            NewFault::BadConfig(which) => TextFault::Config(which),
            NewFault::BadShared => TextFault::Refused(Refusal::BadShared),
            NewFault::Memory => TextFault::Memory,
        }
    }
}

impl From<ReadFault> for RunFault {
    ghost use Rattle.strm_run.specs.Told.{run_fault_of_read};

    ghost from_gives = { λ fault e. e ≡ run_fault_of_read fault };

    fn from(fault: ReadFault) -> RunFault {
        match fault {
            ReadFault::Read => RunFault::Read,
            ReadFault::TooLong => RunFault::TooLong,
            ReadFault::Memory => RunFault::Memory,
        }
    }
}

impl From<TextFault> for RunFault {
    ghost use Rattle.strm_run.specs.Told.{run_fault_of_text};

    ghost from_gives = { λ fault e. e ≡ run_fault_of_text fault };

    fn from(fault: TextFault) -> RunFault {
        match fault {
            TextFault::Script(found) => RunFault::Script(found),
            TextFault::Config(which) => RunFault::Config(which),
            TextFault::Memory => RunFault::Memory,
            TextFault::Refused(why) => RunFault::Refused(why),
        }
    }
}

impl From<WriteFault> for RunFault {
    ghost use Rattle.strm_run.specs.declared.fault.RunFault.TheVariants.{Write};

    ghost from_gives = { λ _ e. e ≡ Write };

    fn from(_fault: WriteFault) -> RunFault {
        RunFault::Write
    }
}
