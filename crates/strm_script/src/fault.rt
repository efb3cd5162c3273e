//! The faults of a script, with their names, and why a script or line was not read.
ghost use Rattle.std.specs.Prelude.{◌≡◌};
ghost use Rattle.strm_script.specs.Fault.{kind_text, on_line};

use std::alloc::AllocError;
use std::fmt;
use thiserror::Error;

/// What is wrong with a line of a script. The checks of a line come in this order; those of arguments, from `Number` to `Hex`,
/// are made argument by argument from the left.
#[derive(Clone, Copy, Debug, PartialEq, Eq)]
pub enum Kind {
    /// The last line has no line end.
    Cut,
    /// The first word is not one of a script's.
    Unknown,
    /// The line is not allowed at this place of the script.
    Order,
    /// There are already as many lines of this kind as there may be.
    Toomany,
    /// The number of arguments is wrong.
    Shape,
    /// An argument is not a number in its range.
    Number,
    /// A word is not a register.
    Register,
    /// An argument is not one of the words that are allowed there.
    Word,
    /// An argument is not a string of bytes in hexadecimal.
    Hex,
    /// The script ends before its first worker section.
    Missing,
}

/// The first fault of a script: its line, counted from 1, and what is wrong there.
#[derive(Clone, Copy, Debug, PartialEq, Eq)]
pub struct Fault {
    pub line: u32,
    pub kind: Kind,
}

/// Why a script was not read: its first fault, or out of memory.
#[derive(Clone, Copy, Debug, PartialEq, Eq, Error)]
pub enum ParseFault {
    /// The first fault of the script.
    #[error("{0}")]
    Script(Fault),
    /// Memory was refused.
    #[error("memory")]
    Memory,
}

/// Why a line was not read: its fault, or out of memory.
#[derive(Clone, Copy, Debug, PartialEq, Eq)]
pub enum LineFault {
    /// The fault of the line.
    Kind(Kind),
    /// Memory was refused.
    Memory,
}

impl Kind {
    /// Returns the fault's name, as `strm` prints it.
    pub fn name(self) -> &'static str
        ensures { result.now ≡ kind_text self }
    {
        match self {
            Kind::Cut => "cut",
            Kind::Unknown => "unknown",
            Kind::Order => "order",
            Kind::Toomany => "toomany",
            Kind::Shape => "shape",
            Kind::Number => "number",
            Kind::Register => "register",
            Kind::Word => "word",
            Kind::Hex => "hex",
            Kind::Missing => "missing",
        }
    }
}

impl LineFault {
    /// Returns the fault of a script whose line `line` has this fault.
    pub fn on_line(self, line: u32) -> ParseFault
        ensures { result ≡ on_line line self }
    {
        match self {
            LineFault::Kind(kind) => ParseFault::Script(Fault { line, kind }),
            LineFault::Memory => ParseFault::Memory,
        }
    }
}

impl fmt::Display for Fault {
    ghost use Rattle.std.specs.Prelude.{Some, ◌++◌, codes, decimal};

    ghost output = { λ fault. Some (codes "line " ++ (decimal fault.line ++ (codes ": " ++ kind_text fault.kind))) };

    fn fmt<W: fmt::Write>(&self, f: &mut fmt::Formatter<W>) -> fmt::Result {
        let line = self.line;
        let kind = self.kind.name();
        write!(f, "line {line}: {kind}")
    }
}

impl From<AllocError> for ParseFault {
    ghost use Rattle.strm_script.specs.declared.fault.ParseFault.TheVariants.{Memory};

    ghost from_gives = { λ _ e. e ≡ Memory };

    fn from(_error: AllocError) -> ParseFault {
        ParseFault::Memory
    }
}

impl From<AllocError> for LineFault {
    ghost use Rattle.strm_script.specs.declared.fault.LineFault.TheVariants.{Memory};

    ghost from_gives = { λ _ e. e ≡ Memory };

    fn from(_error: AllocError) -> LineFault {
        LineFault::Memory
    }
}

impl From<Kind> for LineFault {
    ghost use Rattle.strm_script.specs.declared.fault.LineFault.TheVariants as faults;

    ghost from_gives = { λ kind e. e ≡ faults.Kind kind };

    fn from(kind: Kind) -> LineFault {
        LineFault::Kind(kind)
    }
}
