//! The faults of a text.
ghost use Rattle.std.specs.Prelude.{◌≡◌};
ghost use Rattle.ea_blocks.specs.Fault.{fault_at, out_of_memory};
ghost use Rattle.ea_blocks.specs.FaultNames.{kind_name, kind_number};
ghost use Rattle.ea_blocks.specs.declared.fault.FaultKind.TheVariants.{OutOfMemory as no_memory};

use std::alloc::AllocFailed;
use std::fmt;
use thiserror::Error;

/// The fault of a line or a text.
#[derive(Clone, Copy, Debug, PartialEq, Eq, Error)]
pub enum FaultKind {
    /// There is no problem line before this line, or in the whole text.
    #[error("the problem line `p ..` is missing (1 NoProblemLine)")]
    NoProblemLine = 1,
    #[error("there is a second problem line (2 SecondProblemLine)")]
    SecondProblemLine = 2,
    /// The first word is none with which lines of the file begin.
    #[error("lines of this file don't begin with this word (3 UnknownLine)")]
    UnknownLine = 3,
    #[error("the line has too few or too many fields (4 FieldCount)")]
    FieldCount = 4,
    /// A field that must be a number has a byte other than a digit.
    #[error("a field is not a number (5 BadNumber)")]
    BadNumber = 5,
    #[error("a number is out of its range (6 OutOfRange)")]
    OutOfRange = 6,
    #[error("there are more lines of this sort than were announced (7 TooManyLines)")]
    TooManyLines = 7,
    #[error("there are fewer lines than were announced (8 TooFewLines)")]
    TooFewLines = 8,
    /// A kind word differs from the required one.
    #[error("a kind word is not the one expected here (9 BadKind)")]
    BadKind = 9,
    /// Memory was refused; the text may be right or wrong.
    #[error("there is not enough memory (13 OutOfMemory)")]
    OutOfMemory = 13,
}

impl FaultKind {
    /// The number of this kind in messages.
    pub fn number(self) -> u8
        ensures { result ≡ kind_number self }
    {
        self as u8
    }

    /// The name of this kind in messages.
    pub fn name(self) -> &'static str
        ensures { result.now ≡ kind_name self }
    {
        match self {
            FaultKind::NoProblemLine => "NoProblemLine",
            FaultKind::SecondProblemLine => "SecondProblemLine",
            FaultKind::UnknownLine => "UnknownLine",
            FaultKind::FieldCount => "FieldCount",
            FaultKind::BadNumber => "BadNumber",
            FaultKind::OutOfRange => "OutOfRange",
            FaultKind::TooManyLines => "TooManyLines",
            FaultKind::TooFewLines => "TooFewLines",
            FaultKind::BadKind => "BadKind",
            FaultKind::OutOfMemory => "OutOfMemory",
        }
    }
}

/// The first fault of a text: its line, counted from 1, or 0 for a fault of the whole text.
#[derive(Clone, Copy, Debug, PartialEq, Eq)]
pub struct InputFault {
    pub line: u64,
    pub kind: FaultKind,
}

impl fmt::Display for InputFault {
    fn fmt<W: fmt::Write>(&self, f: &mut fmt::Formatter<W>) -> fmt::Result {
        let kind = self.kind;
        if self.line == 0 {
            write!(f, "{kind}")
        } else {
            let line = self.line;
            write!(f, "line {line}: {kind}")
        }
    }
}

impl std::error::Error for InputFault {}

impl<T: Drop> From<AllocFailed<T>> for FaultKind {
    ghost from_gives = { λ _ kind. kind ≡ no_memory };

    fn from(_refused: AllocFailed<T>) -> FaultKind {
        FaultKind::OutOfMemory
    }
}

impl<T: Drop> From<AllocFailed<T>> for InputFault {
    ghost from_gives = { λ _ fault. fault ≡ out_of_memory };

    fn from(_refused: AllocFailed<T>) -> InputFault {
        InputFault {
            line: 0,
            kind: FaultKind::OutOfMemory,
        }
    }
}

/// The fault of a line. Refused memory has no line.
pub fn fault_in(line: u64, kind: FaultKind) -> InputFault
    ensures { result ≡ fault_at line kind }
{
    match kind {
        FaultKind::OutOfMemory => InputFault { line: 0, kind },
        _ => InputFault { line, kind },
    }
}
