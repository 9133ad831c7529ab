//! The faults of a report.

ghost use Rattle.std.specs.Prelude.{◌≡◌};
ghost use Rattle.ea_check.specs.FaultNames.{fault_line, fault_name, fault_number};

use std::alloc::{AllocError, AllocFailed};
use thiserror::Error;

/// The first fault of a report, and its line, from 1; 0 if the report ends too early.
#[derive(Clone, Copy, Debug, PartialEq, Eq, Error)]
pub enum CheckFault {
    /// The line is not what its place requires.
    #[error("line {0} is not what its place asks (1 BadLine)")]
    BadLine(u64),
    /// The line's time or walk is not attained.
    #[error("line {0} is not attained (2 NotAttained)")]
    NotAttained(u64),
    /// A walk arrives before the line's time.
    #[error("line {0} is not the least arrival (3 NotLeast)")]
    NotLeast(u64),
    /// Memory was refused; the report may be right or wrong.
    #[error("there is not enough memory (4 OutOfMemory)")]
    OutOfMemory,
    /// The line's walk is not the canonical one.
    #[error("line {0} is not the canonical walk (5 NotCanonical)")]
    NotCanonical(u64),
}

impl CheckFault {
    /// The number of this fault in messages.
    pub fn number(self) -> u8
        ensures { result ≡ fault_number self }
    {
        match self {
            CheckFault::BadLine(_) => 1,
            CheckFault::NotAttained(_) => 2,
            CheckFault::NotLeast(_) => 3,
            CheckFault::OutOfMemory => 4,
            CheckFault::NotCanonical(_) => 5,
        }
    }

    /// The name of this fault in messages.
    pub fn name(self) -> &'static str
        ensures { result.now ≡ fault_name self }
    {
        match self {
            CheckFault::BadLine(_) => "BadLine",
            CheckFault::NotAttained(_) => "NotAttained",
            CheckFault::NotLeast(_) => "NotLeast",
            CheckFault::OutOfMemory => "OutOfMemory",
            CheckFault::NotCanonical(_) => "NotCanonical",
        }
    }

    /// The line of this fault, 0 if the report ends too early; none if memory was refused.
    pub fn line(self) -> Option<u64>
        ensures { result ≡ fault_line self }
    {
        match self {
            CheckFault::BadLine(line)
            | CheckFault::NotAttained(line)
            | CheckFault::NotLeast(line)
            | CheckFault::NotCanonical(line) => Some(line),
            CheckFault::OutOfMemory => None,
        }
    }
}

impl<T: Drop> From<AllocFailed<T>> for CheckFault {
    ghost use Rattle.std.specs.Prelude.{◌≡◌};
    ghost use Rattle.ea_check.specs.declared.fault.CheckFault.TheVariants.{OutOfMemory as no_memory};

    ghost from_gives = { λ _ fault. fault ≡ no_memory };

    fn from(_refused: AllocFailed<T>) -> CheckFault {
        CheckFault::OutOfMemory
    }
}

impl From<AllocError> for CheckFault {
    ghost use Rattle.std.specs.Prelude.{◌≡◌};
    ghost use Rattle.ea_check.specs.declared.fault.CheckFault.TheVariants.{OutOfMemory as no_memory};

    ghost from_gives = { λ _ fault. fault ≡ no_memory };

    fn from(_refused: AllocError) -> CheckFault {
        CheckFault::OutOfMemory
    }
}
