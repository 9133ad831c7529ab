//! Why a report is not whole.
ghost use Rattle.std.specs.Prelude.{◌≡◌};

use crate::{FileFault, FileWord};
use ea_blocks::{InputFault, ReadFault};
use std::alloc::AllocError;
use thiserror::Error;

/// Why a report is not whole. `written` is the number of bytes written, the first of the report.
#[derive(Clone, Copy, Debug, PartialEq, Eq, Error)]
pub enum AnswerFault {
    /// A file couldn't be read, or is too large; nothing was written.
    #[error("{file}: {fault}")]
    Read { file: FileWord, fault: ReadFault },
    /// A file's text has a fault; nothing was written.
    #[error("{file}: {fault}")]
    Input { file: FileWord, fault: InputFault },
    /// A departure is above 281,474,976,710,655; nothing was written.
    #[error("a departure is beyond the last time (14 BadOption)")]
    BadOption,
    /// The report couldn't be written.
    #[error("the output could not be written after {written} bytes (12 WriteFailed)")]
    Write { written: u128 },
    /// Memory was refused.
    #[error("there is not enough memory (13 OutOfMemory)")]
    OutOfMemory { written: u128 },
}

impl From<FileFault> for AnswerFault {
    ghost use Rattle.ea_load.specs.Faults.{answer_fault};

    ghost from_gives = { λ file fault. fault ≡ answer_fault file };

    fn from(fault: FileFault) -> AnswerFault {
        match fault {
            FileFault::Read { file, fault } => AnswerFault::Read { file, fault },
            FileFault::Input { file, fault } => AnswerFault::Input { file, fault },
            FileFault::OutOfMemory => AnswerFault::OutOfMemory { written: 0 },
        }
    }
}

impl From<AllocError> for AnswerFault {
    ghost use Rattle.ea_load.specs.declared.answer_fault.AnswerFault.TheVariants.{OutOfMemory};

    ghost from_gives = { λ _ fault. fault ≡ OutOfMemory 0 };

    fn from(_refused: AllocError) -> AnswerFault {
        AnswerFault::OutOfMemory { written: 0 }
    }
}
