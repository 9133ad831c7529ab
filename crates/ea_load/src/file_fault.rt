//! Files by their names in messages, and why one has no result.
ghost use Rattle.std.specs.Prelude.{◌≡◌, Some};
ghost use Rattle.ea_load.specs.FileNames.{file_word};

use ea_blocks::{InputFault, ReadFault};
use std::alloc::AllocError;
use std::fmt;
use thiserror::Error;

/// A file, by its name in messages.
#[derive(Clone, Copy, Debug, PartialEq, Eq)]
pub enum FileWord {
    /// The network.
    Gr,
    /// The sources.
    Ss,
    /// The timetables.
    Tp,
    /// The pairs of source and target.
    P2p,
    /// When each source or pair departs, or has to be reached.
    Times,
    /// The nodes that are reported.
    Nodes,
    /// A report that is checked.
    Report,
    /// The file to which a report is written.
    Out,
}

impl FileWord {
    /// The word.
    pub fn word(self) -> &'static str
        ensures { result.now ≡ file_word self }
    {
        match self {
            FileWord::Gr => "gr",
            FileWord::Ss => "ss",
            FileWord::Tp => "tp",
            FileWord::P2p => "p2p",
            FileWord::Times => "times",
            FileWord::Nodes => "nodes",
            FileWord::Report => "report",
            FileWord::Out => "out",
        }
    }
}

impl fmt::Display for FileWord {
    ghost output = { λ word. Some (file_word word) };

    fn fmt<W: fmt::Write>(&self, f: &mut fmt::Formatter<W>) -> fmt::Result {
        f.write_str(self.word())
    }
}

/// Why a file has no result.
#[derive(Clone, Copy, Debug, PartialEq, Eq, Error)]
pub enum FileFault {
    /// It couldn't be read, or is too large.
    #[error("{file}: {fault}")]
    Read { file: FileWord, fault: ReadFault },
    /// Its text has a fault.
    #[error("{file}: {fault}")]
    Input { file: FileWord, fault: InputFault },
    /// Memory was refused; the file may be right or wrong.
    #[error("there is not enough memory (13 OutOfMemory)")]
    OutOfMemory,
}

impl From<AllocError> for FileFault {
    ghost use Rattle.ea_load.specs.declared.file_fault.FileFault.TheVariants.{OutOfMemory};

    ghost from_gives = { λ _ fault. fault ≡ OutOfMemory };

    fn from(_refused: AllocError) -> FileFault {
        FileFault::OutOfMemory
    }
}
